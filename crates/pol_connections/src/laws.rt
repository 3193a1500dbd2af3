//! Laws of the definitions. Each function does nothing: its contract is the law.
ghost use Rattle.std.specs.Prelude.{◌≡◌, ◌∷◌, ◌++◌, [], codes, filter, map, None, Some, List};
ghost use Rattle.std.specs.List.{Contains};
ghost use Rattle.pol_addr.specs.Address.{IsAddr, family_of};
ghost use Rattle.pol_addr.specs.declared.address.Addr.{Addr};
ghost use Rattle.pol_addr.specs.declared.address.Addr.TheVariants.{V4, V6};
ghost use Rattle.pol_addr.specs.declared.network.Prefix.{Prefix as OnePrefix};
ghost use Rattle.pol_addr.specs.declared.family.Family.{Family as OneFamily};
ghost use Rattle.pol_addr.specs.declared.family.Family.TheVariants.{Ipv4, Ipv6};
ghost use Rattle.pol_addr.specs.Prefix.{world};
ghost use Rattle.pol_mapkey.specs.declared.Word.TheVariants.{Allowed, DeniedByDefault, DeniedByRule};
ghost use Rattle.pol_model.specs.After.{state_of};
ghost use Rattle.pol_model.specs.Remote.{endpoint_at, number_at};
ghost use Rattle.pol_model.specs.State.{State};
ghost use Rattle.pol_model_laws.specs.Keeps.{Keeps};
ghost use Rattle.pol_model_laws.specs.WorkedMaps.{ordinary};
ghost use Rattle.pol_ports.specs.declared.Proto.TheVariants.{Tcp};
ghost use Rattle.pol_rule.specs.declared.policy.Entity.TheVariants as entity;
ghost use Rattle.pol_connections.specs.declared.end.EndName.TheVariants as name;
ghost use Rattle.pol_connections.specs.Connections.{halves_of};
ghost use Rattle.pol_connections.specs.Examples.{a, alike, b, b_receives, b_receives_but, by_policy, change, closed, first_end, halves, host, low6, names_new, net, net6, opened_below, pod, pods_of, refuses, second_end, sends_out, tcp, tcp_change, tcp_turn, turned_below, to_world, to_world_but, two_pods, with_new};
ghost use Rattle.pol_connections.specs.Ends.{stands_alone};
ghost use Rattle.pol_connections.specs.Regions.{held_prefixes, region_number, region_of, regions_of};

/// All addresses of a region that are no endpoint's have one number in a state, that of the region, where the regions have each
/// prefix that the state holds. So do the regions of two states, for both.
pub fn regions_have_one_number()
    ensures number { (s : State) (regions : List OnePrefix) (region : OnePrefix) (address : Addr)
        → ((prefix : OnePrefix) → Contains (held_prefixes s.identities) prefix → Contains regions prefix)
        → endpoint_at address s.endpoints ≡ None → region_of address regions ≡ Some region
        → number_at address s.endpoints s.identities ≡ region_number region s.identities }
    ensures before { (s t : State) (prefix : OnePrefix)
        → Contains (held_prefixes s.identities) prefix → Contains (regions_of s.identities t.identities) prefix }
    ensures after { (s t : State) (prefix : OnePrefix)
        → Contains (held_prefixes t.identities) prefix → Contains (regions_of s.identities t.identities) prefix }
{}

/// 0.0.0.0/0 and ::/0 are regions of each state that keeps what states keep, and so each address has a region, of its own family.
pub fn each_address_has_a_region()
    ensures worlds { (s : State) (family : OneFamily) → Keeps s → Contains (held_prefixes s.identities) (world family) }
    ensures region { (s t : State) (address : Addr) → Keeps s → IsAddr address
        → (region : OnePrefix) × (region_of address (regions_of s.identities t.identities) ≡ Some region)
        × (family_of region.addr ≡ family_of address) }
{}

/// A change that opens both halves on one port alone opens the connection on that port; one that opens a half alone opens none.
pub fn both_halves_count()
    ensures both { opened_below 3 (b_receives (tcp 3 3 ∷ [])) (b_receives (tcp 1 3 ∷ []))
        ≡ tcp_change a b 1 1 (halves Allowed DeniedByDefault) (halves Allowed Allowed) ∷ [] }
    ensures one { opened_below 3 (b_receives (tcp 3 3 ∷ [])) (b_receives (tcp 2 3 ∷ [])) ≡ [] }
{}

/// Where halves are told, a change of a half that opens nothing is told, with its words. What opens or shuts is told as before.
pub fn a_half_alone_is_told_where_halves_are()
    ensures one { turned_below 3 (b_receives (tcp 3 3 ∷ [])) (b_receives (tcp 2 3 ∷ []))
        ≡ tcp_turn a b 2 2 (halves DeniedByDefault DeniedByDefault) (halves DeniedByDefault Allowed) ∷ [] }
    ensures both { turned_below 3 (b_receives (tcp 3 3 ∷ [])) (b_receives (tcp 1 3 ∷ []))
        ≡ tcp_turn a b 1 1 (halves Allowed DeniedByDefault) (halves Allowed Allowed)
        ∷ tcp_turn a b 2 2 (halves DeniedByDefault DeniedByDefault) (halves DeniedByDefault Allowed)
        ∷ [] }
    ensures same { turned_below 3 (b_receives (tcp 1 3 ∷ [])) (b_receives (tcp 1 3 ∷ [])) ≡ [] }
{}

/// A deny within a range of ports that are allowed shuts its ports alone.
pub fn a_deny_within_a_range_shuts()
    ensures { opened_below 4 (b_receives_but []) (b_receives_but (refuses b (pods_of a) (tcp 1 2 ∷ []) ∷ []))
        ≡ tcp_change a b 1 2 (halves Allowed Allowed) (halves Allowed DeniedByRule) ∷ [] }
{}

/// Ends whose labels are alike are told each by its name.
pub fn ends_alike_are_told_by_name()
    ensures { opened_below 3 (alike (tcp 1 1 ∷ [])) (alike (tcp 1 2 ∷ [])) ≡ change (name.Identity (codes "x"))
        (name.Endpoint b) Tcp 2 2 (halves Allowed DeniedByDefault) (halves Allowed Allowed) ∷ change (name.Identity
        (codes "y")) (name.Endpoint b) Tcp 2 2 (halves Allowed DeniedByDefault) (halves Allowed Allowed) ∷ [] }
{}

/// A prefix that comes splits the region of its family's world: its addresses are told, and those of the rest and of the other
/// family aren't.
pub fn a_prefix_splits_a_region()
    ensures ipv4 { opened_below 1 (to_world []) (to_world_but net) ≡ change
        (name.Endpoint a) (name.Region net) Tcp 0 0 (halves Allowed Allowed) (halves DeniedByRule Allowed) ∷ [] }
    ensures ipv6 { opened_below 1 (to_world []) (to_world_but net6) ≡ change
        (name.Endpoint a) (name.Region net6) Tcp 0 0 (halves Allowed Allowed) (halves DeniedByRule Allowed) ∷ [] }
{}

/// Regions stand in the order of prefixes, IPv4 first. An address belongs to a region of its own family, whatever its bits.
pub fn regions_are_by_family()
    ensures worlds { held_prefixes (state_of ordinary []).identities ≡ world Ipv4 ∷ world Ipv6 ∷ [] }
    ensures order { regions_of (state_of ordinary (to_world_but net6)).identities
        (state_of ordinary (to_world_but net)).identities ≡ world Ipv4 ∷ net ∷ world Ipv6 ∷ net6 ∷ [] }
    ensures four { region_of (V4 167772161) (world Ipv4 ∷ world Ipv6 ∷ low6 ∷ []) ≡ Some (world Ipv4) }
    ensures six { region_of (V6 167772161) (world Ipv4 ∷ world Ipv6 ∷ low6 ∷ []) ≡ Some low6 }
{}

/// The world of one family is open beside that of the other: where a policy lets out to both in place of one, the other one opens.
pub fn worlds_open_by_family()
    ensures ipv6 { opened_below 1 (sends_out entity.WorldIpv4) (sends_out entity.World) ≡ change (name.Endpoint a)
        (name.Region (world Ipv6)) Tcp 0 0 (halves DeniedByDefault Allowed) (halves Allowed Allowed) ∷ [] }
    ensures ipv4 { opened_below 1 (sends_out entity.WorldIpv6) (sends_out entity.World) ≡ change (name.Endpoint a)
        (name.Region (world Ipv4)) Tcp 0 0 (halves DeniedByDefault Allowed) (halves Allowed Allowed) ∷ [] }
{}

/// The reserved identities of the cluster's own are ends. The local host comes in where nothing else does, unless the rules are to
/// decide on it too; and an endpoint without labels yet receives and sends nothing.
pub fn reserved_identities_are_ends()
    ensures own { map (λ row.
        row.number) (filter stands_alone (state_of ordinary []).identities) ≡ 1 ∷ 3 ∷ 4 ∷ 5 ∷ 6 ∷ 7 ∷ 8 ∷ [] }
    ensures localhost { halves_of ordinary (state_of ordinary closed) host (first_end closed) Tcp 1
        ≡ halves Allowed Allowed }
    ensures by_policy { halves_of by_policy (state_of by_policy closed) host (first_end closed) Tcp 1
        ≡ halves Allowed DeniedByDefault }
    ensures init { halves_of ordinary (state_of ordinary with_new) (first_end with_new) (second_end with_new) Tcp 1
        ≡ halves Allowed DeniedByDefault }
    ensures back { halves_of ordinary (state_of ordinary with_new) (second_end with_new) (first_end with_new) Tcp 1
        ≡ halves DeniedByDefault Allowed }
{}

/// Names that one state alone has are told, and no connection of theirs is.
pub fn names_on_one_side_are_told_alone()
    ensures comes { names_new (pod a 1 ∷ []) two_pods ≡ name.Endpoint b ∷ [] }
    ensures goes { names_new two_pods (pod a 1 ∷ []) ≡ [] }
    ensures none { opened_below 1 (pod a 1 ∷ []) (two_pods ++ refuses b (pods_of a) [] ∷ []) ≡ [] }
{}
