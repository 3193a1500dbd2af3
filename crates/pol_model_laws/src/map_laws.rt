//! Laws of policy maps, and of verdicts by address, each the contract of a function that does nothing.
ghost use Rattle.std.specs.Prelude.{◌≡◌, ◌↔◌, ◌∷◌, [], ◌<◌, ℕ, List, Some, codes, length};
ghost use Rattle.std.specs.List.{All, Contains};
ghost use Rattle.std.specs.List.Sorted.{IsStrictlySortedBy};
ghost use Rattle.pol_addr.specs.Address.{addr_of_octets};
ghost use Rattle.pol_ports.specs.PortPrefix.{prefix_at};
ghost use Rattle.pol_ports.specs.declared.Direction.TheVariants.{Ingress, Egress};
ghost use Rattle.pol_ports.specs.declared.Proto.TheVariants.{Tcp};
ghost use Rattle.pol_mapkey.specs.declared.MapKey.{MapKey};
ghost use Rattle.pol_mapkey.specs.declared.Kind.{Kind};
ghost use Rattle.pol_mapkey.specs.declared.Kind.TheVariants.{Allow, Deny};
ghost use Rattle.pol_mapkey.specs.declared.Word.TheVariants.{Allowed, DeniedByRule, DeniedByDefault};
ghost use Rattle.pol_mapkey.specs.MapKey.{key_cmp, every_key, port_key};
ghost use Rattle.pol_mapkey.specs.Entries.{Entry, EachKeyOnce};
ghost use Rattle.pol_rule.specs.declared.policy.Entity.TheVariants as entity;
ghost use Rattle.pol_rule.specs.declared.policy.Peer.{Peer};
ghost use Rattle.pol_model.specs.declared.options.Options.{Options as AllOptions};
ghost use Rattle.pol_model.specs.declared.row.Endpoint.{Endpoint as OneEndpoint};
ghost use Rattle.pol_model.specs.declared.request.Request.{Request as OneRequest};
ghost use Rattle.pol_model.specs.After.{state_of};
ghost use Rattle.pol_model.specs.State.{State};
ghost use Rattle.pol_model_laws.specs.MapFacts.{HasKey, IsUnderNoDeny, HaveSameEntries, AgreeOnParts};
ghost use Rattle.pol_model.specs.PolicyMap.{MapParts, raw_entries, canonical, policy_map, map_size};
ghost use Rattle.pol_model_laws.specs.WorkedMaps.{map_after, size_after, members_of, word_after, number_after, x_let_in, x_denied, x_let_in_again, all_let_in, two_let_in_widely, udp_80, sctp_80, net_without_part, net_of_denied_world, cluster_let_in};

/// The keys of a map ascend, in the order of keys, so that each stands once.
pub fn keys_of_a_map_ascend()
    ensures ascend { (raw : List Entry) → IsStrictlySortedBy (λ a b. key_cmp a.0 b.0) (canonical raw) }
    ensures once { (raw : List Entry) → EachKeyOnce (canonical raw) }
{}

/// A map has a key exactly where a raw entry has it, and no raw deny of the same direction and identity
/// covers it strictly.
pub fn which_keys_a_map_has()
    ensures { (raw : List Entry) (key : MapKey)
        → HasKey (canonical raw) key ↔ (HasKey raw key × IsUnderNoDeny raw key) }
{}

/// A key of a map is a deny exactly where some raw entry of it is one.
pub fn a_deny_wins()
    ensures { (raw : List Entry) (key : MapKey) (kind : Kind) → Contains (canonical raw) (key, kind)
        → (kind ≡ Deny) ↔ Contains raw (key, Deny) }
{}

/// Nothing in a map lies strictly under a deny of its direction and identity.
pub fn nothing_lies_under_a_deny()
    ensures { (raw : List Entry) (key : MapKey) → HasKey (canonical raw) key → IsUnderNoDeny (canonical raw) key }
{}

/// A map depends on which raw entries there are alone, not on their order or number.
pub fn a_map_is_of_the_raw_entries()
    ensures { (xs ys : List Entry) → HaveSameEntries xs ys → canonical xs ≡ canonical ys }
{}

/// A map depends on what the peers select that its entries list, and on no other peer.
pub fn a_map_is_of_its_peers_sets()
    ensures { (set other : Peer → List ℕ) (parts : MapParts) → AgreeOnParts set other parts
        → canonical (raw_entries set parts) ≡ canonical (raw_entries other parts) }
{}

/// In no state is the number 0 allocated, which stands for every identity in a map.
pub fn zero_is_no_identity()
    ensures { (options : AllOptions) (requests : List OneRequest)
        → All (λ row. 0 < row.number) (state_of options requests).identities }
{}

/// The size of a map is the number of its entries.
pub fn size_of_a_map()
    ensures { (options : AllOptions) (s : State) (endpoint : OneEndpoint)
        → map_size options s endpoint ≡ length (policy_map options s endpoint) }
{}

/// Maps written out: of an endpoint that one identity may reach on TCP port 80, then may not, and then may
/// again; of one that all may reach on that port, allocated or not; of one that a prefix may reach, which lies
/// in a denied world; and of one that may reach a prefix, but for a part of it.
pub fn maps_written_out()
    ensures let_in { map_after (codes "web") x_let_in ≡ Some ((every_key Ingress 1, Allow)
        ∷ (port_key Ingress 257 Tcp (prefix_at 80 16), Allow) ∷ (every_key Egress 0, Allow) ∷ []) }
    ensures denied { map_after (codes "web") x_denied
        ≡ Some ((every_key Ingress 1, Allow) ∷ (every_key Ingress 257, Deny) ∷ (every_key Egress 0, Allow) ∷ []) }
    ensures let_in_again { map_after (codes "web") x_let_in_again ≡ Some ((every_key Ingress 1, Allow)
        ∷ (port_key Ingress 257 Tcp (prefix_at 80 16), Allow) ∷ (every_key Egress 0, Allow) ∷ []) }
    ensures all { map_after (codes "web") all_let_in ≡ Some ((port_key Ingress 0 Tcp (prefix_at 80 16), Allow)
        ∷ (every_key Ingress 1, Allow) ∷ (every_key Egress 0, Allow) ∷ []) }
    ensures world { map_after (codes "web") net_of_denied_world
        ≡ Some ((every_key Ingress 1, Allow) ∷ (every_key Ingress 2, Deny) ∷ (every_key Ingress 9, Deny)
        ∷ (every_key Ingress 10, Deny) ∷ (every_key Ingress 16777217, Deny) ∷ (every_key Egress 0, Allow) ∷ []) }
    ensures net { map_after (codes "web") net_without_part
        ≡ Some ((every_key Ingress 0, Allow) ∷ (every_key Ingress 1, Allow) ∷ (every_key Egress 16777217, Allow) ∷ []) }
{}

/// Two identities on ports 1 to 65534 of three protocols have 90 entries each; beside them stand those of
/// TCP, UDP and then SCTP port 80 of everybody, of the local host and of the other direction.
pub fn sizes_written_out()
    ensures without { size_after (codes "web") (two_let_in_widely (udp_80 ∷ [])) ≡ Some 184 }
    ensures with_one_more { size_after (codes "web") (two_let_in_widely (udp_80 ∷ sctp_80 ∷ [])) ≡ Some 185 }
{}

/// Verdicts by address, where 10.0.0.0/8 without 10.1.0.0/16 is allowed: inside, in the part that is left
/// out, and outside. A deny of the world beats an allow of a prefix, while an endpoint isn't the world. And
/// where the cluster is allowed, an endpoint of identity 5 belongs to it, and what lies outside doesn't.
pub fn words_of_addresses()
    ensures inside { word_after (codes "web") net_without_part Egress (addr_of_octets 10 0 0 1) ≡ Some Allowed }
    ensures part { word_after (codes "web") net_without_part Egress (addr_of_octets 10 1 0 1) ≡ Some DeniedByDefault }
    ensures outside { word_after (codes "web") net_without_part Egress (addr_of_octets 11 0 0 1)
        ≡ Some DeniedByDefault }
    ensures denied { word_after (codes "web") net_of_denied_world Ingress (addr_of_octets 10 0 0 1)
        ≡ Some DeniedByRule }
    ensures endpoint { word_after (codes "web") net_of_denied_world Ingress (addr_of_octets 192 168 0 1)
        ≡ Some DeniedByDefault }
    ensures cluster_inside { word_after (codes "web") cluster_let_in Ingress (addr_of_octets 10 0 0 9) ≡ Some Allowed }
    ensures cluster_outside { word_after (codes "web") cluster_let_in Ingress (addr_of_octets 11 0 0 1)
        ≡ Some DeniedByDefault }
{}

/// An address has the number of its endpoint, else of the longest held prefix around it, else of the world of its family.
pub fn numbers_of_addresses()
    ensures endpoint { number_after net_without_part (addr_of_octets 192 168 0 1) ≡ 256 }
    ensures inside { number_after net_without_part (addr_of_octets 10 0 0 1) ≡ 16777217 }
    ensures longest { number_after net_without_part (addr_of_octets 10 1 0 1) ≡ 16777218 }
    ensures outside { number_after net_without_part (addr_of_octets 11 0 0 1) ≡ 9 }
{}

/// The members of entities among the reserved identities, 256 and 257, of which the latter alone has the
/// label of the cluster (Cilium, Network Policy, "Entities based").
pub fn members_of_entities()
    ensures all { members_of entity.All ≡ 1 ∷ 2 ∷ 3 ∷ 4 ∷ 5 ∷ 6 ∷ 7 ∷ 8 ∷ 9 ∷ 10 ∷ 256 ∷ 257 ∷ [] }
    ensures host { members_of entity.Host ≡ 1 ∷ [] }
    ensures world { members_of entity.World ≡ 2 ∷ 9 ∷ 10 ∷ [] }
    ensures world_ipv4 { members_of entity.WorldIpv4 ≡ 9 ∷ [] }
    ensures world_ipv6 { members_of entity.WorldIpv6 ≡ 10 ∷ [] }
    ensures unmanaged { members_of entity.Unmanaged ≡ 3 ∷ [] }
    ensures health { members_of entity.Health ≡ 4 ∷ [] }
    ensures init { members_of entity.Init ≡ 5 ∷ [] }
    ensures remote_node { members_of entity.RemoteNode ≡ 6 ∷ [] }
    ensures kube_apiserver { members_of entity.KubeApiserver ≡ 7 ∷ [] }
    ensures ingress { members_of entity.Ingress ≡ 8 ∷ [] }
    ensures cluster { members_of entity.Cluster ≡ 1 ∷ 3 ∷ 4 ∷ 5 ∷ 6 ∷ 7 ∷ 8 ∷ 257 ∷ [] }
{}
