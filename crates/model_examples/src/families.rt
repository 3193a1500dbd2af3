//! What addresses, prefixes and worlds of both families mean, beside one another.
ghost use Rattle.std.specs.Prelude.{◌≡◌, ◌∷◌, [], None, Some, codes};
ghost use Rattle.pol_addr.specs.Address.{addr_of_octets};
ghost use Rattle.pol_addr.specs.Prefix.{prefix_of, world};
ghost use Rattle.pol_addr.specs.declared.address.Addr.TheVariants.{V4, V6};
ghost use Rattle.pol_addr.specs.declared.family.Family.TheVariants.{Ipv4, Ipv6};
ghost use Rattle.pol_rule.specs.declared.policy.Entity.TheVariants as entity;
ghost use Rattle.pol_rule.specs.declared.policy.Peer.TheVariants.{Cidr, Entity as ByEntity};
ghost use Rattle.pol_mapkey.specs.declared.Word.TheVariants.{Allowed, DeniedByDefault, DeniedByRule};
ghost use Rattle.pol_model.specs.declared.options.Options.{Options as AllOptions};
ghost use Rattle.pol_model.specs.declared.request.Request.TheVariants.{AddEndpoint, Apply, Remove};
ghost use Rattle.pol_model.specs.After.{state_of};
ghost use Rattle.pol_model.specs.Fault.{fault_of};
ghost use Rattle.pol_model.specs.Identities.{number_released, reserved_identities};
ghost use Rattle.pol_model.specs.Remote.{numbered_prefixes};
ghost use Rattle.pol_model_laws.specs.Examples.{app, cidrs, key_of, lets_in, wide};
ghost use Rattle.model_examples.specs.Families.{
  all_but,
  db8,
  eleven,
  in_db8,
  in_db9,
  in_fd00,
  keeps_out,
  lets_peers_in,
  like_ten,
  like_wide,
  number_told,
  ten,
  told,
  told_alone,
  web_and,
  words_of_addresses,
  words_of_numbers,
};
ghost use Rattle.model_examples.specs.Policies.{numbers_told};

/// An address is that of its endpoint, else of the longest prefix around it, else of the world of its family, whose number
/// isn't that of the other. A peer by prefix selects the former two alone, and a deny of `world` beats it in both families.
pub fn addresses_have_their_worlds()
    ensures inside { (options : AllOptions) → told options
        (web_and (lets_peers_in (codes "p") (cidrs (db8 ∷ [])) ∷ [])) (in_db8 5) ≡ Some (Allowed, 16777217) }
    ensures endpoint { (options : AllOptions) → told options
        (web_and (lets_peers_in (codes "p") (cidrs (db8 ∷ [])) ∷ [])) (in_fd00 1) ≡ Some (DeniedByDefault, 256) }
    ensures ipv6 { (options : AllOptions) → told options
        (web_and (lets_peers_in (codes "p") (cidrs (db8 ∷ [])) ∷ [])) (in_db9 1) ≡ Some (DeniedByDefault, 10) }
    ensures ipv4 { (options : AllOptions)
        → told options (web_and (lets_peers_in (codes "p") (cidrs (db8 ∷ [])) ∷ [])) ten ≡ Some (DeniedByDefault, 9) }
    ensures denied { (options : AllOptions) → told options (web_and (lets_peers_in (codes "p") (cidrs (db8 ∷ []))
        ∷ keeps_out (codes "q") entity.World ∷ [])) (in_db8 5) ≡ Some (DeniedByRule, 16777217) }
    ensures denied_ipv6 { (options : AllOptions) → told options (web_and (lets_peers_in (codes "p") (cidrs (db8 ∷ []))
        ∷ keeps_out (codes "q") entity.World ∷ [])) (in_db9 1) ≡ Some (DeniedByRule, 10) }
    ensures denied_ipv4 { (options : AllOptions) → told options (web_and (lets_peers_in (codes "p") (cidrs (db8 ∷ []))
        ∷ keeps_out (codes "q") entity.World ∷ [])) ten ≡ Some (DeniedByRule, 9) }
    ensures not_the_endpoint { (options : AllOptions)
        → told options (web_and (lets_peers_in (codes "p") (cidrs (db8 ∷ []))
        ∷ keeps_out (codes "q") entity.World ∷ [])) (in_fd00 1) ≡ Some (DeniedByDefault, 256) }
{}

/// Where everybody is let in, a deny of an entity keeps out its members alone: `world-ipv4` leaves IPv6 as it was, and so the
/// other way round; `world` keeps both out, and what has the label `reserved:world`; none of the three is of `cluster`.
pub fn each_world_alone()
    ensures world { (options : AllOptions) → words_of_numbers options (all_but entity.World)
        ≡ Allowed ∷ DeniedByRule ∷ DeniedByRule ∷ DeniedByRule ∷ DeniedByRule ∷ DeniedByRule ∷ [] }
    ensures ipv4 { (options : AllOptions) → words_of_numbers options (all_but entity.WorldIpv4)
        ≡ Allowed ∷ Allowed ∷ DeniedByRule ∷ Allowed ∷ DeniedByRule ∷ Allowed ∷ [] }
    ensures ipv6 { (options : AllOptions) → words_of_numbers options (all_but entity.WorldIpv6)
        ≡ Allowed ∷ Allowed ∷ Allowed ∷ DeniedByRule ∷ Allowed ∷ DeniedByRule ∷ [] }
    ensures cluster { (options : AllOptions) → words_of_numbers options (all_but entity.Cluster)
        ≡ DeniedByRule ∷ Allowed ∷ Allowed ∷ Allowed ∷ Allowed ∷ Allowed ∷ [] }
{}

/// The same of addresses, judged without identity numbers: inside a prefix of each family, and outside of both.
pub fn each_world_alone_by_address()
    ensures world { (options : AllOptions) → words_of_addresses options (all_but entity.World)
        ≡ Some DeniedByRule ∷ Some DeniedByRule ∷ Some DeniedByRule ∷ Some DeniedByRule ∷ [] }
    ensures ipv4 { (options : AllOptions) → words_of_addresses options (all_but entity.WorldIpv4)
        ≡ Some DeniedByRule ∷ Some Allowed ∷ Some DeniedByRule ∷ Some Allowed ∷ [] }
    ensures ipv6 { (options : AllOptions) → words_of_addresses options (all_but entity.WorldIpv6)
        ≡ Some Allowed ∷ Some DeniedByRule ∷ Some Allowed ∷ Some DeniedByRule ∷ [] }
    ensures cluster { (options : AllOptions) → words_of_addresses options (all_but entity.Cluster)
        ≡ Some Allowed ∷ Some Allowed ∷ Some Allowed ∷ Some Allowed ∷ [] }
{}

/// A prefix of length 0 lets in the addresses of its family alone, and so does a prefix whose bits are those of one of the
/// other family. An exception takes an address out in its own family.
pub fn prefixes_are_of_one_family()
    ensures ipv4 { (options : AllOptions)
        → words_of_addresses options (web_and (lets_peers_in (codes "p") (cidrs (world Ipv4 ∷ [])) ∷ []))
        ≡ Some Allowed ∷ Some DeniedByDefault ∷ Some Allowed ∷ Some DeniedByDefault ∷ [] }
    ensures ipv6 { (options : AllOptions)
        → words_of_addresses options (web_and (lets_peers_in (codes "p") (cidrs (world Ipv6 ∷ [])) ∷ []))
        ≡ Some DeniedByDefault ∷ Some Allowed ∷ Some DeniedByDefault ∷ Some Allowed ∷ [] }
    ensures number_ipv4 { (options : AllOptions) → told options
        (web_and (lets_peers_in (codes "p") (cidrs (world Ipv4 ∷ [])) ∷ [])) (in_db9 1) ≡ Some (DeniedByDefault, 10) }
    ensures number_ipv6 { (options : AllOptions) → told options
        (web_and (lets_peers_in (codes "p") (cidrs (world Ipv6 ∷ [])) ∷ [])) eleven ≡ Some (DeniedByDefault, 9) }
    ensures same_bits { (options : AllOptions) → told_alone options
        (web_and (lets_peers_in (codes "p") (cidrs (like_wide ∷ [])) ∷ [])) ten ≡ Some DeniedByDefault }
    ensures same_bits_of_ipv4 { (options : AllOptions) → told_alone options
        (web_and (lets_peers_in (codes "p") (cidrs (wide ∷ [])) ∷ [])) like_ten ≡ Some DeniedByDefault }
    ensures own_bits { (options : AllOptions) → told options
        (web_and (lets_peers_in (codes "p") (cidrs (like_wide ∷ [])) ∷ [])) like_ten ≡ Some (Allowed, 16777217) }
    ensures without_a_part { (options : AllOptions)
        → told options (web_and (lets_peers_in (codes "p") (Cidr (world Ipv6) (db8 ∷ []) ∷ []) ∷ [])) (in_db8 5)
        ≡ Some (DeniedByDefault, 16777217) }
    ensures beside_the_part { (options : AllOptions) → told options
        (web_and (lets_peers_in (codes "p") (Cidr (world Ipv6) (db8 ∷ []) ∷ []) ∷ [])) (in_db9 1) ≡ Some (Allowed, 10) }
{}

/// The prefixes of length 0 are those of identities 9 and 10, which are the only reserved ones with a prefix: they take no
/// number, and no release takes a holder of theirs. Prefixes and addresses of the same bits are two where the families are.
pub fn worlds_have_their_prefixes()
    ensures prefixes { numbered_prefixes reserved_identities ≡ (world Ipv4, 9) ∷ (world Ipv6, 10) ∷ [] }
    ensures no_number { (options : AllOptions)
        → numbers_told options (lets_in (codes "p") (world Ipv4 ∷ db8 ∷ world Ipv6 ∷ [])) ≡ (db8, 16777217) ∷ [] }
    ensures removed { (options : AllOptions)
        → (state_of options (Apply (lets_in (codes "p") (world Ipv4 ∷ db8 ∷ world Ipv6 ∷ []))
        ∷ Remove (key_of (codes "p")) ∷ [])).identities ≡ reserved_identities }
    ensures ipv4_released { number_released (Some 9) reserved_identities ≡ reserved_identities }
    ensures ipv6_released { number_released (Some 10) reserved_identities ≡ reserved_identities }
    ensures two_numbers { (options : AllOptions)
        → numbers_told options (lets_in (codes "p") (prefix_of (V4 0) 8 ∷ prefix_of (V6 0) 8 ∷ []))
        ≡ (prefix_of (V4 0) 8, 16777217) ∷ (prefix_of (V6 0) 8, 16777218) ∷ [] }
    ensures two_addresses { (options : AllOptions)
        → fault_of (state_of options (AddEndpoint (codes "a") (app (codes "a")) (V4 7) ∷ []))
        (AddEndpoint (codes "b") (app (codes "b")) (V6 7)) ≡ None }
    ensures endpoint { (options : AllOptions)
        → number_told options (AddEndpoint (codes "a") (app (codes "a")) (V4 7) ∷ []) (V4 7) ≡ 256 }
    ensures other_address { (options : AllOptions)
        → number_told options (AddEndpoint (codes "a") (app (codes "a")) (V4 7) ∷ []) (V6 7) ≡ 10 }
{}
