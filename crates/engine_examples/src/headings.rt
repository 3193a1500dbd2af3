//! Under what heading a peer's selector is filed.
ghost use Rattle.std.specs.Prelude.{◌≡◌, [], ◌∷◌, true, false, Some, codes, map};
ghost use Rattle.pol_addr.specs.Prefix.{world};
ghost use Rattle.pol_addr.specs.declared.family.Family.TheVariants.{Ipv4, Ipv6};
ghost use Rattle.pol_headings.specs.Heading.{heading_of};
ghost use Rattle.pol_headings.specs.Tried.{is_filed_as};
ghost use Rattle.pol_headings.specs.declared.heading.Heading.TheVariants as heading;
ghost use Rattle.pol_labels.specs.declared.requirement.Operator.TheVariants.{NoneOf};
ghost use Rattle.pol_model_laws.specs.Examples.{net, wide};
ghost use Rattle.pol_rule.specs.declared.policy.Entity.TheVariants as entity;
ghost use Rattle.pol_rule.specs.declared.policy.Peer.TheVariants as peer;
ghost use Rattle.engine_examples.specs.Peers.{app_a, app_a_or_b, cut, cut_ipv6, has_app, tier_x, with_operator};

/// A selector stands under the first of its requirements that asks for one value, wherever that stands, and under no label
/// where none does ('profile').
pub fn selectors_stand_under_one_value()
    ensures first { heading_of (peer.Labels (app_a ∷ tier_x ∷ [])) ≡ heading.Label (codes "app") (codes "a") }
    ensures behind_others { heading_of (peer.Labels (has_app ∷ app_a_or_b ∷ tier_x ∷ app_a ∷ []))
        ≡ heading.Label (codes "tier") (codes "x") }
    ensures behind_none_of { heading_of (peer.Labels (with_operator NoneOf app_a ∷ tier_x ∷ []))
        ≡ heading.Label (codes "tier") (codes "x") }
    ensures some_values { heading_of (peer.Labels (app_a_or_b ∷ [])) ≡ heading.Any }
    ensures a_key { heading_of (peer.Labels (has_app ∷ [])) ≡ heading.Any }
    ensures nothing { heading_of (peer.Labels []) ≡ heading.Any }
{}

/// A prefix stands under its whole octets, and an entity under the one reserved label that names it ('profile').
pub fn prefixes_and_entities_stand_under_theirs()
    ensures prefixes { map heading_of (peer.Cidr (cut 20) [] ∷ peer.Cidr (net 1) [] ∷ peer.Cidr (cut 15) (net 1 ∷ [])
        ∷ []) ≡ heading.Prefix (net 1) ∷ heading.Prefix (net 1) ∷ heading.Prefix wide ∷ [] }
    ensures ipv6_prefixes { map heading_of
        (peer.Cidr (cut_ipv6 52) [] ∷ peer.Cidr (cut_ipv6 48) [] ∷ peer.Cidr (cut_ipv6 47) [] ∷ [])
        ≡ heading.Prefix (cut_ipv6 48) ∷ heading.Prefix (cut_ipv6 48) ∷ heading.Prefix (cut_ipv6 40) ∷ [] }
    ensures entities { map (λ e. heading_of (peer.Entity e)) (entity.WorldIpv4 ∷ entity.WorldIpv6 ∷ entity.RemoteNode
        ∷ entity.Init ∷ []) ≡ heading.Label (codes "world-ipv4") [] ∷ heading.Label (codes "world-ipv6") []
        ∷ heading.Label (codes "remote-node") [] ∷ heading.Label (codes "init") [] ∷ [] }
    ensures others { map (λ e. heading_of (peer.Entity e)) (entity.All ∷ entity.World ∷ entity.Cluster ∷ [])
        ≡ heading.Any ∷ heading.Any ∷ heading.Any ∷ [] }
{}

/// An identity is filed under the prefixes of whole octets around its own, of its own family alone ('profile').
pub fn identities_are_filed_under_their_octets()
    ensures octets { map (λ len. is_filed_as [] (Some (cut_ipv6 48)) (heading.Prefix (cut_ipv6 len)))
        (0 ∷ 8 ∷ 12 ∷ 32 ∷ 40 ∷ 48 ∷ 56 ∷ []) ≡ true ∷ true ∷ false ∷ true ∷ true ∷ true ∷ false ∷ [] }
    ensures families { map (λ p. is_filed_as [] (Some p) (heading.Prefix (world Ipv6)))
        (cut_ipv6 48 ∷ net 1 ∷ world Ipv4 ∷ []) ≡ true ∷ false ∷ false ∷ [] }
    ensures of_ipv4 { map (λ p. is_filed_as [] (Some p) (heading.Prefix (world Ipv4)))
        (cut_ipv6 48 ∷ net 1 ∷ world Ipv6 ∷ []) ≡ false ∷ true ∷ false ∷ [] }
{}
