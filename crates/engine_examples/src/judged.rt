//! Which identities are judged for a peer's new selector, and how many match steps each takes.
ghost use Rattle.std.specs.Prelude.{◌≡◌, [], ◌∷◌, codes, map};
ghost use Rattle.pol_addr.specs.Prefix.{world};
ghost use Rattle.pol_addr.specs.declared.family.Family.TheVariants.{Ipv4, Ipv6};
ghost use Rattle.pol_model_laws.specs.Examples.{net, wide};
ghost use Rattle.pol_headings.specs.declared.heading.Heading.TheVariants as heading;
ghost use Rattle.pol_rule.specs.declared.policy.Entity.TheVariants as entity;
ghost use Rattle.pol_rule.specs.declared.policy.Peer.TheVariants as peer;
ghost use Rattle.pol_selcache.specs.Held.{judged_under, rows_judged, steps_at, steps_of};
ghost use Rattle.engine_examples.specs.Peers.{app_a, cut, has_app, numbers_of, rows};

/// A label selector takes one step for each number that is held, and none for another; other peers take none ('profile').
pub fn steps_are_counted()
    ensures peers { map steps_of (peer.Labels (app_a ∷ []) ∷ peer.Labels []
        ∷ peer.Cidr (net 1) [] ∷ peer.Entity entity.All ∷ peer.Entity entity.World ∷ []) ≡ 1 ∷ 1 ∷ 0 ∷ 0 ∷ 0 ∷ [] }
    ensures held { map (steps_at rows (peer.Labels (app_a ∷ []))) (256 ∷ 257 ∷ 258 ∷ 16777218 ∷ [])
        ≡ 1 ∷ 1 ∷ 0 ∷ 1 ∷ [] }
    ensures of_prefixes { map (steps_at rows (peer.Cidr (net 1) [])) (256 ∷ 258 ∷ []) ≡ 0 ∷ 0 ∷ [] }
{}

/// For a selector of one value those with the label are judged; for a prefix those whose prefix lies in it, and no octets
/// around it; for a selector of no one value, for `all` and for `world`, each ('profile').
pub fn few_are_judged()
    ensures under { map judged_under (peer.Labels (app_a ∷ []) ∷ peer.Labels (has_app ∷ [])
        ∷ peer.Cidr (cut 20) [] ∷ peer.Entity entity.WorldIpv6 ∷ peer.Entity entity.World ∷ peer.Entity entity.All ∷ [])
        ≡ heading.Label (codes "app") (codes "a") ∷ heading.Any
        ∷ heading.Prefix (cut 20) ∷ heading.Label (codes "world-ipv6") [] ∷ heading.Any ∷ heading.Any ∷ [] }
    ensures one_value { numbers_of (rows_judged rows (peer.Labels (app_a ∷ []))) ≡ 256 ∷ [] }
    ensures no_one_value { numbers_of (rows_judged rows (peer.Labels (has_app ∷ []))) ≡ numbers_of rows }
    ensures prefix { numbers_of (rows_judged rows (peer.Cidr (net 1) [])) ≡ 16777217 ∷ [] }
    ensures wider { numbers_of (rows_judged rows (peer.Cidr wide (net 1 ∷ []))) ≡ 16777217 ∷ 16777218 ∷ [] }
    ensures part { numbers_of (rows_judged rows (peer.Cidr (cut 20) [])) ≡ [] }
    ensures of_a_family { map (λ f. numbers_of (rows_judged rows (peer.Cidr (world f) []))) (Ipv4 ∷ Ipv6 ∷ [])
        ≡ (9 ∷ 16777217 ∷ 16777218 ∷ []) ∷ (10 ∷ 16777219 ∷ []) ∷ [] }
    ensures worlds { map (λ e. numbers_of (rows_judged rows (peer.Entity e))) (entity.WorldIpv4 ∷ entity.WorldIpv6 ∷ [])
        ≡ (9 ∷ 16777217 ∷ 16777218 ∷ []) ∷ (10 ∷ 16777219 ∷ []) ∷ [] }
    ensures each { map (λ e. numbers_of (rows_judged rows (peer.Entity e))) (entity.World ∷ entity.All ∷ [])
        ≡ numbers_of rows ∷ numbers_of rows ∷ [] }
    ensures all { numbers_of rows ≡ 2 ∷ 9 ∷ 10 ∷ 256 ∷ 257 ∷ 16777217 ∷ 16777218 ∷ 16777219 ∷ [] }
{}
