//! Laws of headings, over the definitions alone. Each function does nothing: its contract is the law.
ghost use Rattle.std.specs.Prelude.{◌≡◌, ◌+◌, ◌%◌, ◌<◌, ◌&&◌, ◌⊎◌, true, false, List, ℕ, [], ◌∷◌};
ghost use Rattle.std.specs.List.{list_any};
ghost use Rattle.std.specs.Option.{option_map_or};
ghost use Rattle.std.specs.Str.{bytes_eq};
ghost use Rattle.pol_addr.specs.declared.network.Prefix.{Prefix as OnePrefix};
ghost use Rattle.pol_addr.specs.Cidr.{IsPrefix};
ghost use Rattle.pol_addr.specs.Prefix.{covers};
ghost use Rattle.pol_headings.specs.declared.heading.Heading.{Heading as OneHeading};
ghost use Rattle.pol_headings.specs.declared.heading.Heading.TheVariants as heading;
ghost use Rattle.pol_headings.specs.Heading.{heading_of, same_heading, whole_octets};
ghost use Rattle.pol_headings.specs.Stands.{is_whole, stands_under};
ghost use Rattle.pol_labels.specs.declared.requirement.Requirement.{Requirement as OneRequirement};
ghost use Rattle.pol_labels.specs.declared.requirement.Operator.TheVariants.{OneOf as AsksOneOf};
ghost use Rattle.pol_model.specs.declared.row.IdentityRow.{IdentityRow as OneRow};
ghost use Rattle.pol_model.specs.Selects.{selects_row};
ghost use Rattle.pol_rule.specs.declared.policy.Entity.{Entity as OneEntity};
ghost use Rattle.pol_rule.specs.declared.policy.Entity.TheVariants as entity;
ghost use Rattle.pol_rule.specs.declared.policy.Peer.{Peer as OnePeer};
ghost use Rattle.pol_rule.specs.declared.policy.Peer.TheVariants as peer;

/// Headings are the same where they are equal.
pub fn equal_headings_are_the_same()
    ensures to { (a b : OneHeading) → same_heading a b ≡ true → a ≡ b }
    ensures from { (a : OneHeading) → same_heading a a ≡ true }
{}

/// An identity stands under a label exactly where it has one of the key and the value, and under a prefix exactly where it
/// has a prefix that lies in it.
pub fn headings_are_conditions()
    ensures label { (key value : List ℕ) (row : OneRow)
        → stands_under (heading.Label key value) row ≡ list_any (λ label.
        bytes_eq label.key key && bytes_eq label.value value) row.labels }
    ensures prefix { (p : OnePrefix) (row : OneRow)
        → stands_under (heading.Prefix p) row ≡ option_map_or (covers p) row.prefix false }
    ensures any { (row : OneRow) → stands_under heading.Any row ≡ true }
{}

/// Each identity that a peer selects stands under the peer's heading.
pub fn selected_identities_stand_under_the_heading()
    ensures { (p : OnePeer) (row : OneRow) → selects_row p row ≡ true → stands_under (heading_of p) row ≡ true }
{}

/// The heading of a peer is no prefix, or one of whole octets.
pub fn headings_of_peers_are_whole()
    ensures { (p : OnePeer) → is_whole (heading_of p) ≡ true }
{}

/// A selector whose first requirement asks for one value alone stands under the key and the value.
pub fn one_value_is_a_heading()
    ensures { (requirement : OneRequirement) (others : List OneRequirement) (value : List ℕ)
        → requirement.op ≡ AsksOneOf → requirement.values ≡ value ∷ []
        → heading_of (peer.Labels (requirement ∷ others)) ≡ heading.Label requirement.key value }
{}

/// A prefix stands under the longest prefix of whole octets in which it lies.
pub fn prefixes_stand_under_whole_octets()
    ensures octets { (p : OnePrefix) (except : List OnePrefix)
        → heading_of (peer.Cidr p except) ≡ heading.Prefix (whole_octets p) }
    ensures around { (p : OnePrefix) → IsPrefix p → covers (whole_octets p) p ≡ true }
    ensures whole { (p : OnePrefix) → (whole_octets p).len % 8 ≡ 0 }
    ensures longest { (p : OnePrefix) → p.len < (whole_octets p).len + 8 }
{}

/// All entities but three stand under a label.
pub fn entities_stand_under_labels()
    ensures { (e : OneEntity) → heading_of (peer.Entity e) ≡ heading.Any
        → (e ≡ entity.All) ⊎ (e ≡ entity.World) ⊎ (e ≡ entity.Cluster) }
{}
