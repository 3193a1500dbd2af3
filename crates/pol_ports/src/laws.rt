//! Laws of the definitions that contracts cite: what order the types have, and that prefixes nest.
ghost use Rattle.std.specs.Prelude.{◌≡◌, ℕ, ◌⊎◌, ◌↔◌, true, IsTrue};
ghost use Rattle.pol_ports.specs.Direction.{direction_cmp};
ghost use Rattle.pol_ports.specs.PortPrefix.{prefix_holds, prefix_contains, prefix_cmp};
ghost use Rattle.pol_ports.specs.declared.PortPrefix.{PortPrefix};

use crate::{Direction, PortPrefix, PortRange, Proto};
use std::cmp::Ordering;

/// The order of directions: ingress comes first.
pub fn order_of_directions(a: Direction, b: Direction) -> Ordering
    ensures { result ≡ direction_cmp a b }
{
    a.cmp(&b)
}

/// The order of prefixes: by `bits`, and then by `len`.
pub fn order_of_prefixes(a: PortPrefix, b: PortPrefix) -> Ordering
    ensures { result ≡ prefix_cmp a b }
{
    a.cmp(&b)
}

/// Two prefixes that have a port in common are nested.
pub fn prefixes_nest()
    ensures { (p q : PortPrefix) (port : ℕ) → prefix_holds p port ≡ true → prefix_holds q port ≡ true
        → (prefix_contains p q ≡ true) ⊎ (prefix_contains q p ≡ true) }
{}

/// A prefix contains another where it has each of its ports.
pub fn containing_is_of_ports()
    ensures { (p q : PortPrefix) → (prefix_contains p q ≡ true)
        ↔ ((port : ℕ) → prefix_holds q port ≡ true → prefix_holds p port ≡ true) }
{}

/// `==` is true exactly where both are one value, so each of these types may be the key of a table.
pub fn equality()
    ensures directions { (a b : Direction) → IsTrue (⟦<Direction as PartialEq>⟧.eq a b) ↔ (a ≡ b) }
    ensures protos { (a b : Proto) → IsTrue (⟦<Proto as PartialEq>⟧.eq a b) ↔ (a ≡ b) }
    ensures ranges { (a b : PortRange) → IsTrue (⟦<PortRange as PartialEq>⟧.eq a b) ↔ (a ≡ b) }
    ensures prefixes { (a b : PortPrefix) → IsTrue (⟦<PortPrefix as PartialEq>⟧.eq a b) ↔ (a ≡ b) }
{}
