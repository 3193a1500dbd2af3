//! Laws of keys and of reading a map.
ghost use Rattle.std.specs.Prelude.{◌≡◌, ℕ, ◌⊎◌, ◌↔◌, true, IsTrue, List, MatchOption};
ghost use Rattle.std.specs.List.{All, Contains};
ghost use Rattle.pol_ports.specs.declared.Direction.{Direction};
ghost use Rattle.pol_ports.specs.declared.Proto.{Proto};
ghost use Rattle.pol_mapkey.specs.declared.MapKey.{MapKey};
ghost use Rattle.pol_mapkey.specs.MapKey.{covers, covers_packet, key_cmp, same_key};
ghost use Rattle.pol_mapkey.specs.Entries.{Entry, reaches, longest, read_map, EachKeyOnce};

use crate::MapKey;
use std::cmp::Ordering;

/// The order of keys: by direction, with ingress first, identity, protocol, and port prefix.
pub fn order_of_keys(a: &MapKey, b: &MapKey) -> Ordering
    ensures { result ≡ key_cmp a.now b.now }
{
    a.cmp(b)
}

/// `==` and the test of sameness are true exactly where both are one key, so a key may be the key of a table.
pub fn equality()
    ensures keys { (a b : MapKey) → IsTrue (⟦<MapKey as PartialEq>⟧.eq a b) ↔ (a ≡ b) }
    ensures test { (a b : MapKey) → IsTrue (same_key a b) ↔ (a ≡ b) }
{}

/// Covering is a partial order.
pub fn covers_is_a_partial_order()
    ensures reflexive { (a : MapKey) → covers a a ≡ true }
    ensures antisymmetric { (a b : MapKey) → covers a b ≡ true → covers b a ≡ true → a ≡ b }
    ensures transitive { (a b c : MapKey) → covers a b ≡ true → covers b c ≡ true → covers a c ≡ true }
{}

/// A key covers another of its identity exactly where it covers each packet that the other covers.
pub fn covers_is_of_packets()
    ensures { (a b : MapKey) → (covers a b ≡ true) ↔ ((a.id ≡ b.id) × ((dir : Direction) (proto : Proto) (port : ℕ)
        → covers_packet b dir proto port ≡ true → covers_packet a dir proto port ≡ true)) }
{}

/// The keys of one identity that cover a packet form a chain: of each two, one covers the other.
pub fn keys_of_a_packet_form_a_chain()
    ensures { (a b : MapKey) (dir : Direction) (proto : Proto) (port : ℕ)
        → a.id ≡ b.id → covers_packet a dir proto port ≡ true
        → covers_packet b dir proto port ≡ true → (covers a b ≡ true) ⊎ (covers b a ≡ true) }
{}

/// So wherever a key of the identity covers the packet, there is a longest, which all the others
/// cover.
pub fn there_is_a_longest()
    ensures { (entries : List Entry) (dir : Direction) (id : ℕ) (proto : Proto) (port : ℕ)
        → MatchOption (longest entries dir id proto port) (All (λ e.
        reaches dir id proto port e ≡ true → ⊥) entries) (λ e. Contains entries e × (reaches dir id proto port e ≡ true)
        × All (λ f. reaches dir id proto port f ≡ true → covers f.0 e.0 ≡ true) entries) }
{}

/// What a map says doesn't depend on the order of its entries, where each key stands once.
pub fn reading_is_of_the_entries()
    ensures { (xs ys : List Entry) (dir : Direction) (id : ℕ) (proto : Proto) (port : ℕ) → EachKeyOnce xs → ((e : Entry)
        → Contains xs e ↔ Contains ys e) → read_map xs dir id proto port ≡ read_map ys dir id proto port }
{}
