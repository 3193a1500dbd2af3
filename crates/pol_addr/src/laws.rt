//! Laws of the definitions: what their readers may rely on, beside the calls.
ghost use Rattle.std.specs.Prelude.{◌≡◌, ℕ, ◌↔◌, ◌⊎◌, List, Some, IsTrue};
ghost use Rattle.pol_addr.specs.Address.{Addr, IsAddr, family_of, read_addr};
ghost use Rattle.pol_addr.specs.Cidr.{IsPrefix};
ghost use Rattle.pol_addr.specs.Order.{prefix_cmp};
ghost use Rattle.pol_addr.specs.Prefix.{Prefix, contains, covers, read_prefix, world};
ghost use Rattle.pol_addr.specs.Grammar.{WritesAddr, WritesPrefix};
ghost use Rattle.pol_addr.specs.Text.{addr_text, prefix_text};

use crate::{Addr, Prefix};

/// A text is read as an address exactly where it writes that address.
pub fn address_texts_are_read()
    ensures { (text : List ℕ) (addr : Addr) → WritesAddr text addr ↔ (read_addr text ≡ Some addr) }
{}

/// A text writes at most one address.
pub fn one_address_per_text()
    ensures { (text : List ℕ) (a b : Addr) → WritesAddr text a → WritesAddr text b → a ≡ b }
{}

/// A text is read as a prefix exactly where it writes that prefix.
pub fn prefix_texts_are_read()
    ensures { (text : List ℕ) (p : Prefix) → WritesPrefix text p ↔ (read_prefix text ≡ Some p) }
{}

/// A text writes at most one prefix.
pub fn one_prefix_per_text()
    ensures { (text : List ℕ) (p q : Prefix) → WritesPrefix text p → WritesPrefix text q → p ≡ q }
{}

/// What is printed of an address, or of a prefix, is read as it.
pub fn printed_is_read()
    ensures addresses { (addr : Addr) → IsAddr addr → read_addr (addr_text addr) ≡ Some addr }
    ensures prefixes { (p : Prefix) → IsPrefix p → read_prefix (prefix_text p) ≡ Some p }
{}

/// What is read as a prefix has a length of at most 32, or 128, and no host bits.
pub fn read_prefixes_are_prefixes()
    ensures { (text : List ℕ) (p : Prefix) → read_prefix text ≡ Some p → IsPrefix p }
{}

/// A prefix covers another exactly where it contains each address of the other.
pub fn covers_is_containment()
    ensures { (p q : Prefix) → IsPrefix p → IsPrefix q →
        IsTrue (covers p q) ↔ ((addr : Addr) → IsAddr addr → IsTrue (contains q addr) → IsTrue (contains p addr)) }
{}

/// Prefixes that both contain an address are nested.
pub fn overlapping_prefixes_are_nested()
    ensures { (p q : Prefix) (addr : Addr) → IsTrue (contains p addr) → IsTrue (contains q addr) →
        IsTrue (covers p q) ⊎ IsTrue (covers q p) }
{}

/// A prefix contains addresses of its own family alone, and the prefix of length 0 of a family contains each of its addresses.
pub fn families_are_apart()
    ensures own { (p : Prefix) (addr : Addr) → IsTrue (contains p addr) → family_of addr ≡ family_of p.addr }
    ensures world { (addr : Addr) → IsAddr addr → IsTrue (contains (world (family_of addr)) addr) }
{}

/// `==` is true exactly where both are one value, so an address or a prefix may be the key of a table.
pub fn equality()
    ensures addresses { (a b : Addr) → IsTrue (⟦<Addr as PartialEq>⟧.eq a b) ↔ (a ≡ b) }
    ensures prefixes { (p q : Prefix) → IsTrue (⟦<Prefix as PartialEq>⟧.eq p q) ↔ (p ≡ q) }
{}

/// IPv4 prefixes stand before IPv6 prefixes, those of a family in the order of their addresses, the shorter first.
pub fn order_of_prefixes()
    ensures { (p q : Prefix) → ⟦<Prefix as Ord>⟧.cmp p q ≡ prefix_cmp p q }
{}
