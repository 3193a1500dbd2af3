//! Laws of texts and lists. Each function does nothing: its contract is the law.
ghost use Rattle.std.specs.Prelude.{◌≡◌, ◌↔◌, ℕ, List, IsTrue};

use crate::{Items, Text};

/// `==` of texts is true exactly where they have the same bytes, so a text may be the key of a table.
pub fn text_equality()
    ensures { (a b : List ℕ) → IsTrue (⟦<Text as PartialEq>⟧.eq a b) ↔ (a ≡ b) }
{}

/// `==` of lists is true exactly where they are one list, if that of their elements is true exactly
/// where they are one value.
pub fn list_equality<T: PartialEq>()
    ensures { ((x y : T) → IsTrue (T.eq x y) ↔ (x ≡ y))
        → (a b : List T) → IsTrue (⟦<Items<T> as PartialEq>⟧.eq a b) ↔ (a ≡ b) }
{}
