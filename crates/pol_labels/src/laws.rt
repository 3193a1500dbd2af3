//! Laws of labels, label sets and requirements, over the definitions alone.
//! Each function does nothing: its contract is the law. A proof above cites one by calling it, or by the lemma that proves it.
ghost use Rattle.std.specs.Prelude.{◌≡◌, ◌↔◌, ℕ, true, false, not, List, length, filter, Some, None, IsTrue};
ghost use Rattle.std.specs.List.{Contains, list_any};
ghost use Rattle.pol_labels.specs.declared.label.Label.{Label};
ghost use Rattle.pol_labels.specs.declared.requirement.Requirement.{Requirement};
ghost use Rattle.pol_labels.specs.declared.requirement.Operator.{Operator};
ghost use Rattle.pol_labels.specs.declared.requirement.Operator.TheVariants.{OneOf, NoneOf, Present, Absent};
ghost use Rattle.pol_labels.specs.Grammar.{IsTextOf, IsSource, IsKey, IsValue, label_text};
ghost use Rattle.pol_labels.specs.Match.{has_key, meets};
ghost use Rattle.pol_labels.specs.Order.{label_order, IsLabelSet, ShareKeyAt, same_place, has_duplicate_key, label_set_of};
ghost use Rattle.pol_labels.specs.LabelText.{read_label};
ghost use Rattle.pol_labels.specs.Same.{same_label, same_labels, same_requirement, same_requirements};

use crate::{Label, LabelSet, Operator, Requirement, Selector};

/// What a text is read as, by the grammar: a text is read as a label exactly where it is a text of it,
/// it is a text of one label at most, and the printed text of a label whose parts allow it is read as it.
pub fn label_texts()
    ensures reading { (text : List ℕ) (label : Label) → (read_label text ≡ Some label) ↔ IsTextOf text label }
    ensures one_reading { (text : List ℕ) (a b : Label) → IsTextOf text a → IsTextOf text b → a ≡ b }
    ensures printed { (label : Label) → IsSource label.source → IsKey label.key → IsValue label.value
        → read_label (label_text label) ≡ Some label }
{}

/// What a label set is: two sets with the same labels are equal, the set of some labels is a set that has
/// exactly these, and there is none exactly where two of them share source and key.
pub fn label_sets()
    ensures members { (a b : List Label) → IsLabelSet a → IsLabelSet b
        → ((label : Label) → Contains a label ↔ Contains b label) → a ≡ b }
    ensures ordered { (labels set : List Label) → label_set_of labels ≡ Some set → IsLabelSet set }
    ensures made { (labels set : List Label) → label_set_of labels ≡ Some set
        → (label : Label) → Contains set label ↔ Contains labels label }
    ensures refused { (labels : List Label) → (label_set_of labels ≡ None) ↔ IsTrue (has_duplicate_key labels) }
    ensures duplicate { (labels : List Label)
        → IsTrue (has_duplicate_key labels) ↔ ((i : ℕ) × (j : ℕ) × ShareKeyAt labels i j) }
    ensures shared { (a b : Label) → IsTrue (same_place a b) ↔ ((a.source ≡ b.source) × (a.key ≡ b.key)) }
{}

/// What a requirement asks: `NoneOf` is the negation of `OneOf` and `Absent` that of `Present`, so both
/// hold where no label has the key, and the answer depends on nothing but the labels of the key.
pub fn requirements()
    ensures none_of { (requirement : Requirement) (labels : List Label)
        → meets (record requirement { op = NoneOf }) labels ≡ not (meets (record requirement { op = OneOf }) labels) }
    ensures absent { (requirement : Requirement) (labels : List Label)
        → meets (record requirement { op = Absent }) labels ≡ not (meets (record requirement { op = Present }) labels) }
    ensures none_of_no_key { (requirement : Requirement) (labels : List Label)
        → list_any (has_key requirement.key) labels ≡ false
        → IsTrue (meets (record requirement { op = NoneOf }) labels) }
    ensures absent_no_key { (requirement : Requirement) (labels : List Label)
        → list_any (has_key requirement.key) labels ≡ false
        → IsTrue (meets (record requirement { op = Absent }) labels) }
    ensures same_key { (requirement : Requirement) (a b : List Label)
        → filter (has_key requirement.key) a ≡ filter (has_key requirement.key) b
        → meets requirement a ≡ meets requirement b }
{}

/// The order of labels: by source, then key, then value, each by bytes.
pub fn order_of_labels()
    ensures { (a b : Label) → ⟦<Label as Ord>⟧.cmp a b ≡ label_order a b }
{}

/// The equality tests are true exactly where the two are the same.
pub fn equality_tests()
    ensures label { (a b : Label) → IsTrue (same_label a b) ↔ (a ≡ b) }
    ensures labels { (a b : List Label) → IsTrue (same_labels a b) ↔ (a ≡ b) }
    ensures requirement { (a b : Requirement) → IsTrue (same_requirement a b) ↔ (a ≡ b) }
    ensures requirements { (a b : List Requirement) → IsTrue (same_requirements a b) ↔ (a ≡ b) }
{}

/// `==` is true exactly where both are one value, so each of these types may be the key of a table.
pub fn equality()
    ensures label { (a b : Label) → IsTrue (⟦<Label as PartialEq>⟧.eq a b) ↔ (a ≡ b) }
    ensures set { (a b : List Label) → IsTrue (⟦<LabelSet as PartialEq>⟧.eq a b) ↔ (a ≡ b) }
    ensures operator { (a b : Operator) → IsTrue (⟦<Operator as PartialEq>⟧.eq a b) ↔ (a ≡ b) }
    ensures requirement { (a b : Requirement) → IsTrue (⟦<Requirement as PartialEq>⟧.eq a b) ↔ (a ≡ b) }
    ensures selector { (a b : List Requirement) → IsTrue (⟦<Selector as PartialEq>⟧.eq a b) ↔ (a ≡ b) }
{}
