//! A set of labels.
ghost use Rattle.std.specs.Prelude.{◌≡◌, ◌↔◌, true, false, length, IsTrue, IfErr, IfOk, OnOk, IsErrOf, Some};
ghost use Rattle.std.specs.Bool.{OnTrue, OnFalse};
ghost use Rattle.std.specs.Cmp.{partial_equiv_from_equiv};
ghost use Rattle.std.specs.Hash as fed;
ghost use Rattle.std.specs.Hash.{same_Alike};
ghost use Rattle.pol_labels.specs.declared.label_set.SetError.TheVariants.{Memory as WantOfMemory};
ghost use Rattle.pol_labels.specs.Same.{same_labels};
ghost use Rattle.pol_labels.specs.SameLaws.{same_labels-equivalence, same_labels-Decides};
ghost use Rattle.pol_labels.specs.Order.{IsLabelSet, NeighboursAreApart, has_duplicate_key, label_set_of};

use crate::Label;
use pol_data::{Items, Memory, TryCopy};
use std::alloc::Global;
use std::hash::{Hash, Hasher};
use std::marker::Model;
use std::sync::Arc;
use thiserror::Error;

/// Why no label set was made.
#[derive(Debug, PartialEq, Eq, Drop, Error)]
pub enum SetError {
    /// Two of the labels share source and key.
    #[error("two labels share source and key")]
    DuplicateKey,
    /// Want of memory.
    #[error("out of memory")]
    Memory,
}

/// A set of labels with at most one label of each source and key (profile).
/// A contract sees it as the list of its labels, in the order of source, then key, each by bytes.
/// So two sets with the same labels are equal.
#[derive(Debug, Drop)]
pub struct LabelSet {
    labels: Arc<Items<Label>>,
}

impl Model for LabelSet {
    ghost use Rattle.std.specs.Prelude.{List};
    ghost use Rattle.std.specs.Arc.{arc_value};
    ghost use Rattle.pol_labels.specs.declared.label.Label.{Label};
    ghost use Rattle.pol_labels.specs.Order.{IsLabelSet};

    ghost Value = { List Label };

    ghost view = { λ set. arc_value set.labels };

    ghost invariant = { λ set. IsLabelSet (arc_value set.labels) };
}

impl LabelSet {
    /// The set of these labels, whatever their order.
    ///
    /// `DuplicateKey` comes exactly where two of them share source and key, also where it is one label
    /// twice. `Memory` is want of memory.
    pub fn from_labels(alloc: Global, labels: Vec<Label>) -> Result<LabelSet, SetError>
        ensures set { IfOk result (λ set. label_set_of labels.items ≡ Some set) }
        ensures distinct { OnOk result (has_duplicate_key labels.items ≡ false) }
        ensures duplicate { IsErrOf result SetError.DuplicateKey → IsTrue (has_duplicate_key labels.items) }
    {
        let mut labels = labels;
        if labels.as_mut_slice().sort(alloc).is_err() {
            return Err(SetError::Memory);
        }
        if has_equal_neighbours(labels.as_slice()) {
            return Err(SetError::DuplicateKey);
        }
        shared(alloc, labels)
    }

    /// The labels, in the order of source, then key.
    pub fn as_slice(&self) -> &[Label]
        ensures labels { result.now ≡ self.now }
        ensures ordered { IsLabelSet self.now }
    {
        self.labels.as_slice()
    }

    /// A set equal to this one, which has the same labels in memory. It takes none of the allocator's: the one error is that
    /// so many copies of it stand that they can't be counted.
    pub fn copy(&self, _alloc: Global) -> Result<LabelSet, Memory>
        ensures equal { IfOk result (λ copy. copy ≡ self.now) }
    {
        Ok(LabelSet {
            labels: Arc::try_clone(&self.labels)?,
        })
    }

    /// How many labels the set has.
    pub fn len(&self) -> usize
        ensures { result ≡ length self.now }
    {
        self.labels.len()
    }

    /// Whether the set has no label.
    pub fn is_empty(&self) -> bool
        ensures { IsTrue result ↔ (length self.now ≡ 0) }
    {
        self.labels.is_empty()
    }
}

impl TryCopy for LabelSet {
    fn try_copy(&self, alloc: Global) -> Result<LabelSet, Memory> {
        self.copy(alloc)
    }
}

/// The set of these labels, which are in order.
fn shared(alloc: Global, labels: Vec<Label>) -> Result<LabelSet, SetError>
    requires { IsLabelSet labels.items }
    ensures set { IfOk result (λ set. set ≡ labels.items) }
    ensures memory { IfErr result (λ error. error ≡ WantOfMemory) }
{
    match Arc::new(alloc, Items::from_vec(labels)) {
        Ok(labels) => Ok(LabelSet { labels }),
        Err(_) => Err(SetError::Memory),
    }
}

/// Whether a label and the one after it share source and key.
fn has_equal_neighbours(labels: &[Label]) -> bool
    ensures apart { OnFalse result (NeighboursAreApart labels.now) }
    ensures found { OnTrue result (has_duplicate_key labels.now ≡ true) }
{
    for i in 1..labels.len() {
        if labels[i - 1].shares_place(&labels[i]) {
            return true;
        }
    }
    false
}

/// Two sets are equal where they have the same labels.
impl PartialEq for LabelSet {
    ghost eq = { same_labels };

    ghost laws = { partial_equiv_from_equiv same_labels-equivalence };

    fn eq(&self, other: &LabelSet) -> bool {
        self.labels.as_slice() == other.labels.as_slice()
    }
}

impl Eq for LabelSet {
    ghost laws = { same_labels-equivalence };
}

impl Hash for LabelSet {
    ghost hash_input = { fed.slice ⟦<Label as Hash>⟧.hash_input };

    ghost respects_eq = { (same_Alike _ same_labels-Decides).fed };

    fn hash<H: Hasher>(&self, state: &mut H) {
        self.labels.as_slice().hash(state);
    }
}
