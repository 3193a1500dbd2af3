//! A list of requirements that are all to be met.
ghost use Rattle.std.specs.Prelude.{◌≡◌, ◌+◌, ◌↔◌, false, IsTrue, IfOk, IfErr, OnOk, IsErrOf};
ghost use Rattle.std.specs.Cmp.{partial_equiv_from_equiv};
ghost use Rattle.std.specs.Hash as fed;
ghost use Rattle.std.specs.Hash.{same_Alike};
ghost use Rattle.pol_labels.specs.declared.selector.SelectorError.TheVariants.{Bad};
ghost use Rattle.pol_labels.specs.Match.{matches};
ghost use Rattle.pol_labels.specs.Same.{same_requirements};
ghost use Rattle.pol_labels.specs.SameLaws.{same_requirements-equivalence, same_requirements-Decides};
ghost use Rattle.pol_labels.specs.WellFormed.{all_well_formed};

use crate::{LabelSet, Requirement};
use pol_data::{Items, Memory, Steps, TryCopy};
use std::alloc::Global;
use std::hash::{Hash, Hasher};
use std::marker::Model;
use std::sync::ledger::Ledger;
use thiserror::Error;

/// Why no selector was made.
#[derive(Debug, PartialEq, Eq, Drop, Error)]
pub enum SelectorError {
    /// A key is empty, or the values don't fit the operator.
    #[error("a key is empty, or values don't fit the operator")]
    Bad,
    /// Want of memory.
    #[error("out of memory")]
    Memory,
}

/// A list of requirements. A label set matches where it meets each of them, so the empty list matches all.
#[derive(Debug, Drop)]
pub struct Selector {
    requirements: Items<Requirement>,
}

impl Model for Selector {
    ghost use Rattle.std.specs.Prelude.{List, IsTrue};
    ghost use Rattle.pol_labels.specs.declared.requirement.Requirement.{Requirement};
    ghost use Rattle.pol_labels.specs.WellFormed.{all_well_formed};

    ghost Value = { List Requirement };

    ghost view = { λ selector. selector.requirements };

    ghost invariant = { λ selector. IsTrue (all_well_formed selector.requirements) };
}

impl Selector {
    /// The selector of these requirements.
    ///
    /// `Bad` comes exactly where a key is empty, or where the values don't fit the operator: `OneOf` and
    /// `NoneOf` need at least one, `Present` and `Absent` take none (Kubernetes, `LabelSelectorRequirement`).
    /// There is no other error: no memory is taken.
    pub fn from_requirements(
        _alloc: Global,
        list: Vec<Requirement>,
    ) -> Result<Selector, SelectorError>
        ensures selector { IfOk result (λ selector. selector ≡ list.items) }
        ensures well_formed { OnOk result (IsTrue (all_well_formed list.items)) }
        ensures bad { IsErrOf result SelectorError.Bad ↔ (all_well_formed list.items ≡ false) }
        ensures no_other { IfErr result (λ error. error ≡ Bad) }
    {
        if !are_well_formed(list.as_slice()) {
            return Err(SelectorError::Bad);
        }
        Ok(Selector {
            requirements: Items::from_vec(list),
        })
    }

    /// The requirements, in order.
    pub fn as_slice(&self) -> &[Requirement]
        ensures requirements { result.now ≡ self.now }
        ensures well_formed { IsTrue (all_well_formed self.now) }
    {
        self.requirements.as_slice()
    }

    /// Whether the labels match, as `is_met_by`. It is one step, and takes no memory.
    pub fn matches<L: Ledger>(&self, labels: &LabelSet, steps: &mut Steps<L>) -> bool
        ensures answer { result ≡ matches self.now labels.now }
        ensures cost { steps.new ≡ steps.old + 1 }
    {
        steps.tick();
        self.is_met_by(labels)
    }

    /// A selector equal to this one. The one error is want of memory.
    pub fn copy(&self, alloc: Global) -> Result<Selector, Memory>
        ensures equal { IfOk result (λ copy. copy ≡ self.now) }
    {
        Ok(Selector {
            requirements: self.requirements.copy(alloc)?,
        })
    }
}

impl TryCopy for Selector {
    fn try_copy(&self, alloc: Global) -> Result<Selector, Memory> {
        self.copy(alloc)
    }
}

/// Whether each requirement is well formed.
fn are_well_formed(requirements: &[Requirement]) -> bool
    ensures { result ≡ all_well_formed requirements.now }
{
    requirements
        .iter()
        .all(|requirement| requirement.is_well_formed())
}

/// Two selectors are equal where they have the same requirements in the same order.
impl PartialEq for Selector {
    ghost eq = { same_requirements };

    ghost laws = { partial_equiv_from_equiv same_requirements-equivalence };

    fn eq(&self, other: &Selector) -> bool {
        self.requirements == other.requirements
    }
}

impl Eq for Selector {
    ghost laws = { same_requirements-equivalence };
}

impl Hash for Selector {
    ghost hash_input = { fed.slice ⟦<Requirement as Hash>⟧.hash_input };

    ghost respects_eq = { (same_Alike _ same_requirements-Decides).fed };

    fn hash<H: Hasher>(&self, state: &mut H) {
        self.requirements.hash(state);
    }
}
