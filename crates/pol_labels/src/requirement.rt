//! What a selector asks of a label set.
ghost use Rattle.std.specs.Prelude.{◌≡◌, IfOk, Ok};
ghost use Rattle.std.specs.List.{list_any};
ghost use Rattle.std.specs.Str.{bytes_eq};
ghost use Rattle.pol_labels.specs.WellFormed.{is_well_formed, takes_values};
ghost use Rattle.pol_labels.specs.Match.{candidate, meets, candidate_with_value};

use crate::Label;
use pol_data::{Memory, Text, Texts, TryCopy};
use std::alloc::Global;

/// The operators of Kubernetes' `matchExpressions`. A member of `matchLabels` is `OneOf` with one value.
#[derive(Clone, Copy, Debug, PartialEq, Eq, Hash)]
pub enum Operator {
    /// `In`: some candidate's value is listed.
    OneOf,
    /// `NotIn`: no candidate's value is listed, as where there is no candidate.
    NoneOf,
    /// `Exists`: there is a candidate.
    Present,
    /// `DoesNotExist`: there is no candidate.
    Absent,
}

impl Operator {
    /// The operator again. It takes no memory, and so has no error.
    pub fn copy(&self, _alloc: Global) -> Result<Operator, Memory>
        ensures { result ≡ Ok self.now }
    {
        Ok(*self)
    }

    /// Whether a requirement with this operator may list so many values.
    fn takes_values(self, count: usize) -> bool
        ensures { result ≡ takes_values self count }
    {
        match self {
            Operator::OneOf | Operator::NoneOf => count > 0,
            Operator::Present | Operator::Absent => count == 0,
        }
    }
}

/// One requirement on the labels of one key. Its candidates are the labels with that key and, unless
/// any source is meant, with that source.
#[derive(Debug, PartialEq, Eq, Hash, Drop)]
pub struct Requirement {
    /// Whether the source doesn't matter. The source is the empty text then.
    pub any_source: bool,
    /// The source of the labels meant.
    pub source: Text,
    /// The key of the labels meant.
    pub key: Text,
    /// What is asked of the candidates.
    pub op: Operator,
    /// The values listed: at least one for `OneOf` and `NoneOf`, none for the others.
    pub values: Texts,
}

impl Requirement {
    /// A requirement equal to this one. The one error is want of memory.
    pub fn copy(&self, alloc: Global) -> Result<Requirement, Memory>
        ensures equal { IfOk result (λ copy. copy ≡ self.now) }
    {
        Ok(Requirement {
            any_source: self.any_source,
            source: self.source.copy(alloc)?,
            key: self.key.copy(alloc)?,
            op: self.op,
            values: self.values.copy(alloc)?,
        })
    }

    /// Whether the requirement has a key, and values that fit its operator.
    pub(crate) fn is_well_formed(&self) -> bool
        ensures { result ≡ is_well_formed self.now }
    {
        !self.key.is_empty() && self.op.takes_values(self.values.len())
    }

    /// Whether the labels meet this requirement.
    pub(crate) fn is_met_by(&self, labels: &[Label]) -> bool
        ensures { result ≡ meets self.now labels.now }
    {
        match self.op {
            Operator::OneOf => self.has_listed_value(labels),
            Operator::NoneOf => !self.has_listed_value(labels),
            Operator::Present => self.has_candidate(labels),
            Operator::Absent => !self.has_candidate(labels),
        }
    }

    fn has_candidate(&self, labels: &[Label]) -> bool
        ensures { result ≡ list_any (candidate self.now) labels.now }
    {
        labels.iter().any(|label| self.is_candidate(label))
    }

    fn has_listed_value(&self, labels: &[Label]) -> bool
        ensures { result ≡ list_any (candidate_with_value self.now) labels.now }
    {
        labels.iter().any(|label| self.is_candidate(label) && self.lists(&label.value))
    }

    fn is_candidate(&self, label: &Label) -> bool
        ensures { result ≡ candidate self.now label.now }
    {
        self.key == label.key && (self.any_source || self.source == label.source)
    }

    fn lists(&self, value: &Text) -> bool
        ensures { result ≡ list_any (bytes_eq value.now) self.now.values }
    {
        self.values
            .as_slice()
            .iter()
            .any(|listed| *value == *listed)
    }
}

impl TryCopy for Operator {
    fn try_copy(&self, alloc: Global) -> Result<Operator, Memory> {
        self.copy(alloc)
    }
}

impl TryCopy for Requirement {
    fn try_copy(&self, alloc: Global) -> Result<Requirement, Memory> {
        self.copy(alloc)
    }
}
