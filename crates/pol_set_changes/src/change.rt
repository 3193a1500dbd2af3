//! A change of one selector's set.
use pol_sets::IdSet;

/// What one revision changed of the set of one selector.
#[derive(Debug, Drop)]
pub struct SetChange {
    /// The number of the selector.
    pub selector: u64,
    /// The revision that changed its set.
    pub revision: u64,
    /// The numbers that the set gained.
    pub gained: IdSet,
    /// The numbers that it lost.
    pub lost: IdSet,
}
