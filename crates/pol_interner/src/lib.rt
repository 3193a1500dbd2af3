//! Keys under places: each key has the least place that was free when it came, until its last holder goes.
//!
//! Keys are found by an index, and the least free place by a heap.
#![tactic(auto)]

mod interner;

pub use interner::Interner;
