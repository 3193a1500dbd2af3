//! Label sets under places: found by the set, by the place, and by each of their labels.
//!
//! The places are those of `pol_interner`. Beside them stands a filing of the places under the heading of each label.
#![tactic(auto)]

mod filed;
mod sets;

pub use sets::LabelSets;
