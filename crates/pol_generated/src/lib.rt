//! What a generated script asks, line by line, and laws: that its lines are read so, that its requests are those of its
//! lines, and that each of them commits; that its policy maps are small, and that it has one run.
//!
//! The commands are defined in `specs/Asked`, beside the lines of `pol_gen`, and by the same draws. `Maps` says how many
//! entries a map has at most, `OneRun` what a run of the script is, and `HistoryOfRounds` what a history holds of it.
#![tactic(auto)]

pub mod laws;
