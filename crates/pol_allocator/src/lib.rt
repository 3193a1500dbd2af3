//! The numbers that are held, with what follows from them: the sets of the selectors, which change as numbers come and
//! go.
//!
//! What a request takes, it takes before it gives anything up, and each call that takes something takes all memory:
//! `hold_labels`, `hold_prefixes`, `refer`, `plan_release`, `plan_prefixes`. What then carries it out or takes it back
//! takes none: `carry_out`, `release`, `release_prefixes`, `unrefer`.
#![tactic(auto)]

mod allocator;
mod hold;
pub mod laws;
mod moves;
mod peers;
mod plan;
mod prefixes;
mod release;
mod shared;

pub use allocator::Allocator;
pub use hold::LabelsHeld;
