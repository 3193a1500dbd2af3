//! Nodes kept by index.
//!
//! A `Pool<T>` keeps values under indices that it picks, with a free list that is used last in, first out.
//! A `Twin<T>` keeps nodes on chains and in one list by age, from which only the oldest goes.
#![tactic(auto)]

pub mod laws;
mod node;
mod pool;
mod slot;
mod twin;

pub use pool::Pool;
pub use twin::Twin;
