//! Texts and lists that a contract sees as plain values, and copies of them that may fail.
//!
//! `Text` is a `String` that clauses read as the list of its bytes, and `Items<T>` is a `Vec<T>` that
//! clauses read as the list of its elements. So a record that holds them is seen as a record of lists,
//! which `≡` compares, and no clause speaks of capacities or pointers.
//! `Steps` is a count of steps for contracts alone.
//! Texts and lists are made from what they wrap and give it back, without taking memory.
#![tactic(auto)]

mod copy;
mod items;
pub mod laws;
mod steps;
mod text;

pub use copy::TryCopy;
pub use items::Items;
/// Want of memory: the kit's allocation error. It has one value, and nothing else is merged with it.
pub use std::alloc::AllocError as Memory;
pub use steps::Steps;
pub use text::Text;

/// A list of texts.
pub type Texts = Items<Text>;
