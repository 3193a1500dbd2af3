//! Labels, label sets, requirements and selectors.
//!
//! A `Label` has a source, a key and a value. A `LabelSet` has at most one label of each source and
//! key. A `Selector` is a list of `Requirement`s, and matches a set that meets each of them.
//!
//! The definitions that contracts cite stand in `specs/`:
//! - `Match`: when a set meets a requirement and matches a selector;
//! - `Reading`: how a label is read from its text, and `Grammar`: what a label text is;
//! - `Order`: the order of labels, and which list is the set of some labels;
//! - `WellFormed`: which requirements a selector may have;
//! - `Same`: equality as a test.
//!
//! `laws` has what these mean, as functions whose contract is the law.
#![tactic(auto)]

mod carries;
mod label;
mod label_set;
pub mod laws;
mod requirement;
mod selector;

pub use label::{Label, LabelError};
pub use label_set::{LabelSet, SetError};
pub use requirement::{Operator, Requirement};
pub use selector::{Selector, SelectorError};
