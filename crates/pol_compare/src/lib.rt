//! Two tables of policy maps in one text, compared by what they say.
//!
//! The text of a table, the line `--` and the text of another table: `compare` says whether the two tables say the same of
//! every packet, or names the least packet on which they differ, or the first line that is no table's.
#![tactic(auto)]

mod cut;
mod finding;
pub mod laws;
mod tables;
mod text;

pub use cut::parts_of;
pub use finding::Finding;
pub use tables::compare;
pub use text::finding_text;
