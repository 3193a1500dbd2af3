//! A table from prefixes of both families to numbers, looked up by the longest prefix that contains an address.
//!
//! The table is a path-compressed binary trie for each family, whose nodes stand under keys in one list. A look-up starts at the
//! longest node over the address's first bits, which a second table keeps.
#![tactic(auto)]

mod bits;
mod family_table;
mod family_trie;
pub mod laws;
mod node;
mod nodes;
mod put;
mod slot;
mod start;
mod starts;
mod table;
mod take;
mod walk;

pub use table::PrefixTable;
