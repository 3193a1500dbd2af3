//! Tests of the libraries, in one crate, so that each of those is proved once.
//!
//! Each call that may find no memory is made once with ample memory, and texts are read that the grammars were read
//! from. What a contract says is not tested again.
#![tactic(auto)]

#[cfg(test)]
mod addresses;
#[cfg(test)]
mod arena;
#[cfg(test)]
mod audits;
#[cfg(test)]
mod bell;
#[cfg(test)]
mod data;
#[cfg(test)]
mod held_prefixes;
#[cfg(test)]
mod hints;
#[cfg(test)]
mod labels;
#[cfg(test)]
mod policies;
#[cfg(test)]
mod ports;
#[cfg(test)]
mod prefix_table;
#[cfg(test)]
mod requests;
#[cfg(test)]
mod rows;
#[cfg(test)]
mod streams;
#[cfg(test)]
mod trie;
