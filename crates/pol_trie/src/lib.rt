//! The policy map that a look-up walks.
//!
//! For a direction and an identity the map keeps the kind of the key for every protocol, and for each protocol a binary
//! trie of port prefixes, whose nodes stand in a pool by index. A look-up goes down for the identity and for
//! identity 0.
#![tactic(auto)]

mod fit;
mod halves;
mod hints;
mod key_set;
pub mod laws;
mod links;
mod node;
mod ports;
mod put;
mod root;
mod take;
mod trie;
mod walk;

pub use trie::PolicyTrie;
