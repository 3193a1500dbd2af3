//! IPv4 and IPv6 addresses and prefixes: their texts, and which addresses a prefix contains.
//!
//! `Addr` is an address of either family, and `Prefix` a block of addresses of one family that share their first bits (CIDR,
//! RFC 4632 and RFC 4291). Both are plain values: no call here takes memory.
#![tactic(auto)]

mod address;
mod bits;
pub mod examples;
mod family;
pub mod laws;
mod len_text;
mod network;
mod text;

pub use address::Addr;
pub use family::Family;
pub use network::Prefix;
