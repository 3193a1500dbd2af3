//! The auditor of policy maps: whether two tables of entries say the same of every packet, the least packet on which they
//! differ, the whole difference as ranges of packets, and tables as texts.
//!
//! Tables are compared by what they say, not entry by entry: an entry that another one outweighs makes no difference. What
//! a table says is profile (how the keys of two identities are weighed).
#![tactic(auto)]

mod compare;
mod cuts;
mod difference;
mod directions;
mod entries;
mod error;
mod first;
mod group;
mod in_order;
mod kinds;
pub mod laws;
mod line;
mod numbers;
mod packet;
mod ranges;
mod read;
mod segment;
mod text;
mod words;

pub use compare::audit;
pub use difference::{Difference, Differences, Numbers};
pub use directions::differences;
pub use entries::Entries;
pub use error::TableError;
pub use packet::{Audit, Packet};
pub use read::read_table;
pub use text::table_text;
