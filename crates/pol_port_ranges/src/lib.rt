//! What is said of the ports of a connection, as ranges of ports.
//!
//! Two functions that tell the same of each port have one list of ranges, and `ranges_of` makes it from what is said at the few
//! ports where that may change.
#![tactic(auto)]

pub mod laws;
mod ranges;
mod said;

pub use ranges::ranges_of;
pub use said::{Halves, PortSaid, Range};
