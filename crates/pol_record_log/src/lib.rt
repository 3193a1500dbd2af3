//! Records behind gates on a disk: after a crash at any moment a record is whole or isn't there.
//!
//! A gate is a byte: 0 is closed and ends the log, and behind any other stand a length of four bytes, so many bytes of a line, and
//! the next gate. A record is written behind the last gate with a closed gate of its own, and counts once the last gate is opened,
//! by a write of its own after a sync.
#![tactic(auto)]

mod bytes;
pub mod laws;
mod steps;
mod synced;

pub use bytes::{read_record, write_record};
pub use steps::{append, start};
pub use synced::{ReadError, cut_synced, read_bytes, sync, write_synced};
