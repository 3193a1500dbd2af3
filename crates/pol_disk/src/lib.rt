//! One file as a journal sees it: the bytes that a read gives, and those that a crash may leave.
//!
//! [`Disk`] is the trait, and its contract the model of a disk. [`MemDisk`] is a disk in memory that fails from a
//! chosen call on and can be made to crash.
#![tactic(auto)]

mod call;
mod disk;
pub mod laws;
mod mem_disk;
mod parts;

pub use call::DiskCall;
pub use disk::Disk;
pub use mem_disk::MemDisk;
pub use pol_streams::{Failed, Memory};
