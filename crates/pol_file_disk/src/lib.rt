//! A file of the system as a disk.
//!
//! [`FileDisk`] makes each call of the trait by calls of the file, and by a disk in memory that stands beside it. [`open_file`] opens
//! one, and holds it against other processes.
#![tactic(auto)]

mod file_disk;
mod opening;

pub use file_disk::FileDisk;
pub use opening::{OpenFileError, open_file};
