//! What a disk in memory keeps a record of.

use pol_data::Items;

/// A call that changed the bytes of a disk in memory, or what a crash may leave of them (profile).
#[derive(Debug, Drop)]
pub enum DiskCall {
    /// These bytes were written from this place on.
    Write { at: u64, bytes: Items<u8> },
    /// The bytes were cut to this length.
    Cut { len: u64 },
    /// All that was written is on the disk.
    Sync,
    /// The disk crashed, and kept all that was written or what a sync had put on it.
    Crash { keep: bool },
}
