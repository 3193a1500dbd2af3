//! What a history of a queue of hints consists of.

/// One step of a queue. No value of it is made: contracts speak of it.
pub enum Turn {
    /// A hint was put.
    Put(u32),
    /// A hint was taken.
    Taken(u32),
}
