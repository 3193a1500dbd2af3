//! What a line of the script asks.

use pol_model::{Query, Request};

/// A line of the script that was read. Sessions are numbered from 1 to 8.
#[derive(Debug, Drop)]
pub enum Command {
    /// A request, to be committed.
    Commit { session: u8, request: Request },
    /// A verdict on a packet.
    Look { session: u8, query: Query },
    /// A verdict on a packet, and the reasons for it.
    Trace { session: u8, query: Query },
    /// Every live endpoint's map is brought up to date.
    Sync { session: u8 },
    /// The end of a phase: every line before it is answered before any line after it is begun.
    Phase,
}
