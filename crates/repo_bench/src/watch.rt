//! The time since the program began.

use std::rt::Clock;
use std::time::Instant;

/// A clock that was started.
#[derive(Clone, Copy)]
pub(crate) struct Watch {
    start: Instant,
}

impl Watch {
    pub(crate) fn since(start: Instant) -> Watch {
        Watch { start }
    }

    /// Nanoseconds since then, 0 where the clock gives no time.
    pub(crate) fn nanos<R: Clock>(&self, rt: &R) -> u128 {
        match self.start.elapsed(rt) {
            Ok(time) => time.as_nanos(),
            Err(_) => 0,
        }
    }
}
