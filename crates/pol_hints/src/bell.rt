//! How workers that found no hint sleep until there may be some.
use std::sync::Wait;
use std::sync::atomic::{AtomicU64, Ordering};
use std::thread;

/// Whoever rests sleeps until it rings again.
#[derive(Drop)]
pub(crate) struct Bell {
    // How often it rang.
    rung: AtomicU64,
    // How often it had rung when one went to sleep last.
    through: AtomicU64,
}

impl Bell {
    /// It never rang. It takes no memory.
    pub(crate) fn new() -> Bell {
        Bell {
            rung: AtomicU64::new(0),
            through: AtomicU64::new(0),
        }
    }

    /// How often it rang.
    pub(crate) fn rung(&self) -> u64 {
        self.rung.load(Ordering::SeqCst)
    }

    /// Rings: one who sleeps looks again, where one went to sleep since the ring before. (Else those who are at work look.)
    pub(crate) fn ring(&self) {
        let before = self.rung.fetch_add(1, Ordering::SeqCst);
        if self.through.load(Ordering::SeqCst) >= before {
            self.rung.wake_one();
        }
    }

    /// Rings so that all who sleep look again.
    pub(crate) fn ring_all(&self) {
        self.rung.fetch_add(1, Ordering::SeqCst);
        self.rung.wake_all();
    }

    /// Sleeps until it rings once more than was heard, or for no reason. Where it never rang it yields the processor alone.
    pub(crate) fn rest<R: Wait>(&self, rt: &R, heard: u64) {
        if heard == 0 {
            thread::yield_now();
        } else {
            self.through.store(heard, Ordering::SeqCst);
            self.rung.park(rt, low_half(heard));
        }
    }
}

// The 32 bits that a thread sleeps on.
fn low_half(number: u64) -> u32 {
    (number % 0x1_0000_0000) as u32
}
