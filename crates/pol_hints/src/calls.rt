//! What workers share beside their queue: the counter of calls, and the sign that no more hints come.
ghost use Rattle.std.specs.Prelude.{◌≡◌, true};

use std::marker::PhantomData;
use std::sync::atomic::{AtomicIn, AtomicU32, Ordering, Rule};

/// How many calls the workers began so far. After 4,294,967,295 calls the number stays there.
#[derive(Drop)]
pub struct Calls {
    count: AtomicU32,
}

impl Calls {
    /// No call yet. It takes no memory.
    pub fn new() -> Calls {
        Calls {
            count: AtomicU32::new(0),
        }
    }

    /// The number of the next call, from 1.
    pub(crate) fn next(&self) -> u32 {
        let more = |count: u32| count.checked_add(1);
        match self
            .count
            .fetch_update(Ordering::SeqCst, Ordering::SeqCst, more)
        {
            Ok(before) => before.saturating_add(1),
            Err(last) => last,
        }
    }
}

/// What is so once no more hints come.
pub trait End {
    /// No more hints come, as whoever tells it knows. Whoever waits for an end without knowing which can know it by the sign
    /// alone.
    ghost is_so: { Type 0 };
}

/// An end of which nothing is said.
pub struct AnyEnd;

impl End for AnyEnd {
    ghost use Rattle.std.specs.Prelude.{⊤};

    ghost is_so = { ⊤ };
}

// The sign is 0 until that is so.
struct Sign<E: End> {
    end: PhantomData<E>,
}

impl<E: End> Rule for Sign<E> {
    ghost use Rattle.std.specs.Prelude.{◌<◌};

    ghost invariant = { λ sign. 0 < sign → E.is_so };
}

/// Whether the last hint was put.
#[derive(Drop)]
pub struct Over<E: End> {
    sign: AtomicIn<Sign<E>>,
}

impl<E: End> Over<E> {
    /// Hints may still come. It takes no memory.
    pub fn new() -> Over<E> {
        Over {
            sign: AtomicIn::new(0),
        }
    }

    /// No more hints come.
    pub fn set(&self)
        requires { E.is_so }
    {
        self.sign.store(1, Ordering::SeqCst);
    }

    /// Whether it was set.
    pub fn is_set(&self) -> bool
        ensures { result ≡ true → E.is_so }
    {
        self.sign.load(Ordering::SeqCst) > 0
    }
}
