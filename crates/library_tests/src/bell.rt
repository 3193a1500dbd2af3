//! What no clause says: that a worker that sleeps wakes where it rings, and at the end.
ghost use Rattle.std.specs.Prelude.{◌≡◌};

use pol_hints::{AnyEnd, Calls, HintPass, Hints, Job, OpenGate, Over, work};
use std::alloc::{AllocError as Memory, Global};
use std::sync::Wait;
use std::sync::atomic::{AtomicU32, Ordering};
use std::test::Fail;
use std::thread;
use std::thread::Threads;

// How often the job was run.
#[derive(Drop)]
struct Count {
    runs: AtomicU32,
}

impl Job for Count {
    ghost use Rattle.std.specs.Prelude.{⊤};

    ghost has_run = { λ job slot. ⊤ };

    fn run<R: Wait>(&self, _rt: &R, _alloc: Global, _slot: u32) -> Result<(), Memory> {
        self.runs.fetch_add(1, Ordering::SeqCst);
        Ok(())
    }
}

impl Count {
    // Waits until it was run so often, for so many turns at most.
    fn comes_to(&self, runs: u32) -> bool {
        for _ in 0..100_000_000u32 {
            if self.runs.load(Ordering::SeqCst) == runs {
                return true;
            }
            thread::yield_now();
        }
        false
    }
}

// Puts so many hints, and rings behind each and waits until it was worked on. Then the end is told.
fn put_each<R: Wait>(
    rt: &R,
    hints: &Hints,
    mut pass: HintPass,
    count: &Count,
    over: &Over<AnyEnd>,
    many: u32,
) -> bool
    requires { pass.queue ≡ hints.now.name }
{
    let mut all = true;
    for slot in 0..many {
        let put = hints.put(rt, &mut pass, slot).is_ok();
        hints.ring();
        all = all && put && count.comes_to(slot + 1);
    }
    over.set();
    hints.ring_all();
    all
}

// A worker finds no hint for most of its time, and each that is rung for is worked on.
fn is_each_rung_for<R: Threads + Wait + Sync>(
    rt: &R,
    alloc: Global,
    many: u32,
) -> Result<bool, Memory> {
    let (hints, mut pass) = Hints::new(alloc, 1)?;
    let mut other = hints.split(rt, &mut pass)?;
    let count = Count {
        runs: AtomicU32::new(0),
    };
    let (calls, over) = (Calls::new(), Over::<AnyEnd>::new());
    hints.ring();
    let (shared, runs, end) = (&hints, &count, &over);
    let (worked, put) = thread::join(
        rt,
        move || -> Result<(), Memory>
            requires { other.queue ≡ shared.now.name }
        { work(rt, alloc, shared, &mut other, runs, &OpenGate, &calls, end) },
        move ||
            requires { pass.queue ≡ shared.now.name }
        { put_each(rt, shared, pass, runs, end, many) },
    );
    Ok(worked.is_ok() && put)
}

#[test]
fn a_worker_that_sleeps_wakes_where_it_rings(rt: HostRuntime) -> Result<(), Fail> {
    assert!(rt; is_each_rung_for(&rt, rt.alloc(), 1000)?);
    Ok(())
}
