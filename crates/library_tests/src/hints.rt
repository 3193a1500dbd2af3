//! What no clause says: that memory is there, that calls return, that each hint is worked on once, and that workers run at
//! the same time.
ghost use Rattle.std.specs.Prelude.{◌≡◌, true, Some, None, IfOk};

use pol_hints::{AnyEnd, Calls, Gate, HintPass, HintRound, Hints, HintsFull, Job, Over, work};
use std::alloc::{AllocError as Memory, Global};
use std::sync::Wait;
use std::sync::atomic::{AtomicBool, AtomicU32, Ordering};
use std::test::Fail;
use std::thread;
use std::thread::Threads;

// What the only pass of a queue is answered: a hint that is put is taken, and then there is none.
fn one_hint<R: Wait>(
    rt: &R,
    alloc: Global,
    slot: u32,
) -> Result<(bool, Option<u32>, Option<u32>), Memory>
    ensures { IfOk result (λ r. r ≡ (true, Some slot, None)) }
{
    let (hints, mut pass) = Hints::new(alloc, 1)?;
    let put = hints.put(rt, &mut pass, slot).is_ok();
    let first = hints.take(rt, &mut pass);
    let second = hints.take(rt, &mut pass);
    Ok((put, first, second))
}

#[test]
fn one_hint_comes_back(rt: HostRuntime) -> Result<(), Fail> {
    assert!(rt; one_hint(&rt, rt.alloc(), 5)? == (true, Some(5), None));
    Ok(())
}

#[test]
fn a_queue_fills_and_empties(rt: HostRuntime) -> Result<(), Fail> {
    let (hints, mut pass) = Hints::new(rt.alloc(), 1)?;
    assert!(rt; hints.put(&rt, &mut pass, 5).is_ok());
    assert!(rt; hints.put(&rt, &mut pass, 6) == Err(HintsFull));
    assert!(rt; hints.take(&rt, &mut pass) == Some(5));
    assert!(rt; hints.take(&rt, &mut pass).is_none());
    Ok(())
}

#[test]
fn joined_passes_take_in_order(rt: HostRuntime) -> Result<(), Fail> {
    let (hints, mut pass) = Hints::new(rt.alloc(), 2)?;
    let mut other = hints.split(&rt, &mut pass)?;
    assert!(rt; hints.put(&rt, &mut pass, 5).is_ok() && hints.put(&rt, &mut pass, 6).is_ok());
    assert!(rt; hints.take(&rt, &mut other) == Some(5));
    hints.join(&rt, &mut pass, other);
    assert!(rt; hints.take(&rt, &mut pass) == Some(6));
    Ok(())
}

#[test]
fn a_slot_without_room_is_the_first_one_next_time(rt: HostRuntime) -> Result<(), Fail> {
    let (hints, mut pass) = Hints::new(rt.alloc(), 2)?;
    let mut round = HintRound::new();
    round.hint(&rt, &hints, &mut pass, 3);
    assert!(rt; hints.take(&rt, &mut pass) == Some(0));
    assert!(rt; hints.take(&rt, &mut pass) == Some(1));
    round.hint(&rt, &hints, &mut pass, 3);
    assert!(rt; hints.take(&rt, &mut pass) == Some(2));
    assert!(rt; hints.take(&rt, &mut pass) == Some(0));
    assert!(rt; hints.take(&rt, &mut pass).is_none());
    Ok(())
}

// Writes down the numbers of the calls and the slots between them, a digit each. There is no memory for the slot 9.
#[derive(Drop)]
struct Digits {
    written: AtomicU32,
}

impl Digits {
    fn write(&self, digit: u32) {
        let so_far = self.written.load(Ordering::SeqCst);
        self.written.store(
            so_far.wrapping_mul(10).wrapping_add(digit),
            Ordering::SeqCst,
        );
    }
}

impl Job for Digits {
    ghost use Rattle.std.specs.Prelude.{⊤};

    ghost has_run = { λ job slot. ⊤ };

    fn run<R: Wait>(&self, _rt: &R, _alloc: Global, slot: u32) -> Result<(), Memory> {
        self.write(slot);
        if slot == 9 { Err(Memory) } else { Ok(()) }
    }
}

impl Gate for Digits {
    fn start<R: Wait>(&self, _rt: &R, _session: u32) {}

    fn enter<R: Wait>(&self, _rt: &R, call: u32) {
        self.write(call);
    }

    fn leave<R: Wait>(&self, _rt: &R, call: u32) {
        self.write(call);
    }
}

#[test]
fn a_worker_numbers_its_calls(rt: HostRuntime) -> Result<(), Fail> {
    let (hints, mut pass) = Hints::new(rt.alloc(), 4)?;
    assert!(rt; hints.put(&rt, &mut pass, 7).is_ok() && hints.put(&rt, &mut pass, 8).is_ok());
    assert!(rt; hints.put(&rt, &mut pass, 9).is_ok() && hints.put(&rt, &mut pass, 6).is_ok());
    let digits = Digits {
        written: AtomicU32::new(0),
    };
    let (calls, over) = (Calls::new(), Over::<AnyEnd>::new());
    over.set();
    let done = work(
        &rt,
        rt.alloc(),
        &hints,
        &mut pass,
        &digits,
        &digits,
        &calls,
        &over,
    );
    assert!(rt; done.is_err() && digits.written.load(Ordering::SeqCst) == 171_282_393);
    digits.written.store(0, Ordering::SeqCst);
    let done = work(
        &rt,
        rt.alloc(),
        &hints,
        &mut pass,
        &digits,
        &digits,
        &calls,
        &over,
    );
    assert!(rt; done.is_ok() && digits.written.load(Ordering::SeqCst) == 464);
    Ok(())
}

// How often each slot was worked on.
#[derive(Drop)]
struct Counts {
    counts: Vec<AtomicU32>,
}

impl Job for Counts {
    ghost use Rattle.std.specs.Prelude.{⊤};

    ghost has_run = { λ job slot. ⊤ };

    fn run<R: Wait>(&self, _rt: &R, _alloc: Global, slot: u32) -> Result<(), Memory> {
        if let Some(count) = self.counts.as_slice().get(slot as usize) {
            count.fetch_add(1, Ordering::SeqCst);
        }
        Ok(())
    }
}

// Holds the first call until the second has ended, for so many turns at most.
#[derive(Drop)]
struct FirstWaits {
    second_ended: AtomicBool,
    saw: AtomicBool,
}

impl Gate for FirstWaits {
    fn start<R: Wait>(&self, _rt: &R, _session: u32) {}

    fn enter<R: Wait>(&self, _rt: &R, call: u32) {
        if call != 1 {
            return;
        }
        for _ in 0..100_000_000u32 {
            if self.second_ended.load(Ordering::SeqCst) {
                self.saw.store(true, Ordering::SeqCst);
                return;
            }
            thread::yield_now();
        }
    }

    fn leave<R: Wait>(&self, _rt: &R, call: u32) {
        if call == 2 {
            self.second_ended.store(true, Ordering::SeqCst);
        }
    }
}

// What two threads that put and two that take share.
#[derive(Drop)]
struct Yard {
    hints: Hints,
    half: u32,
    counts: Counts,
    gate: FirstWaits,
    calls: Calls,
    over: Over<AnyEnd>,
}

impl Yard {
    // The threads 0 and 1 put half of the hints each, and the others take them.
    fn play<R: Wait>(&self, rt: &R, alloc: Global, mut pass: HintPass, thread: u32) -> bool
        requires { pass.queue ≡ self.now.hints.name }
    {
        if thread < 2 {
            self.put_half(rt, pass, thread);
            return true;
        }
        let Yard {
            hints,
            counts,
            gate,
            calls,
            over,
            ..
        } = self;
        work(rt, alloc, hints, &mut pass, counts, gate, calls, over).is_ok()
    }

    // Waits where the queue is full.
    fn put_half<R: Wait>(&self, rt: &R, mut pass: HintPass, thread: u32)
        requires { pass.queue ≡ self.now.hints.name }
    {
        let mut left = self.half;
        for _ in rt.forever() {
            if left == 0 {
                return;
            }
            let slot = self.half.wrapping_mul(thread).wrapping_add(left - 1);
            match self.hints.put(rt, &mut pass, slot) {
                Ok(()) => left -= 1,
                Err(HintsFull) => thread::yield_now(),
            }
        }
    }

    // Two threads next to each other. Behind those that put, the end is told.
    fn two<R: Threads + Wait + Sync>(
        &self,
        rt: &R,
        alloc: Global,
        one: HintPass,
        two: HintPass,
        thread: u32,
    ) -> bool
        requires one { one.queue ≡ self.now.hints.name }
        requires two { two.queue ≡ self.now.hints.name }
    {
        let (first, second) = thread::join(
            rt,
            move ||
                requires { one.queue ≡ self.now.hints.name }
            { self.play(rt, alloc, one, thread) },
            move ||
                requires { two.queue ≡ self.now.hints.name }
            { self.play(rt, alloc, two, thread.saturating_add(1)) },
        );
        if thread == 0 {
            self.over.set();
        }
        first && second
    }
}

// Twice so many hints, put by two threads and worked on by two workers, the first of which is held in its gate until the
// other has gone on.
fn is_each_worked_on_once<R: Threads + Wait + Sync>(
    rt: &R,
    alloc: Global,
    half: u32,
) -> Result<bool, Memory> {
    let mut counts = Vec::new(alloc);
    for _ in 0..half as u64 * 2 {
        counts.push(AtomicU32::new(0))?;
    }
    let (hints, mut pass) = Hints::new(alloc, 64)?;
    let one = hints.split(rt, &mut pass)?;
    let two = hints.split(rt, &mut pass)?;
    let three = hints.split(rt, &mut pass)?;
    let yard = Yard {
        hints,
        half,
        counts: Counts { counts },
        gate: FirstWaits {
            second_ended: AtomicBool::new(false),
            saw: AtomicBool::new(false),
        },
        calls: Calls::new(),
        over: Over::<AnyEnd>::new(),
    };
    let shared = &yard;
    let (put, taken) = thread::join(
        rt,
        move ||
            requires { (pass.queue ≡ shared.now.hints.name) × (one.queue ≡ shared.now.hints.name) }
        { shared.two(rt, alloc, pass, one, 0) },
        move ||
            requires { (two.queue ≡ shared.now.hints.name) × (three.queue ≡ shared.now.hints.name) }
        { shared.two(rt, alloc, two, three, 2) },
    );
    let once = yard
        .counts
        .counts
        .as_slice()
        .iter()
        .all(|count| count.load(Ordering::SeqCst) == 1);
    Ok(put && taken && once && yard.gate.saw.load(Ordering::SeqCst))
}

#[test]
fn each_hint_is_worked_on_once(rt: HostRuntime) -> Result<(), Fail> {
    assert!(rt; is_each_worked_on_once(&rt, rt.alloc(), 50_000)?);
    Ok(())
}
