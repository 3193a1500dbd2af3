//! What no clause says: that sessions run at the same time, and workers, that a session that is held holds no other, and that
//! a worker that stalls changes no answer.
use super::play::play_gated;
use super::status::Status;
use super::tests::{ANSWERS, SCRIPT};
use pol_hints::Gate;
use pol_streams::{MemSink, MemSource};
use std::alloc::{AllocError as Memory, Global};
use std::sync::Wait;
use std::sync::atomic::{AtomicBool, AtomicU32, Ordering};
use std::test::Fail;
use std::thread;
use std::thread::Threads;

/// How often a gate looks before it lets go.
const TURNS: u32 = 100_000_000;

const TWO_SESSIONS: &[u8] =
    b"{\"op\":\"endpoint\",\"name\":\"a\",\"labels\":[\"k8s:a=1\"],\"address\":\"10.0.0.1\"}\n\
{\"op\":\"endpoint\",\"name\":\"b\",\"labels\":[\"k8s:b=1\"],\"address\":\"10.0.0.2\",\"session\":2}\n\
";

const ONE_SESSION: &[u8] =
    b"{\"op\":\"endpoint\",\"name\":\"a\",\"labels\":[\"k8s:a=1\"],\"address\":\"10.0.0.1\"}\n\
{\"op\":\"endpoint\",\"name\":\"b\",\"labels\":[\"k8s:b=1\"],\"address\":\"10.0.0.2\"}\n\
";

// Two sessions of one phase, which do the same with an endpoint each and the mode. Each has three commits.
const TWO_ALIKE: &[u8] =
    b"{\"op\":\"endpoint\",\"name\":\"a\",\"labels\":[\"k8s:a=1\"],\"address\":\"10.0.0.1\"}\n\
{\"op\":\"endpoint\",\"name\":\"b\",\"labels\":[\"k8s:b=1\"],\"address\":\"10.0.0.2\",\"session\":2}\n\
{\"op\":\"sync\"}\n\
{\"op\":\"sync\",\"session\":2}\n\
{\"op\":\"verdict\",\"endpoint\":\"a\",\"direction\":\"ingress\",\"identity\":2,\"protocol\":\"TCP\",\"port\":80}\n\
{\"op\":\"verdict\",\"endpoint\":\"b\",\"direction\":\"ingress\",\"identity\":2,\"protocol\":\"TCP\",\"port\":80,\"session\":2}\n\
{\"op\":\"mode\",\"enable\":\"always\"}\n\
{\"op\":\"mode\",\"enable\":\"always\",\"session\":2}\n\
{\"op\":\"identity\",\"name\":\"x\",\"labels\":[\"k8s:x=1\"]}\n\
{\"op\":\"identity\",\"name\":\"y\",\"labels\":[\"k8s:y=1\"],\"session\":2}\n\
";

// What they are told where the first of them is held until the other has committed its last line: all commits of the other
// come first, and the mode that it has set denies what the first one asks.
const FIRST_HELD: &[u8] = b"ok 4 identity 258\n\
ok 1 identity 256\n\
synced 4\n\
synced 1\n\
denied-by-default at 4\n\
allowed at 1\n\
ok 5\n\
ok 2\n\
ok 6 identity 259\n\
ok 3 identity 257\n\
";

// The same where the second is held.
const SECOND_HELD: &[u8] = b"ok 1 identity 256\n\
ok 4 identity 258\n\
synced 1\n\
synced 4\n\
allowed at 1\n\
denied-by-default at 4\n\
ok 2\n\
ok 5\n\
ok 3 identity 257\n\
ok 6 identity 259\n\
";

// Waits until the sign is set, for so many turns at most.
fn sees(sign: &AtomicBool) -> bool {
    for _ in 0..TURNS {
        if sign.load(Ordering::SeqCst) {
            return true;
        }
        thread::yield_now();
    }
    false
}

// Each of two sessions waits at its start for the other.
#[derive(Drop)]
struct BothStart {
    one: AtomicBool,
    two: AtomicBool,
    seen: AtomicU32,
}

impl Gate for BothStart {
    fn start<R: Wait>(&self, _rt: &R, session: u32) {
        let (own, other) = if session == 1 {
            (&self.one, &self.two)
        } else {
            (&self.two, &self.one)
        };
        own.store(true, Ordering::SeqCst);
        if sees(other) {
            self.seen.fetch_add(1, Ordering::SeqCst);
        }
    }

    fn enter<R: Wait>(&self, _rt: &R, _call: u32) {}

    fn leave<R: Wait>(&self, _rt: &R, _call: u32) {}
}

// The first call of a worker waits for the end of the second.
#[derive(Drop)]
struct FirstWaits {
    second_ended: AtomicBool,
    saw: AtomicBool,
}

impl Gate for FirstWaits {
    fn start<R: Wait>(&self, _rt: &R, _session: u32) {}

    fn enter<R: Wait>(&self, _rt: &R, call: u32) {
        if call == 1 && sees(&self.second_ended) {
            self.saw.store(true, Ordering::SeqCst);
        }
    }

    fn leave<R: Wait>(&self, _rt: &R, call: u32) {
        if call == 2 {
            self.second_ended.store(true, Ordering::SeqCst);
        }
    }
}

// A session waits at its start for the call that is hinted by the other's last commit. A commit hints at the endpoints that
// there are: of those that come before it there is one, so its third commit hints at the third call.
#[derive(Drop)]
struct OneHeld {
    held: u32,
    others_last: AtomicBool,
    saw: AtomicBool,
}

impl Gate for OneHeld {
    fn start<R: Wait>(&self, _rt: &R, session: u32) {
        if session == self.held && sees(&self.others_last) {
            self.saw.store(true, Ordering::SeqCst);
        }
    }

    fn enter<R: Wait>(&self, _rt: &R, call: u32) {
        if call == 3 {
            self.others_last.store(true, Ordering::SeqCst);
        }
    }

    fn leave<R: Wait>(&self, _rt: &R, _call: u32) {}
}

// The first call of a worker takes long.
#[derive(Drop)]
struct Stalls {
    turns: AtomicU32,
}

impl Gate for Stalls {
    fn start<R: Wait>(&self, _rt: &R, _session: u32) {}

    fn enter<R: Wait>(&self, _rt: &R, call: u32) {
        if call != 1 {
            return;
        }
        for _ in 0..1_000_000u32 {
            self.turns.fetch_add(1, Ordering::SeqCst);
        }
    }

    fn leave<R: Wait>(&self, _rt: &R, _call: u32) {}
}

// The status of a run with so many workers, and whether it wrote these answers.
fn run<R: Threads + Wait + Sync, G: Gate + Sync>(
    rt: &R,
    alloc: Global,
    workers: &str,
    script: &[u8],
    answers: &[u8],
    gate: &G,
) -> Result<(Status, bool), Memory> {
    let mut words = Vec::new(alloc);
    words.push(String::from_str(alloc, "--workers")?)?;
    words.push(String::from_str(alloc, workers)?)?;
    let mut source = MemSource::new(script.to_vec(alloc)?, 1000, Vec::new(alloc));
    let mut sink = MemSink::new(alloc, 1000, 1000, Vec::new(alloc))?;
    let played = play_gated(rt, alloc, words.as_slice(), &mut source, &mut sink, gate);
    Ok((played.status, sink.written() == answers))
}

#[test]
fn two_sessions_are_at_work_at_once(rt: HostRuntime) -> Result<(), Fail> {
    let gate = BothStart {
        one: AtomicBool::new(false),
        two: AtomicBool::new(false),
        seen: AtomicU32::new(0),
    };
    let (status, _) = run(&rt, rt.alloc(), "0", TWO_SESSIONS, b"", &gate)?;
    assert!(rt; status == Status::Clean && gate.seen.load(Ordering::SeqCst) == 2);
    Ok(())
}

// Whether the run ends while that session is held, and its answers are these.
fn ends_held<R: Threads + Wait + Sync>(
    rt: &R,
    alloc: Global,
    held: u32,
    answers: &[u8],
) -> Result<bool, Memory> {
    let gate = OneHeld {
        held,
        others_last: AtomicBool::new(false),
        saw: AtomicBool::new(false),
    };
    let (status, same) = run(rt, alloc, "1", TWO_ALIKE, answers, &gate)?;
    Ok(status == Status::Clean && same && gate.saw.load(Ordering::SeqCst))
}

#[test]
fn a_session_that_is_held_holds_no_other(rt: HostRuntime) -> Result<(), Fail> {
    assert!(rt; ends_held(&rt, rt.alloc(), 1, FIRST_HELD)?);
    assert!(rt; ends_held(&rt, rt.alloc(), 2, SECOND_HELD)?);
    Ok(())
}

#[test]
fn two_workers_are_at_work_at_once(rt: HostRuntime) -> Result<(), Fail> {
    let gate = FirstWaits {
        second_ended: AtomicBool::new(false),
        saw: AtomicBool::new(false),
    };
    let answers = b"ok 1 identity 256\nok 2 identity 257\n";
    let (status, same) = run(&rt, rt.alloc(), "2", ONE_SESSION, answers, &gate)?;
    assert!(rt; status == Status::Clean && same && gate.saw.load(Ordering::SeqCst));
    Ok(())
}

#[test]
fn a_worker_that_stalls_changes_no_answer(rt: HostRuntime) -> Result<(), Fail> {
    let gate = Stalls {
        turns: AtomicU32::new(0),
    };
    let (status, same) = run(&rt, rt.alloc(), "1", SCRIPT, ANSWERS, &gate)?;
    assert!(rt; status == Status::Clean && same);
    Ok(())
}
