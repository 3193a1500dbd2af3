//! The requests of a run.

use crate::peers::PeersOf;
use crate::pods::{endpoint, identity, no_endpoint, no_identity};
use crate::policies::{no_policy, policy};
use pol_data::Memory;
use pol_model::{Mode, Request};
use std::alloc::Global;

/// How many requests of a kind one run has.
pub(crate) const BATCH: u32 = 8;

/// What comes and goes.
#[derive(Clone, Copy)]
pub(crate) enum TimedRequest {
    /// Identities of two selectors: one selects an identity of the same application.
    Identity,
    /// Endpoints of labels that nobody else has, and that one selector selects.
    Endpoint,
    /// Modes.
    Mode,
    /// Policies of ten entries.
    Policy(PeersOf),
    /// The policies that the repository was filled with, the oldest first.
    Oldest(PeersOf),
}

/// What is asked of it.
#[derive(Clone, Copy)]
pub(crate) enum Step {
    Comes,
    Replaces,
    Goes,
}

static MODE: [Step; 1] = [Step::Comes];

static TURN: [Step; 2] = [Step::Comes, Step::Goes];

static POLICY: [Step; 3] = [Step::Comes, Step::Replaces, Step::Goes];

static OLDEST: [Step; 2] = [Step::Goes, Step::Comes];

/// What a run asks of a kind, in this order. What was there from the beginning goes first, and comes again.
pub(crate) fn steps_of(kind: TimedRequest) -> &'static [Step] {
    match kind {
        TimedRequest::Mode => &MODE,
        TimedRequest::Identity | TimedRequest::Endpoint => &TURN,
        TimedRequest::Policy(_) => &POLICY,
        TimedRequest::Oldest(_) => &OLDEST,
    }
}

/// What the policies are called that the repository is filled with.
fn family(named: PeersOf) -> &'static str {
    match named {
        PeersOf::Pods => "pods",
        _ => "prefixes",
    }
}

/// The policy of that number that the repository is filled with: nobody else lists its peers.
pub(crate) fn filling(alloc: Global, named: PeersOf, number: u32) -> Result<Request, Memory> {
    policy(alloc, family(named), number, named, number)
}

/// A policy. The one that takes its place has the peers that the policy before it had.
fn policy_request(
    alloc: Global,
    step: Step,
    named: PeersOf,
    number: u32,
) -> Result<Request, Memory> {
    match step {
        Step::Comes => policy(alloc, "new", number, named, number.wrapping_add(1)),
        Step::Replaces => policy(alloc, "new", number, named, number),
        Step::Goes => no_policy(alloc, "new", number),
    }
}

fn oldest_request(
    alloc: Global,
    step: Step,
    named: PeersOf,
    number: u32,
) -> Result<Request, Memory> {
    match step {
        Step::Goes => no_policy(alloc, family(named), number),
        _ => filling(alloc, named, number),
    }
}

fn identity_request(alloc: Global, step: Step, number: u32) -> Result<Request, Memory> {
    match step {
        Step::Goes => no_identity(alloc, number, "other"),
        _ => identity(alloc, number, "other"),
    }
}

fn endpoint_request(alloc: Global, step: Step, number: u32) -> Result<Request, Memory> {
    match step {
        Step::Goes => no_endpoint(alloc, number, "another"),
        _ => endpoint(alloc, number, "another"),
    }
}

fn mode_request(number: u32) -> Request {
    if number % 2 == 0 {
        Request::SetMode(Mode::Always)
    } else {
        Request::SetMode(Mode::Default)
    }
}

/// The request of a number in its run.
fn request(
    alloc: Global,
    kind: TimedRequest,
    step: Step,
    run: u32,
    number: u32,
) -> Result<Request, Memory> {
    match kind {
        TimedRequest::Identity => identity_request(alloc, step, number),
        TimedRequest::Endpoint => endpoint_request(alloc, step, number),
        TimedRequest::Mode => Ok(mode_request(number)),
        TimedRequest::Policy(named) => policy_request(alloc, step, named, number),
        TimedRequest::Oldest(named) => {
            let own = run.wrapping_mul(BATCH).wrapping_add(number);
            oldest_request(alloc, step, named, own)
        }
    }
}

/// The requests of a run.
pub(crate) fn requests(
    alloc: Global,
    kind: TimedRequest,
    step: Step,
    run: u32,
) -> Result<Vec<Request>, Memory> {
    let mut list = Vec::with_capacity(alloc, BATCH as usize)?;
    for number in 0..BATCH {
        list.push(request(alloc, kind, step, run, number)?)?;
    }
    Ok(list)
}
