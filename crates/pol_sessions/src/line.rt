//! One line of a session, by a call of the node.
ghost use Rattle.std.specs.Prelude.{◌≡◌, [], ◌∷◌, ℕ, IfOk, None, OnErr, true};
ghost use Rattle.pol_history.specs.Grows.{PassGrows};
ghost use Rattle.pol_history.specs.Meet.{has};
ghost use Rattle.pol_script.specs.declared.command.Command.TheVariants as command;
ghost use Rattle.pol_phases.specs.Marks.{IsOfSession};
ghost use Rattle.pol_sessions.specs.Hinting.{AreInUse, PutsIf, committed_at};
ghost use Rattle.pol_sessions.specs.Sessions.{GoesOn};

use pol_answer::Answer;
use pol_data::{Memory, Steps};
use pol_hints::{HintPass, HintRound, Hints};
use pol_model::{CommitError, Query, Request};
use pol_node::{LookError, Node, NodeName, Pass, TraceError};
use pol_script::Command;
use std::alloc::Global;
use std::sync::Wait;
use std::sync::ledger::{Blank, Ledger};
use std::thread;

/// What was answered to a line, and how many slots are in use behind it, where it committed.
#[derive(Drop)]
pub(crate) struct PlayedLine {
    pub(crate) answer: Answer,
    pub(crate) slots: Option<u32>,
}

/// Answers a command of a session. The one error is want of memory, and then the pass has committed nothing.
pub(crate) fn play_line<N: NodeName, W: Wait, R: Wait + Drop, L: Ledger>(
    blank: Blank,
    rt: &W,
    alloc: Global,
    node: &Node<N, R>,
    pass: &mut Pass<N>,
    line: Command,
) -> Result<PlayedLine, Memory>
    // A new count of steps.
    requires name { blank.name ≡ L.name }
    requires parts { blank.parts ≡ L.parts }
    requires some { blank.parts ≡ 1 }

    // A pass of the node, and a line of a session.
    requires handed_out { has N.passes pass.old.number ≡ true }
    requires of_session { IsOfSession line }

    // What was answered and committed.
    ensures answered { IfOk result (λ played. GoesOn N.options pass.old line played.answer pass.new) }
    ensures slots { IfOk result (λ played.
        AreInUse N.options pass.new.has.history (committed_at (line, played.answer)) played.slots) }
    ensures nothing { OnErr result (PassGrows N.options pass.old pass.new []) }
{
    // Nothing here asks how many steps the calls take.
    let mut steps = Steps::<L>::new(blank);
    answer_line(rt, alloc, node, pass, line, &mut steps)
}

fn answer_line<N: NodeName, W: Wait, R: Wait + Drop, L: Ledger>(
    rt: &W,
    alloc: Global,
    node: &Node<N, R>,
    pass: &mut Pass<N>,
    line: Command,
    steps: &mut Steps<L>,
) -> Result<PlayedLine, Memory>
    requires handed_out { has N.passes pass.old.number ≡ true }
    requires of_session { IsOfSession line }
    ensures answered { IfOk result (λ played. GoesOn N.options pass.old line played.answer pass.new) }
    ensures slots { IfOk result (λ played.
        AreInUse N.options pass.new.has.history (committed_at (line, played.answer)) played.slots) }
    ensures nothing { OnErr result (PassGrows N.options pass.old pass.new []) }
{
    match line {
        Command::Commit {
            session: _,
            request,
        } => commit(rt, alloc, node, pass, request, steps),
        Command::Look { session: _, query } => {
            let answer = look(rt, node, pass, &query, steps);
            Ok(PlayedLine {
                answer,
                slots: None,
            })
        }
        Command::Trace { session: _, query } => trace(rt, alloc, node, pass, &query),
        Command::Sync { session: _ } => sync(rt, alloc, node, pass),
        Command::Phase => unreachable!(),
    }
}

/// Behind a line: puts a hint for each slot that is in use behind a commit, until the queue is full.
pub(crate) fn hint<W: Wait>(
    rt: &W,
    hints: &Hints,
    hint_pass: &mut HintPass,
    round: &mut HintRound,
    slots: Option<u32>,
)
    requires hints { hint_pass.old.queue ≡ hints.now.name }
    ensures hints { hint_pass.new.queue ≡ hints.now.name }
    ensures put { PutsIf hints.now.room slots hint_pass.old hint_pass.new }
{
    if let Some(slots) = slots {
        round.hint(rt, hints, hint_pass, slots);
    }
}

fn commit<N: NodeName, W: Wait, R: Wait + Drop, L: Ledger>(
    rt: &W,
    alloc: Global,
    node: &Node<N, R>,
    pass: &mut Pass<N>,
    request: Request,
    steps: &mut Steps<L>,
) -> Result<PlayedLine, Memory>
    requires handed_out { has N.passes pass.old.number ≡ true }
    ensures answered { IfOk result (λ played.
        (session : ℕ) → GoesOn N.options pass.old (command.Commit session request) played.answer pass.new) }
    ensures slots { IfOk result (λ played. (session : ℕ) → AreInUse N.options pass.new.has.history
        (committed_at (command.Commit session request, played.answer)) played.slots) }
    ensures nothing { OnErr result (PassGrows N.options pass.old pass.new []) }
{
    pass.fits_together();
    // A place has no numbers for a list so long.
    if !request.is_short() {
        return Err(Memory);
    }
    match node.commit(rt, alloc, pass, request, steps) {
        Ok(done) => Ok(PlayedLine {
            answer: Answer::Committed {
                revision: done.revision,
                identity: done.identity,
            },
            slots: Some(done.slots),
        }),
        Err(CommitError::Refused(refused)) => Ok(PlayedLine {
            answer: Answer::Refused(refused),
            slots: None,
        }),
        Err(CommitError::Memory) => Err(Memory),
    }
}

// Looks until there is a guard.
fn look<N: NodeName, W: Wait, R: Wait + Drop, L: Ledger>(
    rt: &W,
    node: &Node<N, R>,
    pass: &mut Pass<N>,
    query: &Query,
    steps: &mut Steps<L>,
) -> Answer
    ensures { (session : ℕ) → GoesOn N.options pass.old (command.Look session query.now) result pass.new }
{
    pass.fits_together();
    for _ in rt.forever() {
        match node.verdict(pass, query, steps) {
            Ok(verdict) => {
                return Answer::Verdict {
                    revision: verdict.revision,
                    word: verdict.word,
                };
            }
            Err(LookError::NoEndpoint { revision }) => return Answer::NoEndpoint(revision),
            Err(LookError::NotYet { revision }) => return Answer::NotYet(revision),
            Err(LookError::NoGuard) => thread::yield_now(),
        }
    }
    unreachable!()
}

fn trace<N: NodeName, W: Wait, R: Wait + Drop>(
    rt: &W,
    alloc: Global,
    node: &Node<N, R>,
    pass: &mut Pass<N>,
    query: &Query,
) -> Result<PlayedLine, Memory>
    ensures answered { IfOk result (λ played.
        (session : ℕ) → GoesOn N.options pass.old (command.Trace session query.now) played.answer pass.new) }
    ensures slots { IfOk result (λ played. played.slots ≡ None) }
    ensures nothing { OnErr result (PassGrows N.options pass.old pass.new []) }
{
    match node.trace(rt, alloc, pass, query) {
        Ok(traced) => Ok(PlayedLine {
            answer: Answer::Traced {
                revision: traced.revision,
                trace: traced.trace,
            },
            slots: None,
        }),
        Err(TraceError::NoEndpoint { revision }) => Ok(PlayedLine {
            answer: Answer::NoEndpoint(revision),
            slots: None,
        }),
        Err(TraceError::Memory) => Err(Memory),
    }
}

fn sync<N: NodeName, W: Wait, R: Wait + Drop>(
    rt: &W,
    alloc: Global,
    node: &Node<N, R>,
    pass: &mut Pass<N>,
) -> Result<PlayedLine, Memory>
    ensures answered { IfOk result (λ played.
        (session : ℕ) → GoesOn N.options pass.old (command.Sync session) played.answer pass.new) }
    ensures slots { IfOk result (λ played. played.slots ≡ None) }
    ensures nothing { OnErr result (PassGrows N.options pass.old pass.new []) }
{
    match node.sync(rt, alloc, pass) {
        Ok(report) => Ok(PlayedLine {
            answer: Answer::Synced {
                revision: report.revision,
                full: report.full,
            },
            slots: None,
        }),
        Err(_) => Err(Memory),
    }
}
