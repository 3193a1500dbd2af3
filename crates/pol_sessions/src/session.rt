//! What one session has in a phase.
ghost use Rattle.std.specs.Prelude.{◌≡◌, IfOk, OnErr, true};
ghost use Rattle.std.specs.List.{zip};
ghost use Rattle.pol_history.specs.Meet.{has};
ghost use Rattle.pol_run_laws.specs.Seats.{HasGoneOn};
ghost use Rattle.pol_sessions.specs.Hinting.{HasHintedUntil, HaveHinted};
ghost use Rattle.pol_sessions.specs.Sessions.{HasStopped};

use crate::line::{hint, play_line};
use crate::pace::Pace;
use pol_data::Memory;
use pol_hints::{HintPass, HintRound, Hints};
use pol_node::{Node, NodeName, Pass};
use pol_phases::{Answers, Commands};
use std::alloc::Global;
use std::marker::Brand;
use std::sync::Wait;
use std::sync::ledger::Blank;

/// Plays the lines of one session within one phase, in order, by the calls of the node that handed out the pass. A look that
/// had no guard is asked again. After a commit it puts a hint for each slot in use, until the queue is full.
///
/// The one error is want of memory: what was committed and published and the hints that were put before it stand, and the
/// board's writer may be spent.
pub fn play_session<N: NodeName, W: Wait, R: Wait + Drop>(
    rt: &W,
    alloc: Global,
    node: &Node<N, R>,
    pass: &mut Pass<N>,
    hints: &Hints,
    hint_pass: &mut HintPass,
    lines: Commands,
) -> Result<Answers, Memory>
    requires handed_out { has N.passes pass.old.number ≡ true }
    requires hints { hint_pass.old.queue ≡ hints.now.name }

    // What was played and committed.
    ensures played { IfOk result (λ answers. HasGoneOn N.options pass.old lines answers pass.new) }
    ensures stopped { OnErr result (HasStopped N.options pass.old lines pass.new) }

    // Which hints were put.
    ensures hints { hint_pass.new.queue ≡ hints.now.name }
    ensures hinted { IfOk result (λ answers.
        HaveHinted N.options hints.now.room pass.new.has.history (zip lines answers) hint_pass.old hint_pass.new) }
    ensures hinted_until { OnErr result
        (HasHintedUntil N.options hints.now.room pass.old lines pass.new hint_pass.old hint_pass.new) }
{
    let mut left = lines;
    let mut answers = Answers::new(alloc);
    let mut round = HintRound::new();
    let mut pace = Pace::new();
    pass.fits_together();
    while let Some(line) = left.next() {
        let played = play_line::<N, W, R, Brand>(Blank::new(1), rt, alloc, node, pass, line)?;
        hint(rt, hints, hint_pass, &mut round, played.slots);
        pace.go_on(hints, &played.answer);
        answers.push(played.answer)?;
    }
    pace.end(hints);
    Ok(answers)
}
