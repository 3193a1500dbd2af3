//! The sessions of a phase at once, and phase after phase.
ghost use Rattle.std.specs.Prelude.{◌≡◌, ◌≤◌, ◌++◌, ◌∷◌, [], IfOk, List, length, true};
ghost use Rattle.std.specs.List.{AllByRecursion};
ghost use Rattle.pol_history.specs.Grows.{PassState};
ghost use Rattle.pol_history.specs.Meet.{has};
ghost use Rattle.pol_run_laws.specs.Seats.{ArePhases, HasGoneOn, HaveGoneOn, IsPhase};
ghost use Rattle.pol_script.specs.declared.command.Command.{Command};

use crate::in_play::NodeInPlay;
use crate::session::play_session;
use pol_data::{Items, Memory};
use pol_hints::{Gate, HintPass};
use pol_node::{NodeName, Pass};
use pol_phases::{Answers, Commands};
use std::alloc::Global;
use std::collections::VecDeque;
use std::sync::Wait;
use std::thread::{Threads, join};

/// The sessions of a phase: the pass of each, and its lines.
#[derive(Drop)]
struct Sessions<N: NodeName> {
    passes: Vec<Pass<N>>,
    lines: Vec<Commands>,
}

/// What one of them has: its pass, and its lines.
#[derive(Drop)]
struct Session<N: NodeName> {
    pass: Pass<N>,
    lines: Commands,
}

/// A session's pass after a phase, and what it was told in it.
#[derive(Drop)]
struct Done<N: NodeName> {
    pass: Pass<N>,
    answers: Answers,
}

/// The passes of the sessions after a phase, and what each session was told in it.
#[derive(Drop)]
pub struct PlayedPhase<N: NodeName> {
    pub passes: Vec<Pass<N>>,
    pub told: Vec<Answers>,
}

/// The passes of the sessions after all phases, and what each session was told in each of them.
#[derive(Drop)]
pub struct PlayedPhases<N: NodeName> {
    pub passes: Vec<Pass<N>>,
    pub told: Vec<Items<Answers>>,
}

// One session. It passes the gate before its first line.
fn play_one<N: NodeName, W: Wait, R: Wait + Drop, G: Gate>(
    rt: &W,
    alloc: Global,
    play: &NodeInPlay<N, R, G>,
    hint_pass: HintPass,
    number: u32,
    session: Session<N>,
) -> Result<Done<N>, Memory>
    requires handed_out { has N.passes session.pass.number ≡ true }
    requires hints { hint_pass.queue ≡ play.now.hints.now.name }
    ensures { IfOk result (λ done. HasGoneOn N.options session.pass session.lines done.answers done.pass) }
{
    let Session { pass, lines } = session;
    if !lines.is_empty() {
        play.gate.start(rt, number);
    }
    let mut pass = pass;
    let mut hint_pass = hint_pass;
    let answers = play_session(
        rt,
        alloc,
        play.node,
        &mut pass,
        play.hints,
        &mut hint_pass,
        lines,
    )?;
    Ok(Done { pass, answers })
}

// The sessions of a phase: the last one behind the others, or in a thread beside them.
#[cycle(sessions)]
fn play_sessions<
    N: NodeName + Send + Sync,
    W: Threads + Wait + Sync,
    R: Wait + Drop + Send,
    G: Gate + Sync,
>(
    rt: &W,
    alloc: Global,
    play: &NodeInPlay<N, R, G>,
    hint_pass: HintPass,
    passes: Vec<Pass<N>>,
    lines: Vec<Commands>,
) -> Result<PlayedPhase<N>, Memory>
    requires handed_out { AllByRecursion (λ pass. has N.passes pass.number ≡ true) passes.items }
    requires one_each { length lines.items ≡ length passes.items }
    requires few { length passes.items ≤ 40 }
    requires hints { hint_pass.queue ≡ play.now.hints.now.name }
    ensures { IfOk result (λ played.
        HaveGoneOn N.options passes.items lines.items played.told.items played.passes.items) }
{
    let mut passes = passes;
    let mut lines = lines;
    let Some(pass) = passes.pop() else {
        return Ok(PlayedPhase {
            passes: Vec::new(alloc),
            told: Vec::new(alloc),
        });
    };
    let Some(own) = lines.pop() else {
        unreachable!();
    };
    let is_alone = is_alone(&own, &lines);
    let others = Sessions { passes, lines };
    let last = Session { pass, lines: own };
    if is_alone {
        play_in_turn(rt, alloc, play, hint_pass, others, last)
    } else {
        play_at_once(rt, alloc, play, hint_pass, others, last)
    }
}

// The last session has no lines, or the others have none, so no thread is started for it.
#[cycle(sessions)]
fn play_in_turn<
    N: NodeName + Send + Sync,
    W: Threads + Wait + Sync,
    R: Wait + Drop + Send,
    G: Gate + Sync,
>(
    rt: &W,
    alloc: Global,
    play: &NodeInPlay<N, R, G>,
    hint_pass: HintPass,
    others: Sessions<N>,
    last: Session<N>,
) -> Result<PlayedPhase<N>, Memory>
    requires handed_out { AllByRecursion (λ pass. has N.passes pass.number ≡ true) others.passes.items }
    requires one_each { length others.lines.items ≡ length others.passes.items }
    requires few { length others.passes.items ≤ 39 }
    requires last { has N.passes last.pass.number ≡ true }
    requires hints { hint_pass.queue ≡ play.now.hints.now.name }
    ensures { IfOk result (λ played. HaveGoneOn N.options (others.passes.items ++ last.pass ∷ [])
        (others.lines.items ++ last.lines ∷ []) played.told.items played.passes.items) }
{
    let Sessions { passes, lines } = others;
    let mut hint_pass = hint_pass;
    let number = passes.len() as u32 + 1;
    let other = play.hints.split(rt, &mut hint_pass)?;
    let front = play_sessions(rt, alloc, play, hint_pass, passes, lines)?;
    let back = play_one(rt, alloc, play, other, number, last)?;
    more(front, back)
}

// The last session in a thread beside the others.
#[cycle(sessions)]
fn play_at_once<
    N: NodeName + Send + Sync,
    W: Threads + Wait + Sync,
    R: Wait + Drop + Send,
    G: Gate + Sync,
>(
    rt: &W,
    alloc: Global,
    play: &NodeInPlay<N, R, G>,
    hint_pass: HintPass,
    others: Sessions<N>,
    last: Session<N>,
) -> Result<PlayedPhase<N>, Memory>
    requires handed_out { AllByRecursion (λ pass. has N.passes pass.number ≡ true) others.passes.items }
    requires one_each { length others.lines.items ≡ length others.passes.items }
    requires few { length others.passes.items ≤ 39 }
    requires last { has N.passes last.pass.number ≡ true }
    requires hints { hint_pass.queue ≡ play.now.hints.now.name }
    ensures { IfOk result (λ played. HaveGoneOn N.options (others.passes.items ++ last.pass ∷ [])
        (others.lines.items ++ last.lines ∷ []) played.told.items played.passes.items) }
{
    let Sessions { passes, lines } = others;
    let mut hint_pass = hint_pass;
    let number = passes.len() as u32 + 1;
    let other = play.hints.split(rt, &mut hint_pass)?;
    let (front, back) = join(
        rt,
        || -> Result<PlayedPhase<N>, Memory>
            requires handed_out { AllByRecursion (λ pass. has N.passes pass.number ≡ true) passes.items }
            requires one_each { length lines.items ≡ length passes.items }
            requires few { length passes.items ≤ 39 }
            requires hints { hint_pass.queue ≡ play.now.hints.now.name }
            ensures { IfOk result (λ played.
                HaveGoneOn N.options passes.items lines.items played.told.items played.passes.items) }
        { play_sessions(rt, alloc, play, hint_pass, passes, lines) },
        || -> Result<Done<N>, Memory>
            requires handed_out { has N.passes last.pass.number ≡ true }
            requires hints { other.queue ≡ play.now.hints.now.name }
            ensures { IfOk result (λ done. HasGoneOn N.options last.pass last.lines done.answers done.pass) }
        { play_one(rt, alloc, play, other, number, last) },
    );
    more(front?, back?)
}

// Whether the session has no lines, or the others have none.
fn is_alone(own: &Commands, others: &[Commands]) -> bool {
    own.is_empty() || others.iter().all(|lines| lines.is_empty())
}

// One session more, whatever it and the others went on from.
fn more<N: NodeName>(front: PlayedPhase<N>, back: Done<N>) -> Result<PlayedPhase<N>, Memory>
    ensures { (olds : List PassState) (lines : List (List Command)) (old : PassState) (own : List Command)
        → HaveGoneOn N.options olds lines front.told.items front.passes.items
        → HasGoneOn N.options old own back.answers back.pass → IfOk result (λ played.
        HaveGoneOn N.options (olds ++ old ∷ []) (lines ++ own ∷ []) played.told.items played.passes.items) }
{
    let PlayedPhase {
        mut passes,
        mut told,
    } = front;
    let Done { pass, answers } = back;
    passes.push(pass)?;
    told.push(answers)?;
    Ok(PlayedPhase { passes, told })
}

/// Plays the sessions of a phase, each in a thread, and then all passes meet. The one error is want of memory.
pub fn play_phase<
    N: NodeName + Send + Sync,
    W: Threads + Wait + Sync,
    R: Wait + Drop + Send,
    G: Gate + Sync,
>(
    rt: &W,
    alloc: Global,
    play: &NodeInPlay<N, R, G>,
    hint_pass: HintPass,
    passes: Vec<Pass<N>>,
    lines: Vec<Commands>,
) -> Result<PlayedPhase<N>, Memory>
    requires handed_out { AllByRecursion (λ pass. has N.passes pass.number ≡ true) passes.items }
    requires one_each { length lines.items ≡ length passes.items }
    requires few { length passes.items ≤ 40 }
    requires hints { hint_pass.queue ≡ play.now.hints.now.name }
    ensures { IfOk result (λ played.
        IsPhase N.options N.passes passes.items lines.items played.told.items played.passes.items) }
{
    let mut played = play_sessions(rt, alloc, play, hint_pass, passes, lines)?;
    play.node.meet(rt, &mut played.passes);
    Ok(played)
}

/// Plays phase after phase. The one error is want of memory.
pub fn play_phases<
    N: NodeName + Send + Sync,
    W: Threads + Wait + Sync,
    R: Wait + Drop + Send,
    G: Gate + Sync,
>(
    rt: &W,
    alloc: Global,
    play: &NodeInPlay<N, R, G>,
    hint_pass: HintPass,
    passes: Vec<Pass<N>>,
    phases: Vec<Items<Commands>>,
) -> Result<PlayedPhases<N>, Memory>
    requires handed_out { AllByRecursion (λ pass. has N.passes pass.number ≡ true) passes.items }
    requires one_each { AllByRecursion (λ lines. length lines ≡ length passes.items) phases.items }
    requires few { length passes.items ≤ 40 }
    requires hints { hint_pass.queue ≡ play.now.hints.now.name }
    ensures phases { IfOk result (λ played.
        ArePhases N.options N.passes passes.items phases.items played.told.items played.passes.items) }
    ensures as_many { IfOk result (λ played. length played.passes.items ≡ length passes.items) }
{
    let mut hint_pass = hint_pass;
    let mut passes = passes;
    let mut told = Vec::with_capacity(alloc, phases.len())?;
    let mut left = VecDeque::from_vec(phases);
    while let Some(lines) = left.pop_front() {
        let other = play.hints.split(rt, &mut hint_pass)?;
        let played = play_phase(rt, alloc, play, other, passes, lines.into_vec())?;
        passes = played.passes;
        told.push(Items::from_vec(played.told))?;
    }
    Ok(PlayedPhases { passes, told })
}
