//! Two scripts of one endpoint on one thread: a number that is used again, and an endpoint that is added again.
ghost use Rattle.std.specs.Prelude.{◌≡◌, Some, true, map};
ghost use Rattle.pol_board.specs.Counts.{new_passes};
ghost use Rattle.pol_history.specs.Meet.{has};
ghost use Rattle.pol_model.specs.declared.options.Mode.TheVariants.{Default};

use crate::reading::play_line;
use crate::stand::{LIMIT, PASSES, Seats, open, seated};
use pol_answer::answer_text;
use pol_board::NewBook;
use pol_data::{Memory, Steps};
use pol_node::{Desk, NodeName, Pass, Slot};
use std::alloc::Global;
use std::marker::Brand;
use std::sync::ledger::{Blank, Ledger};
use std::sync::{Mutex, Wait};
use std::test::Fail;

static NUMBER_USED_AGAIN: [&str; 12] = [
    "{\"op\":\"endpoint\",\"name\":\"web\",\"labels\":[\"k8s:io.kubernetes.pod.namespace=default\"],\"address\":\"192.168.0.1\"}",
    "{\"op\":\"apply\",\"policy\":{\"apiVersion\":\"cilium.io/v2\",\"kind\":\"CiliumNetworkPolicy\",\"metadata\":{\"name\":\"old\"},\"spec\":{\"endpointSelector\":{},\"ingress\":[{\"fromCIDR\":[\"10.0.0.0/8\"]}]}}}",
    "{\"op\":\"sync\"}",
    "{\"op\":\"delete\",\"kind\":\"CiliumNetworkPolicy\",\"name\":\"old\"}",
    "{\"op\":\"apply\",\"policy\":{\"apiVersion\":\"cilium.io/v2\",\"kind\":\"CiliumNetworkPolicy\",\"metadata\":{\"name\":\"new\"},\"spec\":{\"endpointSelector\":{},\"ingress\":[{\"fromCIDR\":[\"172.16.0.0/12\"]}]}}}",
    "{\"op\":\"verdict\",\"endpoint\":\"web\",\"direction\":\"ingress\",\"address\":\"172.16.0.1\",\"protocol\":\"TCP\",\"port\":80}",
    "{\"op\":\"verdict\",\"endpoint\":\"web\",\"direction\":\"ingress\",\"address\":\"10.0.0.1\",\"protocol\":\"TCP\",\"port\":80}",
    "{\"op\":\"verdict\",\"endpoint\":\"web\",\"direction\":\"ingress\",\"identity\":16777217,\"protocol\":\"TCP\",\"port\":80}",
    "{\"op\":\"sync\"}",
    "{\"op\":\"verdict\",\"endpoint\":\"web\",\"direction\":\"ingress\",\"address\":\"172.16.0.1\",\"protocol\":\"TCP\",\"port\":80}",
    "{\"op\":\"verdict\",\"endpoint\":\"web\",\"direction\":\"ingress\",\"address\":\"10.0.0.1\",\"protocol\":\"TCP\",\"port\":80}",
    "{\"op\":\"trace\",\"endpoint\":\"web\",\"direction\":\"ingress\",\"address\":\"172.16.0.1\",\"protocol\":\"TCP\",\"port\":80}",
];

const USED_AGAIN: &[u8] = b"ok 1 identity 256\nok 2\nsynced 2\nok 3\nok 4\n\
denied-by-default at 2\nallowed at 2\nallowed at 2\nsynced 4\nallowed at 4\ndenied-by-default at 4\n\
trace allowed at 4 remote 16777217 denies - allows default/new#0.ingress[0]\n";

static ENDPOINT_ADDED_AGAIN: [&str; 8] = [
    "{\"op\":\"endpoint\",\"name\":\"a\",\"labels\":[\"k8s:io.kubernetes.pod.namespace=default\"],\"address\":\"10.0.0.1\"}",
    "{\"op\":\"verdict\",\"endpoint\":\"a\",\"direction\":\"ingress\",\"identity\":2,\"protocol\":\"TCP\",\"port\":80}",
    "{\"op\":\"sync\"}",
    "{\"op\":\"verdict\",\"endpoint\":\"a\",\"direction\":\"ingress\",\"identity\":2,\"protocol\":\"TCP\",\"port\":80}",
    "{\"op\":\"remove-endpoint\",\"name\":\"a\"}",
    "{\"op\":\"verdict\",\"endpoint\":\"a\",\"direction\":\"ingress\",\"identity\":2,\"protocol\":\"TCP\",\"port\":80}",
    "{\"op\":\"endpoint\",\"name\":\"a\",\"labels\":[\"k8s:io.kubernetes.pod.namespace=default\"],\"address\":\"10.0.0.1\"}",
    "{\"op\":\"verdict\",\"endpoint\":\"a\",\"direction\":\"ingress\",\"identity\":2,\"protocol\":\"TCP\",\"port\":80}",
];

const ADDED_AGAIN: &[u8] = b"ok 1 identity 256\nnotyet at 1\nsynced 1\nallowed at 1\nok 2\n\
noendpoint at 2\nok 3 identity 256\nnotyet at 3\n";

/// Plays a line, and tells its answer.
fn told_one<N: NodeName, W: Wait, R: Wait + Drop, L: Ledger>(
    rt: &W,
    alloc: Global,
    desk: &Mutex<Desk<N, R>>,
    slot: &mut Slot<N>,
    pass: &mut Pass<N>,
    line: &str,
    steps: &mut Steps<L>,
) -> Result<Vec<u8>, Memory>
    requires handed_out { has N.passes pass.old.number ≡ true }
    ensures number { pass.new.number ≡ pass.old.number }
{
    let answer = play_line(rt, alloc, desk, slot, pass, line, steps)?;
    answer_text(alloc, &answer)
}

/// The same, and writes it behind the others.
fn play_one<N: NodeName, W: Wait, R: Wait + Drop, L: Ledger>(
    rt: &W,
    alloc: Global,
    desk: &Mutex<Desk<N, R>>,
    slot: &mut Slot<N>,
    pass: &mut Pass<N>,
    line: &str,
    answers: &mut Vec<u8>,
    steps: &mut Steps<L>,
) -> Result<(), Memory>
    requires handed_out { has N.passes pass.old.number ≡ true }
    ensures number { pass.new.number ≡ pass.old.number }
{
    let text = told_one(rt, alloc, desk, slot, pass, line, steps)?;
    answers.extend_from_slice(text.as_slice())?;
    Ok(())
}

/// Plays the lines, one after another.
fn play_all<N: NodeName, W: Wait, R: Wait + Drop, L: Ledger>(
    rt: &W,
    alloc: Global,
    desk: &Mutex<Desk<N, R>>,
    slot: &mut Slot<N>,
    pass: &mut Pass<N>,
    lines: &[&str],
    answers: &mut Vec<u8>,
    steps: &mut Steps<L>,
) -> Result<(), Memory>
    requires handed_out { has N.passes pass.old.number ≡ true }
{
    for line in lines {
        play_one(rt, alloc, desk, slot, pass, line, answers, steps)?;
    }
    Ok(())
}

/// The same over the desk and its slot 0, with steps of its own.
fn play<N: NodeName, W: Wait, R: Wait + Drop, L: Ledger>(
    blank: Blank,
    rt: &W,
    alloc: Global,
    desk: &Mutex<Desk<N, R>>,
    seats: Seats<N>,
    lines: &[&str],
    answers: &mut Vec<u8>,
) -> Result<(), Memory>
    requires name { blank.name ≡ L.name }
    requires parts { blank.parts ≡ L.parts }
    requires some { blank.parts ≡ 1 }
    requires handed_out { has N.passes seats.commits.number ≡ true }
{
    let mut steps = Steps::<L>::new(blank);
    let Seats { commits, slot, .. } = seats;
    let mut slot = Slot::open(slot, LIMIT as u64);
    let mut pass = commits;
    play_all(
        rt, alloc, desk, &mut slot, &mut pass, lines, answers, &mut steps,
    )
}

/// The same by the passes of a new board.
fn play_seated<N: NodeName, W: Wait, R: Wait + Drop>(
    rt: &W,
    alloc: Global,
    desk: &Mutex<Desk<N, R>>,
    passes: Vec<Pass<N>>,
    lines: &[&str],
    answers: &mut Vec<u8>,
) -> Result<(), Memory>
    requires new { passes.items ≡ new_passes PASSES }
    requires passes { N.passes ≡ map (λ pass. pass.number) (new_passes PASSES) }
{
    let seats = seated(passes)?;
    play::<N, W, R, Brand>(Blank::new(1), rt, alloc, desk, seats, lines, answers)
}

/// The same over a new board of this name.
fn play_named<N: NodeName, W: Wait>(
    rt: &W,
    alloc: Global,
    book: NewBook,
    lines: &[&str],
    answers: &mut Vec<u8>,
) -> Result<(), Memory>
    requires book { book ≡ N.book }
    requires options { N.options ≡ record { mode = Default; localhost = true; map_max = Some LIMIT } }
    requires passes { N.passes ≡ map (λ pass. pass.number) (new_passes PASSES) }
{
    let (desk, passes) = open::<N, W>(rt, alloc, book)?;
    let desk = Mutex::new(desk);
    let played = play_seated(rt, alloc, &desk, passes, lines, answers);
    desk.into_inner().close(rt);
    played
}

/// The answers to the lines.
fn played<W: Wait>(rt: &W, alloc: Global, lines: &[&str]) -> Result<Vec<u8>, Memory> {
    let mut answers = Vec::new(alloc);
    play_named::<Brand, W>(rt, alloc, NewBook::new(), lines, &mut answers)?;
    Ok(answers)
}

#[test]
fn a_number_is_used_again(rt: HostRuntime) -> Result<(), Fail> {
    let answers = played(&rt, rt.alloc(), &NUMBER_USED_AGAIN)?;
    assert!(rt; answers.as_slice() == USED_AGAIN);
    Ok(())
}

#[test]
fn an_endpoint_is_added_again(rt: HostRuntime) -> Result<(), Fail> {
    let answers = played(&rt, rt.alloc(), &ENDPOINT_ADDED_AGAIN)?;
    assert!(rt; answers.as_slice() == ADDED_AGAIN);
    Ok(())
}
