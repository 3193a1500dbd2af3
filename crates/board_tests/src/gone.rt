//! An endpoint that goes while its map is made: the finish tells that it is gone.
ghost use Rattle.std.specs.Prelude.{◌≡◌, IfOk, None, OnOk, Some, true, map};
ghost use Rattle.pol_board.specs.Counts.{new_passes};
ghost use Rattle.pol_history.specs.Machine.{endpoint_id};
ghost use Rattle.pol_history.specs.Meet.{has};
ghost use Rattle.pol_history.specs.Reports.{last_report};
ghost use Rattle.pol_model.specs.declared.options.Mode.TheVariants.{Default};
ghost use Rattle.pol_node.specs.Slot.{IsMade, IsTakenAt};
ghost use Rattle.pol_slot_map.specs.Followed.{Follows};

use crate::asked::endpoint;
use crate::stand::{LIMIT, PASSES, Seats, commit, open, seated};
use pol_board::NewBook;
use pol_data::{Memory, Steps, Text};
use pol_model::Request;
use pol_node::{Desk, Finished, NodeName, Pass};
use pol_slot_map::Followed;
use pol_taken::Taken;
use std::alloc::Global;
use std::marker::Brand;
use std::sync::Wait;
use std::sync::ledger::{Blank, Ledger};
use std::test::Fail;

/// What was taken, where nothing was reported of its endpoint. A report is want of memory here.
fn unreported<N: NodeName, R: Wait + Drop>(
    desk: &Desk<N, R>,
    slot: &Pass<N>,
    taken: Taken,
) -> Result<Taken, Memory>
    requires shown { slot.now.has.history ≡ desk.now.writer.seen }
    requires taken { IsTakenAt N.options slot.now.has.history 0 taken }
    ensures same { IfOk result (λ again. again ≡ taken) }
    ensures last { OnOk result (last_report (endpoint_id taken.endpoint) slot.now.has.history ≡ None) }
{
    let _ = slot;
    let last = desk
        .writer
        .last_report(&taken.endpoint.name, taken.endpoint.added);
    match last {
        Some(_) => Err(Memory),
        None => Ok(taken),
    }
}

/// Takes what the map of the endpoint of slot 0 is made of, where nothing was reported of it. An error is want of memory here.
fn take<N: NodeName, W: Wait, R: Wait + Drop>(
    rt: &W,
    alloc: Global,
    desk: &mut Desk<N, R>,
    slot: &mut Pass<N>,
) -> Result<Taken, Memory>
    ensures taken { IfOk result (IsTakenAt N.options slot.new.has.history 0) }
    ensures last { IfOk result (λ taken. last_report (endpoint_id taken.endpoint) slot.new.has.history ≡ None) }
{
    match desk.take(rt, alloc, slot, 0, None) {
        Ok(taken) => unreported(desk, slot, taken),
        Err(_) => Err(Memory),
    }
}

/// Makes the map.
fn make<N: NodeName>(alloc: Global, slot: &Pass<N>, taken: &Taken) -> Result<Followed, Memory>
    requires taken { IsTakenAt N.options slot.now.has.history 0 taken.now }
    ensures follows { IfOk result (Follows N.options slot.now.has.history) }
    ensures made { IfOk result (IsMade taken.now) }
    ensures shown { IfOk result (λ followed. followed.shown ≡ None) }
{
    let _ = slot;
    Ok(Followed::start(alloc, taken, LIMIT as u64)?)
}

/// Reports it, where no report was made of the endpoint. An error is want of memory here.
fn finish<N: NodeName, W: Wait, R: Wait + Drop>(
    rt: &W,
    alloc: Global,
    desk: &mut Desk<N, R>,
    slot: &mut Pass<N>,
    taken: &Taken,
    followed: &Followed,
) -> Result<Finished, Memory>
    requires taken { IsTakenAt N.options slot.old.has.history 0 taken.now }
    requires last { last_report (endpoint_id taken.now.endpoint) slot.old.has.history ≡ None }
    requires follows { Follows N.options slot.old.has.history followed.now }
    requires made { IsMade taken.now followed.now }
    requires shown { followed.now.shown ≡ None }
{
    let count = followed.work.count();
    match desk.finish(rt, alloc, slot, taken, count, None, &followed.pending) {
        Ok(done) => Ok(done.finished),
        Err(_) => Err(Memory),
    }
}

/// Removes the endpoint, and then reports the map that was made of what was taken.
fn report_late<N: NodeName, W: Wait, R: Wait + Drop, L: Ledger>(
    rt: &W,
    alloc: Global,
    desk: &mut Desk<N, R>,
    slot: &mut Pass<N>,
    pass: &mut Pass<N>,
    taken: &Taken,
    followed: &Followed,
    steps: &mut Steps<L>,
) -> Result<Finished, Memory>
    requires handed_out { has N.passes pass.old.number ≡ true }
    requires taken { IsTakenAt N.options slot.old.has.history 0 taken.now }
    requires last { last_report (endpoint_id taken.now.endpoint) slot.old.has.history ≡ None }
    requires follows { Follows N.options slot.old.has.history followed.now }
    requires made { IsMade taken.now followed.now }
    requires shown { followed.now.shown ≡ None }
{
    let name = Text::from_str(alloc, "a")?;
    commit(
        rt,
        alloc,
        desk,
        pass,
        Request::RemoveEndpoint { name },
        steps,
    )?;
    finish(rt, alloc, desk, slot, taken, followed)
}

/// Makes the map of what was taken, and reports it when the endpoint has gone.
fn make_late<N: NodeName, W: Wait, R: Wait + Drop, L: Ledger>(
    rt: &W,
    alloc: Global,
    desk: &mut Desk<N, R>,
    slot: &mut Pass<N>,
    pass: &mut Pass<N>,
    taken: &Taken,
    steps: &mut Steps<L>,
) -> Result<Finished, Memory>
    requires handed_out { has N.passes pass.old.number ≡ true }
    requires taken { IsTakenAt N.options slot.old.has.history 0 taken.now }
    requires last { last_report (endpoint_id taken.now.endpoint) slot.old.has.history ≡ None }
{
    let followed = make(alloc, slot, taken)?;
    report_late(rt, alloc, desk, slot, pass, taken, &followed, steps)
}

/// The endpoint comes, is taken, and goes before its map is reported.
fn goes<N: NodeName, W: Wait, R: Wait + Drop, L: Ledger>(
    blank: Blank,
    rt: &W,
    alloc: Global,
    desk: &mut Desk<N, R>,
    seats: Seats<N>,
) -> Result<Finished, Memory>
    requires name { blank.name ≡ L.name }
    requires parts { blank.parts ≡ L.parts }
    requires some { blank.parts ≡ 1 }
    requires handed_out { has N.passes seats.commits.number ≡ true }
{
    let mut steps = Steps::<L>::new(blank);
    let Seats { commits, slot, .. } = seats;
    let mut slot = slot;
    let mut pass = commits;
    commit(rt, alloc, desk, &mut pass, endpoint(alloc)?, &mut steps)?;
    let taken = take(rt, alloc, desk, &mut slot)?;
    make_late(rt, alloc, desk, &mut slot, &mut pass, &taken, &mut steps)
}

/// The same by the passes of a new board.
fn goes_seated<N: NodeName, W: Wait, R: Wait + Drop>(
    rt: &W,
    alloc: Global,
    desk: &mut Desk<N, R>,
    passes: Vec<Pass<N>>,
) -> Result<Finished, Memory>
    requires new { passes.items ≡ new_passes PASSES }
    requires passes { N.passes ≡ map (λ pass. pass.number) (new_passes PASSES) }
{
    let seats = seated(passes)?;
    goes::<N, W, R, Brand>(Blank::new(1), rt, alloc, desk, seats)
}

/// The same over a new board of this name.
fn goes_named<N: NodeName, W: Wait>(
    rt: &W,
    alloc: Global,
    book: NewBook,
) -> Result<Finished, Memory>
    requires book { book ≡ N.book }
    requires options { N.options ≡ record { mode = Default; localhost = true; map_max = Some LIMIT } }
    requires passes { N.passes ≡ map (λ pass. pass.number) (new_passes PASSES) }
{
    let (desk, passes) = open::<N, W>(rt, alloc, book)?;
    let mut desk = desk;
    let finished = goes_seated(rt, alloc, &mut desk, passes);
    desk.close(rt);
    finished
}

fn gone<W: Wait>(rt: &W, alloc: Global) -> Result<Finished, Memory> {
    goes_named::<Brand, W>(rt, alloc, NewBook::new())
}

#[test]
fn an_endpoint_goes_while_its_map_is_made(rt: HostRuntime) -> Result<(), Fail> {
    let finished = gone(&rt, rt.alloc())?;
    assert!(rt; finished == Finished::Gone);
    Ok(())
}
