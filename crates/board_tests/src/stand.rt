//! A desk over a new board and a new repository.
ghost use Rattle.std.specs.Prelude.{◌≡◌, Some, IfOk, true};
ghost use Rattle.pol_board.specs.Counts.{new_passes};
ghost use Rattle.pol_history.specs.Meet.{has};
ghost use Rattle.pol_model.specs.declared.options.Mode.TheVariants.{Default};

use pol_board::{Board, NewBook};
use pol_data::{Memory, Steps};
use pol_model::{Mode, Request};
use pol_node::{Desk, NodeName, Pass};
use pol_repo::Repo;
use std::alloc::Global;
use std::sync::ledger::Ledger;
use std::sync::{Mutex, MutexGuard, Wait};

/// Maps of more entries aren't published.
pub(crate) const LIMIT: u32 = 16_384;

/// As many passes as the tests need.
pub(crate) const PASSES: u32 = 4;

/// Who has which pass.
#[derive(Drop)]
pub(crate) struct Seats<N: NodeName> {
    /// It commits.
    pub(crate) commits: Pass<N>,
    /// It is the slot's.
    pub(crate) slot: Pass<N>,
    /// It looks.
    pub(crate) one: Pass<N>,
    /// It looks too.
    pub(crate) other: Pass<N>,
}

/// The passes of a new board, one by one.
pub(crate) fn seated<N: NodeName>(passes: Vec<Pass<N>>) -> Result<Seats<N>, Memory>
    requires { passes.items ≡ new_passes PASSES }
    ensures { IfOk result (λ seats. seats.commits.number ≡ 3) }
{
    let mut passes = passes;
    let Some(commits) = passes.pop() else {
        return Err(Memory);
    };
    let Some(slot) = passes.pop() else {
        return Err(Memory);
    };
    let Some(one) = passes.pop() else {
        return Err(Memory);
    };
    let Some(other) = passes.pop() else {
        return Err(Memory);
    };
    Ok(Seats {
        commits,
        slot,
        one,
        other,
    })
}

/// The desk of the node of this name, and its passes, which may all commit. There may be no memory, or no place.
pub(crate) fn open<N: NodeName, W: Wait>(
    rt: &W,
    alloc: Global,
    book: NewBook,
) -> Result<(Desk<N, &W>, Vec<Pass<N>>), Memory>
    requires book { book ≡ N.book }
    requires options { N.options ≡ record { mode = Default; localhost = true; map_max = Some LIMIT } }
    ensures { IfOk result (λ made. made.1.items ≡ new_passes PASSES) }
{
    let Ok((writer, passes)) = Board::new::<N, &W>(
        rt,
        alloc,
        book,
        Mode::Default,
        true,
        LIMIT,
        PASSES,
    ) else {
        return Err(Memory);
    };
    match Repo::new(alloc, Mode::Default, true) {
        Ok(repo) => Ok((Desk::open(repo, writer, LIMIT), passes)),
        Err(_) => {
            writer.close(rt);
            Err(Memory)
        }
    }
}

/// Commits the request. A refusal is want of memory here.
pub(crate) fn commit<N: NodeName, W: Wait, R: Wait + Drop, L: Ledger>(
    rt: &W,
    alloc: Global,
    desk: &mut Desk<N, R>,
    pass: &mut Pass<N>,
    request: Request,
    steps: &mut Steps<L>,
) -> Result<(), Memory>
    requires handed_out { has N.passes pass.old.number ≡ true }
    ensures number { pass.new.number ≡ pass.old.number }
{
    if !request.is_short() {
        drop(request);
        return Err(Memory);
    }
    match desk.commit(rt, alloc, pass, request, steps) {
        Ok(_) => Ok(()),
        Err(_) => Err(Memory),
    }
}

/// The same under the desk's lock.
pub(crate) fn commit_under<N: NodeName, W: Wait, R: Wait + Drop, L: Ledger>(
    rt: &W,
    alloc: Global,
    desk: &Mutex<Desk<N, R>>,
    pass: &mut Pass<N>,
    request: Request,
    steps: &mut Steps<L>,
) -> Result<(), Memory>
    requires handed_out { has N.passes pass.old.number ≡ true }
    ensures number { pass.new.number ≡ pass.old.number }
{
    let mut desk = desk.lock(rt);
    let done = commit(rt, alloc, &mut desk, pass, request, steps);
    MutexGuard::unlock(desk);
    done
}
