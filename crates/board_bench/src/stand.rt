//! A desk over a new board.
ghost use Rattle.std.specs.Prelude.{◌≡◌, ◌<◌, ◌≤◌, Some, IfOk, map, true};
ghost use Rattle.pol_board.specs.Counts.{new_passes};
ghost use Rattle.pol_history.specs.Meet.{has};
ghost use Rattle.pol_model.specs.declared.options.Mode.TheVariants.{Default};

use pol_board::{Board, NewBook};
use pol_data::Memory;
use pol_model::Mode;
use pol_node::{Desk, NodeName, Pass, Slot};
use pol_repo::Repo;
use std::alloc::Global;
use std::sync::Wait;

/// Maps of more entries aren't published.
pub(crate) const LIMIT: u32 = 65_536;

/// How many passes a board has, and how many of the last ones may look.
#[derive(Clone, Copy)]
pub(crate) struct BoardPlaces {
    pub(crate) passes: u32,
    pub(crate) readers: u32,
}

/// As many passes as a board can have.
pub(crate) fn places_for(readers: u32) -> BoardPlaces
    ensures passes { (0 < result.passes) × (result.passes ≤ 300) }
    ensures readers { (0 < result.readers) × (result.readers ≤ result.passes) }
{
    BoardPlaces {
        passes: 300,
        readers: readers.max(1).min(300),
    }
}

/// Who has which pass.
#[derive(Drop)]
pub(crate) struct Seats<N: NodeName> {
    /// It commits.
    pub(crate) commits: Pass<N>,
    /// It looks.
    pub(crate) looks: Pass<N>,
    /// The slot of the first endpoint.
    pub(crate) slot: Slot<N>,
    /// The passes of the other slots.
    pub(crate) others: Vec<Pass<N>>,
}

/// The pass that commits, and the seats of the others.
pub(crate) fn seated<N: NodeName>(
    commits: Pass<N>,
    passes: Vec<Pass<N>>,
) -> Result<Seats<N>, Memory>
    ensures { IfOk result (λ seats. seats.commits.number ≡ commits.number) }
{
    let mut others = passes;
    let Some(looks) = others.pop() else {
        return Err(Memory);
    };
    let Some(first) = others.pop() else {
        return Err(Memory);
    };
    Ok(Seats {
        commits,
        looks,
        slot: Slot::open(first, LIMIT as u64),
        others,
    })
}

/// The desk of the node of this name over a new board, the last of its passes, and the others. There may be no memory, or no
/// place.
#[tactic(auto, using(pol_node::proofs::Handed::last_handed_out))]
pub(crate) fn open<N: NodeName, W: Wait>(
    rt: &W,
    alloc: Global,
    book: NewBook,
    places: BoardPlaces,
) -> Result<(Desk<N, &W>, Pass<N>, Vec<Pass<N>>), Memory>
    requires book { book ≡ N.book }
    requires options { N.options ≡ record { mode = Default; localhost = true; map_max = Some LIMIT } }
    requires passes { N.passes ≡ map (λ pass. pass.number) (new_passes places.passes) }
    requires some { (0 < places.passes) × (places.passes ≤ 300) }
    requires readers { (0 < places.readers) × (places.readers ≤ places.passes) }
    ensures { IfOk result (λ made. has N.passes made.1.number ≡ true) }
{
    let Ok((writer, passes)) = Board::with_readers::<N, &W>(
        rt,
        alloc,
        book,
        Mode::Default,
        true,
        LIMIT,
        places.passes,
        places.readers,
    ) else {
        return Err(Memory);
    };
    let mut passes = passes;
    let Some(commits) = passes.pop() else {
        writer.close(rt);
        return Err(Memory);
    };
    match Repo::new(alloc, Mode::Default, true) {
        Ok(repo) => Ok((Desk::open(repo, writer, LIMIT), commits, passes)),
        Err(_) => {
            writer.close(rt);
            Err(Memory)
        }
    }
}
