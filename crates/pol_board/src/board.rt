//! A new board.
ghost use Rattle.std.specs.Prelude.{◌≡◌, ◌<◌, ◌≤◌, [], Some, IfOk, replicate};
ghost use Rattle.pol_board.specs.Counts.{new_passes};

use crate::error::BoardError;
use crate::pass::Pass;
use crate::writer::BoardWriter;
use left_right::{ReadHandle, WriteHandle};
use pol_board_view::{Face, FaceOp};
use pol_history_log::{NewBook, NodeName};
use pol_model::Mode;
use std::alloc::Global;
use std::sync::Wait;

/// The board, by the call that makes it.
pub struct Board;

impl Board {
    /// The writer of an empty board, and its passes, which have different numbers. The name tells the book and the options.
    ///
    /// `NoPlace` is that a place to read at was refused, and `Memory` want of memory.
    pub fn new<N: NodeName, R: Wait + Drop>(
        rt: R,
        alloc: Global,
        book: NewBook,
        mode: Mode,
        localhost: bool,
        map_max: u32,
        places: u32,
    ) -> Result<(BoardWriter<N, R>, Vec<Pass<N>>), BoardError>
        requires book { book ≡ N.book }
        requires options { N.options ≡ record { mode = mode; localhost = localhost; map_max = Some map_max } }
        requires places { (0 < places) × (places ≤ 300) }
        requires limit { map_max ≤ 65536 }
        ensures { IfOk result (λ made. (made.0.seen ≡ []) × (made.1.items ≡ new_passes places)) }
    {
        Board::with_readers(rt, alloc, book, mode, localhost, map_max, places, places)
    }

    /// `Board::new`, where only so many of the last passes may look. The others have no place to read at, and a look of theirs
    /// is `NoGuard`. A publication goes through all places to read at, so those that nobody would use are spared.
    pub fn with_readers<N: NodeName, R: Wait + Drop>(
        rt: R,
        alloc: Global,
        book: NewBook,
        mode: Mode,
        localhost: bool,
        map_max: u32,
        places: u32,
        readers: u32,
    ) -> Result<(BoardWriter<N, R>, Vec<Pass<N>>), BoardError>
        requires book { book ≡ N.book }
        requires options { N.options ≡ record { mode = mode; localhost = localhost; map_max = Some map_max } }
        requires places { (0 < places) × (places ≤ 300) }
        requires readers { (0 < readers) × (readers ≤ places) }
        requires limit { map_max ≤ 65536 }
        ensures { IfOk result (λ made. (made.0.seen ≡ []) × (made.1.items ≡ new_passes places)) }
    {
        let _ = (mode, localhost, map_max);
        let (book, seen) = book.named::<N>();
        let Ok(counts) = zeros(alloc, places as u64) else {
            return Err(BoardError::Memory);
        };
        let Ok(board) = WriteHandle::new(
            alloc,
            rt,
            Face::new(alloc, &seen),
            Face::new(alloc, &seen),
            readers as usize,
        ) else {
            return Err(BoardError::Memory);
        };
        let mut passes = Vec::new(alloc);
        for number in 0..places {
            let Ok(handle) = handle_of(&board, number, places - readers) else {
                drop(board);
                return Err(BoardError::NoPlace);
            };
            let Ok(_) = passes.push(Pass::new(number as u64, &seen, handle)) else {
                drop(board);
                return Err(BoardError::Memory);
            };
        }
        Ok((BoardWriter::open(seen, book, board, counts), passes))
    }
}

/// A handle for looks, for a pass from this number on.
fn handle_of<N: NodeName, R: Wait + Drop>(
    board: &WriteHandle<Face<N>, FaceOp<N>, R>,
    number: u32,
    first: u32,
) -> Result<Option<ReadHandle<Face<N>>>, BoardError> {
    if number < first {
        return Ok(None);
    }
    match board.handle() {
        Ok(handle) => Ok(Some(handle)),
        Err(_) => Err(BoardError::NoPlace),
    }
}

/// As many zeros.
fn zeros(alloc: Global, count: u64) -> Result<Vec<u64>, BoardError>
    ensures { IfOk result (λ all. all.items ≡ replicate count 0) }
{
    let mut all = Vec::new(alloc);
    for _ in 0..count {
        let Ok(_) = all.push(0) else {
            return Err(BoardError::Memory);
        };
    }
    Ok(all)
}
