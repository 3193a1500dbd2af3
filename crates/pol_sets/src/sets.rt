//! Which set each peer selects, and how a set changes.
ghost use Rattle.std.specs.Prelude.{◌≡◌, IfOk};

use crate::{IdSet, SharedPeer};
use pol_data::{Items, Memory};
use std::alloc::Global;
use std::marker::Model;
use std::sync::Arc;

/// What a selector's set gained and lost.
#[derive(Debug, Drop)]
pub struct Move {
    /// The number of the selector.
    pub selector: u64,
    /// The numbers that it has now and had not.
    pub gained: IdSet,
    /// The numbers that it had and has no more.
    pub lost: IdSet,
}

/// A list of moves.
pub type Moves = Items<Move>;

/// Which identity numbers a peer selects.
#[derive(Debug, Drop)]
pub struct SetRow {
    /// The peer, which is shared.
    pub peer: SharedPeer,
    /// The number of its selector.
    pub selector: u64,
    /// The allocated numbers that it selects.
    pub set: Arc<IdSet>,
}

/// Which identity numbers each of some peers selects: rows that are made once, and shared by whoever has them. A contract
/// sees the list of the rows.
#[derive(Debug, Drop)]
pub struct Sets {
    rows: Arc<Items<SetRow>>,
}

impl Model for Sets {
    ghost use Rattle.std.specs.Prelude.{List};
    ghost use Rattle.std.specs.Arc.{arc_value};
    ghost use Rattle.pol_sets.specs.declared.sets.SetRow.{SetRow as OneRow};

    ghost Value = { List OneRow };

    ghost view = { λ sets. arc_value sets.rows };
}

impl Sets {
    /// These rows. The one error is want of memory.
    pub fn from_vec(alloc: Global, rows: Vec<SetRow>) -> Result<Sets, Memory>
        ensures rows { IfOk result (λ sets. sets ≡ rows.items) }
    {
        Ok(Sets {
            rows: Arc::new(alloc, Items::from_vec(rows))?,
        })
    }

    /// The rows.
    pub fn as_slice(&self) -> &[SetRow]
        ensures rows { result.now ≡ self.now }
    {
        self.rows.as_slice()
    }

    /// The same rows once more, which are counted and not copied. It takes no memory: the one error is that the count is at its end.
    pub fn share(&self) -> Result<Sets, Memory>
        ensures same { IfOk result (λ sets. sets ≡ self.now) }
    {
        Ok(Sets {
            rows: Arc::try_clone(&self.rows)?,
        })
    }
}
