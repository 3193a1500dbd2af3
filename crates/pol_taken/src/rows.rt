//! Rows of sets, one for each selector.
ghost use Rattle.std.specs.Prelude.{◌≡◌, ◌++◌, ◌∷◌, [], IfOk, OnOk};
ghost use Rattle.pol_taken.specs.PeerRows.{has_selector};

use pol_data::Memory;
use pol_sets::{SetRow, Sets};
use std::alloc::Global;
use std::collections::HashSet;
use std::marker::Model;

/// Rows of sets, with the numbers of their selectors. Contracts see the list of the rows.
#[derive(Drop)]
pub(crate) struct Rows {
    rows: Vec<SetRow>,
    selectors: HashSet<u64>,
}

impl Model for Rows {
    ghost use Rattle.std.specs.Prelude.{List};
    ghost use Rattle.pol_sets.specs.declared.sets.SetRow.{SetRow as OneRow};
    ghost use Rattle.pol_taken.specs.PeerRows.{AreSelectorsOf};

    ghost Value = { List OneRow };

    ghost view = { λ rows. rows.rows.items };

    ghost invariant = { λ rows. AreSelectorsOf rows.selectors rows.rows.items };
}

impl Rows {
    /// No row. It takes no memory.
    pub(crate) fn new(alloc: Global) -> Rows
        ensures none { result ≡ [] }
    {
        Rows {
            rows: Vec::new(alloc),
            selectors: HashSet::new(alloc),
        }
    }

    /// Whether some row is the selector's.
    pub(crate) fn has(&self, selector: u64) -> bool
        ensures has { result ≡ has_selector selector self.now }
    {
        self.selectors.contains(&selector)
    }

    /// One row more, at the end. The one error is want of memory.
    pub(crate) fn push(&mut self, row: SetRow) -> Result<(), Memory>
        ensures pushed { OnOk result (self.new ≡ self.old ++ row ∷ []) }
    {
        self.rows.reserve(1)?;
        self.selectors.insert(row.selector)?;
        self.rows.push_reserved(row);
        Ok(())
    }

    /// The rows. The one error is want of memory.
    pub(crate) fn into_sets(self, alloc: Global) -> Result<Sets, Memory>
        ensures rows { IfOk result (λ sets. sets ≡ self) }
    {
        Sets::from_vec(alloc, self.rows)
    }
}
