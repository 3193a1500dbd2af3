//! The sets of peers, found by a hash of the peer.
ghost use Rattle.std.specs.Prelude.{◌≡◌, IfOk, IsTrue};
ghost use Rattle.pol_sets.specs.Sets.{has_set, set_given};

use pol_data::Memory;
use pol_rule::Peer;
use pol_sets::{IdSet, SetRow};
use std::alloc::Global;
use std::collections::HashMap;
use std::marker::Model;

/// Rows of peers and sets, with the first row of each peer in a table. A contract sees it as the list of the rows.
#[derive(Drop)]
pub(crate) struct PeerSets<'a> {
    rows: &'a [SetRow],
    table: HashMap<&'a Peer, &'a IdSet>,
}

impl<'a> Model for PeerSets<'a> {
    ghost use Rattle.std.specs.Prelude.{List};
    ghost use Rattle.pol_sets.specs.declared.sets.SetRow.{SetRow as OneRow};
    ghost use Rattle.pol_distill.specs.Indexed.{IsIndexOf};

    ghost Value = { List OneRow };

    ghost view = { λ sets. sets.rows.now };

    ghost invariant = { λ sets. IsIndexOf sets.table sets.rows.now };
}

impl<'a> PeerSets<'a> {
    /// The table of these rows. The one error is want of memory.
    pub(crate) fn new(alloc: Global, rows: &'a [SetRow]) -> Result<PeerSets<'a>, Memory>
        ensures { IfOk result (λ sets. sets ≡ rows.now) }
    {
        let mut table: HashMap<&'a Peer, &'a IdSet> = HashMap::with_capacity(alloc, rows.len())?;
        for i in (0..rows.len()).rev() {
            let row = &rows[i];
            table.insert(row.peer.peer(), &row.set)?;
        }
        Ok(PeerSets { rows, table })
    }

    /// The numbers that the peer's first row gives it.
    pub(crate) fn set_of(&self, peer: &Peer) -> &'a IdSet
        requires { IsTrue (has_set self.now peer.now) }
        ensures { result.now ≡ set_given self.now peer.now }
    {
        match self.table.get(&peer) {
            Some(set) => *set,
            None => unreachable!(),
        }
    }
}
