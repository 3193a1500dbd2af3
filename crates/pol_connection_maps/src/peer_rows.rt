//! The sets of peers, found by a hash of the peer.
ghost use Rattle.std.specs.Prelude.{◌≡◌, IfOk, List, map, option_map};
ghost use Rattle.std.specs.Arc.{arc_value};
ghost use Rattle.pol_connection_maps.specs.PeerRows.{first_row};

use pol_data::Memory;
use pol_rule::Peer;
use pol_sets::SetRow;
use std::alloc::Global;
use std::collections::HashMap;
use std::marker::Model;

/// Rows of peers and sets, with the first row of each peer in a table that all subjects of a state share. A contract sees it as
/// the list of the rows.
#[derive(Drop)]
pub(crate) struct PeerRows<'a> {
    rows: &'a [SetRow],
    table: HashMap<&'a Peer, &'a SetRow>,
}

impl<'a> Model for PeerRows<'a> {
    ghost use Rattle.std.specs.Prelude.{List};
    ghost use Rattle.pol_sets.specs.declared.sets.SetRow.{SetRow as OneRow};
    ghost use Rattle.pol_connection_maps.specs.PeerRows.{IsTableOf};

    ghost Value = { List OneRow };

    ghost view = { λ sets. sets.rows.now };

    ghost invariant = { λ sets. IsTableOf sets.table sets.rows.now };
}

impl<'a> PeerRows<'a> {
    /// The table of these rows.
    pub(crate) fn new(alloc: Global, rows: &'a [SetRow]) -> Result<PeerRows<'a>, Memory>
        ensures { IfOk result (λ sets. sets ≡ rows.now) }
    {
        let mut table: HashMap<&'a Peer, &'a SetRow> = HashMap::with_capacity(alloc, rows.len())?;
        for i in (0..rows.len()).rev() {
            let row = &rows[i];
            table.insert(row.peer.peer(), row)?;
        }
        Ok(PeerRows { rows, table })
    }

    /// The first row of the peer, if it has one.
    pub(crate) fn get(&self, peer: &Peer) -> Option<&'a SetRow>
        ensures { option_map (λ row. row.now) result ≡ first_row self.now peer.now }
    {
        match self.table.get(&peer) {
            Some(row) => Some(*row),
            None => None,
        }
    }
}
