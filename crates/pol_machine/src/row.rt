//! What is kept of a live endpoint, and what a look-up finds in it.
ghost use Rattle.std.specs.Prelude.{◌≡◌, ◌+◌, ◌≤◌, option_map};
ghost use Rattle.std.specs.FinMap as finite;
ghost use Rattle.pol_mapkey.specs.Entries.{read_map};
ghost use Rattle.pol_history.specs.LookIn.{look_map, look_row, number_shown};
ghost use Rattle.pol_history.specs.Machine.{reply_found};
ghost use Rattle.pol_machine.specs.Rows.{by_name, map_held, row_held};

use crate::double::DoubleTrie;
use indexmap::IndexMap;
use pol_data::{Steps, Text};
use pol_history::{LastReport, Reply};
use pol_model::{Query, Remote};
use pol_prefixes::Addresses;
use pol_slot_map::Followed;
use std::sync::Arc;
use std::sync::ledger::Ledger;

/// A published map, with what each address was at its revision.
#[derive(Drop)]
pub struct MachineMap {
    /// The revision of the map.
    pub revision: u64,
    /// The map.
    pub trie: DoubleTrie,
    /// What each address was.
    pub addresses: Arc<Addresses>,
}

/// A live endpoint.
#[derive(Drop)]
pub struct MachineRow {
    /// The revision that added it.
    pub added: u64,
    /// Its last report.
    pub report: Option<LastReport>,
    /// Its last published map.
    pub map: Option<MachineMap>,
    /// The map that was made of it last, with what it is made of.
    pub work: Option<Followed>,
    /// How many entries the map has that was reported last, where it was too large.
    pub full: Option<u64>,
}

/// The live endpoints, by name.
pub(crate) type Rows = IndexMap<Text, MachineRow>;

/// The number that a query's remote had at the map's revision.
fn number_of(shown: &MachineMap, remote: Remote) -> u32
    ensures { result ≡ number_shown (map_held shown.now) remote }
{
    match remote {
        Remote::Identity(number) => number,
        Remote::Address(address) => shown.addresses.remote(address),
    }
}

/// What the published map says of a packet.
fn look_at_map<L: Ledger>(
    commits: u64,
    map: &Option<MachineMap>,
    query: &Query,
    steps: &mut Steps<L>,
) -> Reply
    ensures found { result ≡ reply_found (look_map commits query.now (option_map map_held map.now)) }
    ensures forward { steps.old ≤ steps.new }
    ensures cost { steps.new ≤ steps.old + 36 }
{
    match map {
        None => Reply::NotYet(commits),
        Some(shown) => {
            let number = number_of(shown, query.remote);
            let word = shown
                .trie
                .look(query.dir, number, query.proto, query.port, steps);
            Reply::Verdict {
                revision: shown.revision,
                word,
            }
        }
    }
}

/// What a look-up finds in the rows, after so many commits, with at most 36 steps. It takes no memory.
pub(crate) fn look<L: Ledger>(
    commits: u64,
    rows: &Rows,
    query: &Query,
    steps: &mut Steps<L>,
) -> Reply
    ensures found { result
        ≡ reply_found (look_row commits query.now (option_map row_held (by_name rows.now query.now.endpoint))) }
    ensures forward { steps.old ≤ steps.new }
    ensures cost { steps.new ≤ steps.old + 36 }
{
    match rows.get(&query.endpoint) {
        None => Reply::NoEndpoint(commits),
        Some(row) => look_at_map(commits, &row.map, query, steps),
    }
}
