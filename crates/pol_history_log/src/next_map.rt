//! The map that is to be published.
ghost use Rattle.std.specs.Prelude.{◌≡◌};
ghost use Rattle.std.specs.Option.{option_copied};
ghost use Rattle.pol_history_log.specs.NextMap.{next_entries};

use pol_map_changes::ChangeList;
use pol_trie::PolicyTrie;
use std::marker::Model;

/// The map that an endpoint is to have next, as a board has it in hand: the one that was published last, if there is one, and
/// the changes that lead on from it. Contracts see it as its entries.
#[derive(Drop)]
pub struct NextMap<'a> {
    last: Option<&'a PolicyTrie>,
    changes: &'a ChangeList,
}

impl<'a> Model for NextMap<'a> {
    ghost use Rattle.std.specs.Prelude.{List};
    ghost use Rattle.std.specs.Option.{option_copied};
    ghost use Rattle.pol_mapkey.specs.Entries.{Entry as MapEntry};
    ghost use Rattle.pol_history_log.specs.NextMap.{next_entries};

    ghost Value = { List MapEntry };

    ghost view = { λ next. next_entries (option_copied next.last) next.changes.now };
}

impl<'a> NextMap<'a> {
    /// What the changes make of the map that was published last, of the empty one where there is none. It takes no memory.
    pub fn of(last: Option<&'a PolicyTrie>, changes: &'a ChangeList) -> NextMap<'a>
        ensures { result ≡ next_entries (option_copied last.entry) changes.now }
    {
        NextMap { last, changes }
    }
}
