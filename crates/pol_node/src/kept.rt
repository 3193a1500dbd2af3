//! What a slot keeps of its endpoint.
ghost use Rattle.std.specs.Prelude.{◌≡◌, ◌≢◌, false, IsTrue, option_map};
ghost use Rattle.pol_history.specs.Commits.{same_endpoint};
ghost use Rattle.pol_history.specs.Machine.{endpoint_id};
ghost use Rattle.pol_slot_map.specs.Followed.{id_in};
ghost use Rattle.pol_node.specs.Kept.{is_of_other, kept_unless, known, report_in, since_of};
ghost use Rattle.pol_node.specs.TakenFor.{told_of};

use pol_history::LastReport;
use pol_repo::EndpointRow;
use pol_slot_map::Followed;
use pol_taken::{TakeError, Taken};

/// An endpoint that is followed, and its last report, if there is one.
#[derive(Drop)]
pub(crate) struct KeptEndpoint {
    pub(crate) followed: Followed,
    pub(crate) last: Option<LastReport>,
}

/// What the board's history has of a slot's endpoint, beside what is kept.
#[derive(Clone, Copy)]
pub(crate) enum Found {
    /// No live endpoint has the slot.
    Gone,
    /// The endpoint's last report, if there is one, is the one that is kept.
    Still,
    /// The endpoint's last report is another one than is kept.
    Overtaken,
}

/// Why nothing was taken of a slot's endpoint.
#[derive(Clone, Copy)]
pub(crate) enum NotTaken {
    /// No live endpoint has the slot.
    Gone,
    /// Want of memory.
    Memory,
    /// The endpoint's last report is another one than is kept.
    Overtaken,
}

impl KeptEndpoint {
    /// Whether the row is that of the endpoint.
    fn is_of(&self, row: &EndpointRow) -> bool
        ensures { result ≡ same_endpoint (id_in self.now.followed) (endpoint_id row.now) }
    {
        self.followed.name == row.name && self.followed.added == row.added
    }
}

/// The last report of the row's endpoint, as it is kept.
pub(crate) fn last_kept(kept: &Option<KeptEndpoint>, row: &EndpointRow) -> Option<LastReport>
    ensures { result ≡ known (option_map report_in kept.now) (endpoint_id row.now) }
{
    match kept {
        Some(kept) => { if kept.is_of(row) { kept.last } else { None } }
        None => None,
    }
}

/// Whether what is kept is of another endpoint than that of the row.
pub(crate) fn is_other(kept: &Option<KeptEndpoint>, row: &EndpointRow) -> bool
    ensures { result ≡ is_of_other (endpoint_id row.now) kept.now }
{
    match kept {
        Some(kept) => !kept.is_of(row),
        None => false,
    }
}

/// What is kept is let go, where it is lost.
pub(crate) fn let_go(kept: &mut Option<KeptEndpoint>, lost: bool)
    ensures { kept.new ≡ kept_unless lost kept.old }
{
    if lost {
        *kept = None;
    }
}

/// What a take of the repository tells, as one for a slot.
pub(crate) fn told(taken: Result<Taken, TakeError>) -> Result<Taken, NotTaken>
    ensures { result ≡ told_of taken }
{
    match taken {
        Ok(taken) => Ok(taken),
        Err(TakeError::Gone) => Err(NotTaken::Gone),
        Err(TakeError::Memory) => Err(NotTaken::Memory),
    }
}

/// The revision of the map that was made last.
pub(crate) fn since(kept: &Option<KeptEndpoint>) -> Option<u64>
    ensures { result ≡ since_of kept.now }
{
    match kept {
        Some(kept) => Some(kept.followed.kept),
        None => None,
    }
}

/// Whether both are one report, or there is none.
pub(crate) fn is_same_report(one: Option<LastReport>, other: Option<LastReport>) -> bool
    ensures same { IsTrue result → one ≡ other }
    ensures other { result ≡ false → one ≢ other }
{
    one == other
}
