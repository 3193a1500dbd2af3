//! What one session asks of a machine, and what it is answered.
ghost use Rattle.std.specs.Prelude.{◌↔◌, IsTrue};
ghost use Rattle.pol_machine.specs.Short.{IsShortAsked};

use pol_history::Reply;
use pol_model::{FullList, Query, Request, Trace};

/// A question of a serial run.
#[derive(Debug, Drop)]
pub enum Asked {
    /// A request is committed, where it has no fault.
    Commit(Request),
    /// The slot of each live endpoint is taken and finished, in the order of the slots.
    Sync,
    /// A verdict is asked for.
    Look(Query),
    /// Why a packet is allowed or denied, in the present state.
    Explain(Query),
}

impl Asked {
    /// Whether the lists of a commit's request have fewer than 2 ^ 32 items.
    pub fn is_short(&self) -> bool
        ensures { IsTrue result ↔ IsShortAsked self.now }
    {
        match self {
            Asked::Commit(request) => request.is_short(),
            _ => true,
        }
    }
}

/// An answer of a serial run.
#[derive(Debug, Drop)]
pub enum SerialAnswer {
    /// To a commit and to a look: the machine's reply. To an explanation: no endpoint of that name is live.
    Replied(Reply),
    /// To a sync: its revision, and the live endpoints whose maps are too large.
    Synced {
        /// How many commits there were.
        revision: u64,
        /// A row of each map that is too large.
        full: FullList,
    },
    /// To an explanation: the reasons.
    Traced {
        /// How many commits there were.
        revision: u64,
        /// Why the packet is allowed or denied.
        trace: Trace,
    },
}
