//! What was seen, without the name of the node.
ghost use Rattle.std.specs.Prelude.{◌≡◌, length};
ghost use Rattle.pol_history.specs.Legal.{IsLegal};

use crate::book::Law;
use crate::name::NodeName;
use crate::seen::Seen;
use logbook::Seen as Reached;
use pol_history::HistoryEvent;
use std::marker::Model;

/// A history that was seen, as a value without the name of its node: it leaves the function that picked the name, as what a
/// run gives back. Contracts see it as its events; it keeps their number alone.
#[derive(Drop)]
pub struct SeenHistory {
    events: u64,
    reached: Reached<HistoryEvent, u64, Law>,
}

impl Model for SeenHistory {
    ghost use Rattle.std.specs.Prelude.{◌≡◌, List, length};
    ghost use Rattle.pol_history.specs.declared.event.HistoryEvent.{HistoryEvent as OneEvent};

    ghost Value = { List OneEvent };

    ghost view = { λ s. s.reached.log };

    ghost invariant = { λ s. s.events ≡ length s.reached.log };
}

impl SeenHistory {
    /// How many events it has.
    pub fn len(&self) -> u64
        ensures { result ≡ length self.now }
    {
        self.events
    }
}

impl<N: NodeName> Seen<N> {
    /// The same events, without the name. It takes no memory.
    pub fn history(&self) -> SeenHistory
        ensures same { result ≡ self.now }
        ensures legal { IsLegal N.options result }
    {
        SeenHistory {
            events: self.events,
            reached: self.reached.again(),
        }
    }
}
