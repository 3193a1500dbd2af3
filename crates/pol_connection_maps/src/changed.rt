//! The connections that a change opens or shuts, or of which it changes a half.
ghost use Rattle.std.specs.Prelude.{◌≡◌, IfOk};
ghost use Rattle.pol_port_ranges.specs.Ranges.{ranges};
ghost use Rattle.pol_connection_maps.specs.Lists.{changed_list};
ghost use Rattle.pol_connection_maps.specs.Seen.{seen_changed};
ghost use Rattle.pol_connection_maps.specs.Stays.{AreOfMaps, HaveTheirMaps};
ghost use Rattle.pol_connection_maps.specs.Telling.{telling_changed};

use crate::kept::KeptEnd;
use crate::open::is_asked;
use crate::targets::told_list;
use crate::told::Tells;
use pol_connections::{Connection, EndName};
use pol_data::Memory;
use pol_port_ranges::Range;
use pol_ports::{Direction, Proto};
use pol_shut_ports::changed_ranges;
use std::alloc::Global;

/// The ranges of ports of the protocol on which a change is told of a connection of the two ends.
fn ranges_changed(
    alloc: Global,
    from: &KeptEnd<'_>,
    to: &KeptEnd<'_>,
    proto: Proto,
) -> Result<Vec<Range>, Memory>
    ensures { IfOk result (λ made. made.items ≡ ranges (seen_changed from.now to.now proto)) }
{
    let (was_from, was_to) = (from.before(), to.before());
    let (is_from, is_to) = (from.after(), to.after());
    let sent_before = was_from.at(Direction::Egress, was_to.number(), proto);
    let received_before = was_to.at(Direction::Ingress, was_from.number(), proto);
    let sent = is_from.at(Direction::Egress, is_to.number(), proto);
    let received = is_to.at(Direction::Ingress, is_from.number(), proto);
    changed_ranges(
        alloc,
        from.by_halves(),
        sent_before,
        received_before,
        sent,
        received,
    )
}

impl<'a> Tells for KeptEnd<'a> {
    ghost telling = { telling_changed };

    ghost stands = { HaveTheirMaps };

    type Key = ((u32, bool), (u32, bool));

    fn name(&self) -> &EndName {
        self.after().name()
    }

    fn key(&self) -> ((u32, bool), (u32, bool)) {
        (self.before().key(), self.after().key())
    }

    fn is_alike(&self, other: &KeptEnd<'a>) -> bool {
        self.is_of_kind(other)
    }

    fn asks(&self, to: &KeptEnd<'a>) -> bool {
        is_asked(self.after(), to.after())
    }

    fn ranges_to(
        &self,
        alloc: Global,
        to: &KeptEnd<'a>,
        proto: Proto,
    ) -> Result<Vec<Range>, Memory> {
        if self.stays_with(to) {
            return Ok(Vec::new(alloc));
        }
        ranges_changed(alloc, self, to, proto)
    }
}

/// The connections of these ends of which a change is told.
pub(crate) fn changed_list(alloc: Global, ends: &[KeptEnd<'_>]) -> Result<Vec<Connection>, Memory>
    requires { AreOfMaps HaveTheirMaps ends.now }
    ensures { IfOk result (λ list. list.items ≡ changed_list ends.now) }
{
    told_list(alloc, ends)
}
