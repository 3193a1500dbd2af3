//! The open connections of a state.
ghost use Rattle.std.specs.Prelude.{◌≡◌, IfOk};
ghost use Rattle.pol_connection_maps.specs.Lists.{open_list};
ghost use Rattle.pol_connection_maps.specs.Seen.{seen_asked};
ghost use Rattle.pol_connection_maps.specs.Stays.{AreOfMaps, HasItsMap};
ghost use Rattle.pol_connection_maps.specs.Telling.{telling_alone};

use crate::end_map::EndMap;
use crate::stays::are_of_one_kind;
use crate::targets::told_list;
use crate::told::Tells;
use pol_connections::{Connection, EndName};
use pol_data::Memory;
use pol_port_ranges::Range;
use pol_ports::{Direction, Proto};
use pol_shut_ports::open_ranges;
use std::alloc::Global;

/// Whether one of the two ends has a policy.
pub(crate) fn is_asked(from: &EndMap, to: &EndMap) -> bool
    ensures { result ≡ seen_asked from.now to.now }
{
    from.has_policy() || to.has_policy()
}

impl Tells for EndMap {
    ghost telling = { telling_alone };

    ghost stands = { λ maps end. HasItsMap maps.after end };

    type Key = (u32, bool);

    fn name(&self) -> &EndName {
        self.name()
    }

    fn key(&self) -> (u32, bool) {
        (self.number(), self.has_policy())
    }

    fn is_alike(&self, other: &EndMap) -> bool {
        are_of_one_kind(self, other)
    }

    fn asks(&self, to: &EndMap) -> bool {
        is_asked(self, to)
    }

    fn ranges_to(&self, alloc: Global, to: &EndMap, proto: Proto) -> Result<Vec<Range>, Memory> {
        let sent = self.at(Direction::Egress, to.number(), proto);
        let received = to.at(Direction::Ingress, self.number(), proto);
        open_ranges(alloc, sent, received)
    }
}

/// The open connections of these ends.
pub(crate) fn open_list(alloc: Global, ends: &[EndMap]) -> Result<Vec<Connection>, Memory>
    requires { AreOfMaps (λ maps end. HasItsMap maps.after end) ends.now }
    ensures { IfOk result (λ list. list.items ≡ open_list ends.now) }
{
    told_list(alloc, ends)
}
