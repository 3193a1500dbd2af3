//! What is told of the connections between ends, whatever an end is.
ghost use Rattle.std.specs.Prelude.{◌≡◌, ◌++◌, IfOk, IsTrue, OnOk, map};
ghost use Rattle.pol_port_ranges.specs.Ranges.{ranges};
ghost use Rattle.pol_connection_maps.specs.Stays.{StateMaps};
ghost use Rattle.pol_connection_maps.specs.Telling.{AreAlike, Telling, pair_ports, ports_between, proto_ports};

use pol_connections::EndName;
use pol_data::Memory;
use pol_port_ranges::Range;
use pol_ports::Proto;
use std::alloc::Global;

/// An end of a state, or of both states of a change, as far as connections between two such are told.
pub(crate) trait Tells {
    ghost use Rattle.pol_connection_maps.specs.Stays.{StateMaps};
    ghost use Rattle.pol_connection_maps.specs.Telling.{Telling};

    /// By what ends are looked up to find one that is alike.
    type Key: Ord + Drop;

    /// Who an end is, which connections are asked, and what is said of them.
    ghost telling: { Telling Self };

    /// Whether an end is one of the states that have these maps.
    ghost stands: { StateMaps → Self → Type 0 };

    /// Who it is.
    fn name(&self) -> &EndName
        ensures { result.now ≡ telling.name self.now };

    /// Its key. No clause says that ends of one key are alike: they are asked.
    fn key(&self) -> Self::Key;

    /// Whether the same is told of the connections of both ends of the same states. It may be so where this says no.
    fn is_alike(&self, other: &Self) -> bool
        ensures { IsTrue result → (maps : StateMaps)
            → stands maps self.now → stands maps other.now → AreAlike telling self.now other.now };

    /// Whether a connection to the other end is asked.
    fn asks(&self, to: &Self) -> bool
        ensures { result ≡ telling.asked self.now to.now };

    /// The ranges of ports of the protocol on which something is told of a connection to the other end.
    fn ranges_to(&self, alloc: Global, to: &Self, proto: Proto) -> Result<Vec<Range>, Memory>
        ensures { IfOk result (λ made. made.items ≡ ranges (telling.said self.now to.now proto)) };
}

/// A range of ports of a protocol.
#[derive(Clone, Copy, Debug)]
pub(crate) struct ProtoRange {
    /// The protocol.
    pub(crate) proto: Proto,
    /// The ports, with what is said of each of them.
    pub(crate) range: Range,
}

/// Appends the ranges of ports of the protocol on which something is told.
fn push_proto<E: Tells>(
    alloc: Global,
    out: &mut Vec<ProtoRange>,
    from: &E,
    to: &E,
    proto: Proto,
) -> Result<(), Memory>
    ensures { OnOk result (out.new.items ≡ out.old.items ++ proto_ports (E.telling.said from.now to.now) proto) }
{
    let ranges = from.ranges_to(alloc, to, proto)?;
    for range in &ranges {
        out.push(ProtoRange {
            proto,
            range: *range,
        })?;
    }
    Ok(())
}

/// The ranges of ports on which something is told.
fn pair_ports<E: Tells>(alloc: Global, from: &E, to: &E) -> Result<Vec<ProtoRange>, Memory>
    ensures { IfOk result (λ made. made.items ≡ pair_ports (E.telling.said from.now to.now)) }
{
    let mut out = Vec::new(alloc);
    push_proto(alloc, &mut out, from, to, Proto::Tcp)?;
    push_proto(alloc, &mut out, from, to, Proto::Udp)?;
    push_proto(alloc, &mut out, from, to, Proto::Sctp)?;
    Ok(out)
}

/// The ranges of ports on which something is told of a connection, none where it isn't asked.
pub(crate) fn ports_between<E: Tells>(
    alloc: Global,
    from: &E,
    to: &E,
) -> Result<Vec<ProtoRange>, Memory>
    ensures { IfOk result (λ made. made.items ≡ ports_between E.telling from.now to.now) }
{
    if from.asks(to) {
        pair_ports(alloc, from, to)
    } else {
        Ok(Vec::new(alloc))
    }
}
