//! The ports of an entry.
ghost use Rattle.std.specs.Prelude.{◌≡◌, filter_map, IfOk};
ghost use Rattle.pol_ports.specs.PortRange.{range_from};
ghost use Rattle.pol_sanitize.specs.Ports.{number_to, port_max};
ghost use Rattle.pol_netpol.specs.Meaning.{protocol_text};
ghost use Rattle.pol_netpol.specs.Protocols.{proto_of};
ghost use Rattle.pol_netpol.specs.Translated.{every_port, every_spec, ports_of, range_of, spec_of};

use crate::raw::{RawNetPeer, RawNetPort};
use pol_data::{Items, Memory};
use pol_ports::{PortRange, Proto};
use pol_rule::{PortSpec, PortSpecs};
use std::alloc::Global;

/// The protocol of a text.
pub(crate) fn proto_of(text: &str) -> Option<Proto>
    ensures { result ≡ proto_of text.now }
{
    match text {
        "TCP" => Some(Proto::Tcp),
        "UDP" => Some(Proto::Udp),
        "SCTP" => Some(Proto::Sctp),
        _ => None,
    }
}

/// The text of a port's protocol, which is TCP where there is none.
pub(crate) fn protocol_text(port: &RawNetPort) -> &str
    ensures { result.now ≡ protocol_text port.now.protocol }
{
    match &port.protocol {
        None => "TCP",
        Some(text) => text.as_str(),
    }
}

fn every_port() -> PortRange
    ensures { result ≡ every_port }
{
    PortRange {
        first: 0,
        last: u16::MAX,
    }
}

/// Every port of every protocol.
fn every_spec() -> PortSpec
    ensures { result ≡ every_spec }
{
    PortSpec {
        proto: None,
        range: every_port(),
    }
}

fn number_of(port: u64) -> Option<u16>
    ensures { result ≡ number_to port_max port }
{
    u16::try_from(port).ok()
}

/// The ports from one to another.
fn range_from(first: u16, end: u16) -> PortRange
    ensures { result ≡ range_from first end }
{
    PortRange {
        first,
        last: first.max(end),
    }
}

/// From `port` to `endPort`: every port where there is no `port`, and one where there is no `endPort`.
fn range_of(port: Option<u64>, end: Option<u64>) -> Option<PortRange>
    ensures { result ≡ range_of port end }
{
    let Some(port) = port else {
        return Some(every_port());
    };
    let first = number_of(port)?;
    let last = number_of(end.unwrap_or(port))?;
    Some(range_from(first, last))
}

fn spec_of(port: &RawNetPort) -> Option<PortSpec>
    ensures { result ≡ spec_of port.now }
{
    let range = range_of(port.port, port.end_port)?;
    let proto = proto_of(protocol_text(port))?;
    Some(PortSpec {
        proto: Some(proto),
        range,
    })
}

fn specs_of(alloc: Global, ports: &[RawNetPort]) -> Result<PortSpecs, Memory>
    ensures { IfOk result (λ specs. specs ≡ filter_map spec_of ports.now) }
{
    let mut specs = Vec::new(alloc);
    for port in ports {
        if let Some(spec) = spec_of(port) {
            specs.push(spec)?;
        }
    }
    Ok(Items::from_vec(specs))
}

/// The ports of an entry. One with neither peers nor ports gets every port of every protocol.
pub(crate) fn ports_of(
    alloc: Global,
    peers: &[RawNetPeer],
    ports: &[RawNetPort],
) -> Result<PortSpecs, Memory>
    ensures { IfOk result (λ specs. specs ≡ ports_of peers.now ports.now) }
{
    match (peers, ports) {
        ([], []) => Items::one(alloc, every_spec()),
        _ => specs_of(alloc, ports),
    }
}
