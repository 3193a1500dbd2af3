//! The ports of an entry.
ghost use Rattle.std.specs.Prelude.{◌≡◌, ◌++◌, filter_map, IfOk, OnOk};
ghost use Rattle.std.specs.Char.{is_ascii_digit};
ghost use Rattle.std.specs.List.{list_all, list_any};
ghost use Rattle.std.specs.Str.{str_eq_ignore_ascii_case};
ghost use Rattle.pol_rule.specs.declared.cause.RuleCause.TheVariants as rule;
ghost use Rattle.pol_sanitize.specs.Answers.{Finds};
ghost use Rattle.pol_sanitize.specs.Faults.{first_cause, found, located, port_causes};
ghost use Rattle.pol_sanitize.specs.Ports.{all_items, end_of, has_no_ports, has_too_many_ports, is_any_protocol, is_bad_port, is_bad_protocol, is_number_text, port_of, ports_of, proto_of, protocol_of, range_of, range_to, spec_of};

use crate::SanitizeError;
use crate::fault::Location;
use pol_data::Items;
use pol_ports::{PortRange, Proto};
use pol_rule::{PortSpec, PortSpecs, RawPort, RawPortItem, RuleCause};
use std::alloc::Global;

/// The greatest number of ports in a port item (Cilium, Network Policy, "Layer 4 Examples").
pub const PORT_ITEM_MAX: usize = 40;

/// The greatest number of digits in a port text.
pub const PORT_DIGITS_MAX: usize = 5;

fn has_only_digits(text: &str) -> bool
    ensures { result ≡ list_all is_ascii_digit text.now }
{
    text.bytes().all(|byte| byte.is_ascii_digit())
}

fn is_number_text(text: &str) -> bool
    ensures { result ≡ is_number_text text.now }
{
    text.len() > 0 && text.len() <= PORT_DIGITS_MAX && has_only_digits(text)
}

/// The port of a text: 1 to 5 decimal digits, at most 65535.
fn port_of(text: &str) -> Option<u16>
    ensures { result ≡ port_of text.now }
{
    if !is_number_text(text) {
        return None;
    }
    text.parse::<u16>().ok()
}

fn end_of(end: Option<u64>) -> Option<u16>
    ensures { result ≡ end_of end }
{
    u16::try_from(end.unwrap_or(0)).ok()
}

/// The ports from one to another; port 0 is every port.
fn range_to(end: u16, first: u16) -> PortRange
    ensures { result ≡ range_to end first }
{
    if first == 0 {
        return PortRange {
            first: 0,
            last: u16::MAX,
        };
    }
    PortRange {
        first,
        last: first.max(end),
    }
}

fn range_of(port: &RawPort) -> Option<PortRange>
    ensures { result ≡ range_of port.now }
{
    let end = end_of(port.end_port)?;
    let first = port_of(port.port.as_str())?;
    Some(range_to(end, first))
}

fn is_word(text: &str, word: &str) -> bool
    ensures { result ≡ str_eq_ignore_ascii_case text.now word.now }
{
    text.eq_ignore_ascii_case(word)
}

fn proto_of(text: &str) -> Option<Proto>
    ensures { result ≡ proto_of text.now }
{
    if is_word(text, "TCP") {
        Some(Proto::Tcp)
    } else if is_word(text, "UDP") {
        Some(Proto::Udp)
    } else if is_word(text, "SCTP") {
        Some(Proto::Sctp)
    } else {
        None
    }
}

fn is_any_protocol(text: &str) -> bool
    ensures { result ≡ is_any_protocol text.now }
{
    text.len() == 0 || is_word(text, "ANY")
}

/// The protocol of a text, or the none that stands for ANY.
fn protocol_of(text: &str) -> Option<Option<Proto>>
    ensures { result ≡ protocol_of text.now }
{
    if is_any_protocol(text) {
        return Some(None);
    }
    let proto = proto_of(text)?;
    Some(Some(proto))
}

/// Appends the ports of a port item, and says whether a protocol of it isn't known.
fn push_ports(
    location: Location,
    ports: &[RawPort],
    specs: &mut Vec<PortSpec>,
) -> Result<bool, SanitizeError>
    ensures fault { Finds (located location (found rule.BadPort (list_any is_bad_port ports.now))) result }
    ensures unknown { IfOk result (λ unknown. unknown ≡ list_any is_bad_protocol ports.now) }
    ensures specs { OnOk result (specs.new.items ≡ specs.old.items ++ filter_map spec_of ports.now) }
{
    let mut unknown = false;
    for port in ports {
        let Some(range) = range_of(port) else {
            return Err(location.fault(RuleCause::BadPort));
        };
        match protocol_of(port.protocol.as_str()) {
            Some(proto) => specs.push(PortSpec { proto, range })?,
            None => unknown = true,
        }
    }
    Ok(unknown)
}

/// Appends the ports of all port items, and says whether a protocol of them isn't known.
fn push_items(
    location: Location,
    items: &[RawPortItem],
    specs: &mut Vec<PortSpec>,
) -> Result<bool, SanitizeError>
    ensures fault { Finds (located location (found rule.BadPort (list_any is_bad_port (all_items items.now)))) result }
    ensures unknown { IfOk result (λ unknown. unknown ≡ list_any is_bad_protocol (all_items items.now)) }
    ensures specs { OnOk result (specs.new.items ≡ specs.old.items ++ ports_of items.now) }
{
    let mut unknown = false;
    for item in items {
        let found = push_ports(location, item.ports.as_slice(), specs)?;
        unknown = unknown || found;
    }
    Ok(unknown)
}

fn has_too_many_ports(items: &[RawPortItem]) -> bool
    ensures { result ≡ list_any has_too_many_ports items.now }
{
    items.iter().any(|item| item.ports.len() > PORT_ITEM_MAX)
}

fn has_no_ports(items: &[RawPortItem]) -> bool
    ensures { result ≡ list_any has_no_ports items.now }
{
    items.iter().any(|item| item.ports.len() == 0)
}

/// The ports of an entry, of all its port items.
pub(crate) fn ports_of(
    alloc: Global,
    location: Location,
    items: &[RawPortItem],
) -> Result<PortSpecs, SanitizeError>
    ensures fault { Finds (located location (first_cause (port_causes items.now))) result }
    ensures ports { IfOk result (λ ports. ports ≡ ports_of items.now) }
{
    let mut specs = Vec::new(alloc);
    let unknown = push_items(location, items, &mut specs)?;
    if unknown {
        return Err(location.fault(RuleCause::BadProtocol));
    }
    if has_too_many_ports(items) {
        return Err(location.fault(RuleCause::TooManyPorts));
    }
    if has_no_ports(items) {
        return Err(location.fault(RuleCause::EmptyPorts));
    }
    Ok(Items::from_vec(specs))
}
