//! What is wrong with the parts of a NetworkPolicy.
ghost use Rattle.std.specs.Prelude.{◌≡◌, filter_map};
ghost use Rattle.std.specs.List.{list_any};
ghost use Rattle.pol_addr.specs.Prefix.{read_prefix};
ghost use Rattle.pol_labels.specs.LabelText.{is_colon};
ghost use Rattle.pol_labels.specs.WellFormed.{takes_values};
ghost use Rattle.pol_sanitize.specs.Peers.{has_outside_exception, is_bad_cidr, is_bad_set, leaves};
ghost use Rattle.pol_netpol.specs.Faults.{asks_badly, excepts_outside, fits_values, has_bad_cidr, has_bad_selector, is_bad_end, is_bad_expression, is_bad_key, is_bad_label, is_bad_peer, is_bad_port, is_bad_protocol, is_bad_type};

use crate::ports::{proto_of, protocol_text};
use crate::raw::{RawNetPeer, RawNetPort};
use crate::selectors::operator_of;
use pol_addr::Prefix;
use pol_data::Text;
use pol_labels::Operator;
use pol_rule::{RawCidrSet, RawExpression, RawPair, RawSelector};

/// The greatest port (RFC 9293, "Header Format").
const PORT_MAX: u64 = 65535;

// ---- selectors

fn is_colon(byte: u8) -> bool
    ensures { result ≡ is_colon byte }
{
    byte == b':'
}

fn has_colon(key: &str) -> bool
    ensures { result ≡ list_any is_colon key.now }
{
    key.as_bytes().iter().any(|byte| is_colon(*byte))
}

fn is_bad_key(key: &str) -> bool
    ensures { result ≡ is_bad_key key.now }
{
    key.len() == 0 || has_colon(key)
}

fn takes_values(op: Operator, count: usize) -> bool
    ensures { result ≡ takes_values op count }
{
    match op {
        Operator::OneOf | Operator::NoneOf => count > 0,
        Operator::Present | Operator::Absent => count == 0,
    }
}

fn fits_values(expression: &RawExpression) -> bool
    ensures { result ≡ fits_values expression.now.values expression.now.operator }
{
    match operator_of(expression.operator.as_str()) {
        None => false,
        Some(op) => takes_values(op, expression.values.len()),
    }
}

fn is_bad_expression(expression: &RawExpression) -> bool
    ensures { result ≡ is_bad_expression expression.now }
{
    is_bad_key(expression.key.as_str()) || !fits_values(expression)
}

fn has_bad_label(labels: &[RawPair]) -> bool
    ensures { result ≡ list_any is_bad_label labels.now }
{
    labels.iter().any(|pair| is_bad_key(pair.key.as_str()))
}

fn has_bad_expression(expressions: &[RawExpression]) -> bool
    ensures { result ≡ list_any is_bad_expression expressions.now }
{
    expressions
        .iter()
        .any(|expression| is_bad_expression(expression))
}

/// Whether a selector that is there is bad.
pub(crate) fn has_bad_selector(selector: &Option<RawSelector>) -> bool
    ensures { result ≡ has_bad_selector selector.now }
{
    match selector {
        None => false,
        Some(selector) => {
            has_bad_label(selector.labels.as_slice())
                || has_bad_expression(selector.expressions.as_slice())
        }
    }
}

// ---- policy types

fn is_bad_type(text: &str) -> bool
    ensures { result ≡ is_bad_type text.now }
{
    !matches!(text, "Ingress" | "Egress")
}

/// Whether some text is no policy type.
pub(crate) fn has_bad_type(types: &[Text]) -> bool
    ensures { result ≡ list_any is_bad_type types.now }
{
    types.iter().any(|text| is_bad_type(text.as_str()))
}

// ---- peers

/// Whether some peer has a bad selector.
pub(crate) fn ask_badly(peers: &[RawNetPeer]) -> bool
    ensures { result ≡ list_any asks_badly peers.now }
{
    peers.iter().any(|peer| has_bad_selector(&peer.pods) || has_bad_selector(&peer.namespaces))
}

fn is_bad_cidr(text: &str) -> bool
    ensures { result ≡ is_bad_cidr text.now }
{
    Prefix::parse(text).is_none()
}

fn are_bad_cidrs(texts: &[Text]) -> bool
    ensures { result ≡ list_any is_bad_cidr texts.now }
{
    texts.iter().any(|text| is_bad_cidr(text.as_str()))
}

fn is_bad_set(block: &RawCidrSet) -> bool
    ensures { result ≡ is_bad_set block.now }
{
    is_bad_cidr(block.cidr.as_str()) || are_bad_cidrs(block.except.as_slice())
}

fn has_bad_cidr(peer: &RawNetPeer) -> bool
    ensures { result ≡ has_bad_cidr peer.now }
{
    match &peer.block {
        None => false,
        Some(block) => is_bad_set(block),
    }
}

/// Whether some peer has a text that is no prefix.
pub(crate) fn have_bad_cidr(peers: &[RawNetPeer]) -> bool
    ensures { result ≡ list_any has_bad_cidr peers.now }
{
    peers.iter().any(|peer| has_bad_cidr(peer))
}

/// Whether an exception isn't inside the prefix. A text that is no prefix is passed over.
fn leaves(texts: &[Text], prefix: Prefix) -> bool
    ensures { result ≡ leaves (filter_map read_prefix texts.now) prefix }
{
    for text in texts {
        if let Some(exception) = Prefix::parse(text.as_str()) {
            if !prefix.covers(&exception) {
                return true;
            }
        }
    }
    false
}

fn has_outside_exception(block: &RawCidrSet) -> bool
    ensures { result ≡ has_outside_exception block.now }
{
    match Prefix::parse(block.cidr.as_str()) {
        None => false,
        Some(prefix) => leaves(block.except.as_slice(), prefix),
    }
}

fn excepts_outside(peer: &RawNetPeer) -> bool
    ensures { result ≡ excepts_outside peer.now }
{
    match &peer.block {
        None => false,
        Some(block) => has_outside_exception(block),
    }
}

/// Whether some peer has an exception outside of its range.
pub(crate) fn except_outside(peers: &[RawNetPeer]) -> bool
    ensures { result ≡ list_any excepts_outside peers.now }
{
    peers.iter().any(|peer| excepts_outside(peer))
}

fn is_bad_peer(peer: &RawNetPeer) -> bool
    ensures { result ≡ is_bad_peer peer.now }
{
    let has_selector = peer.pods.is_some() || peer.namespaces.is_some();
    has_selector == peer.block.is_some()
}

/// Whether some peer has none of its members, or `ipBlock` beside another.
pub(crate) fn have_bad_peer(peers: &[RawNetPeer]) -> bool
    ensures { result ≡ list_any is_bad_peer peers.now }
{
    peers.iter().any(|peer| is_bad_peer(peer))
}

// ---- ports

fn is_bad_port(port: &RawNetPort) -> bool
    ensures { result ≡ is_bad_port port.now }
{
    let is_outside = match port.port {
        None => false,
        Some(first) => first < 1 || PORT_MAX < first,
    };
    let ends_above = match port.end_port {
        None => false,
        Some(end) => PORT_MAX < end,
    };
    is_outside || ends_above
}

/// Whether some port isn't 1 to 65535, or an `endPort` is above 65535.
pub(crate) fn have_bad_port(ports: &[RawNetPort]) -> bool
    ensures { result ≡ list_any is_bad_port ports.now }
{
    ports.iter().any(|port| is_bad_port(port))
}

fn is_bad_protocol(port: &RawNetPort) -> bool
    ensures { result ≡ is_bad_protocol port.now }
{
    proto_of(protocol_text(port)).is_none()
}

/// Whether some protocol isn't TCP, UDP or SCTP.
pub(crate) fn have_bad_protocol(ports: &[RawNetPort]) -> bool
    ensures { result ≡ list_any is_bad_protocol ports.now }
{
    ports.iter().any(|port| is_bad_protocol(port))
}

fn is_bad_end(port: &RawNetPort) -> bool
    ensures { result ≡ is_bad_end port.now }
{
    match (port.end_port, port.port) {
        (None, _) => false,
        (Some(_), None) => true,
        (Some(end), Some(first)) => end < first,
    }
}

/// Whether some `endPort` stands without a port, or below it.
pub(crate) fn have_bad_end(ports: &[RawNetPort]) -> bool
    ensures { result ≡ list_any is_bad_end ports.now }
{
    ports.iter().any(|port| is_bad_end(port))
}
