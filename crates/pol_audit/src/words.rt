//! The words of a line of a table's text, read.
ghost use Rattle.std.specs.Prelude.{◌≡◌, ◌≢◌, ◌-◌, ◌%◌, ◌<◌, ◌≤◌, ◌^◌, ◌↔◌, ℕ, IsTrue, IfSome, IfNone, slice_index, length};
ghost use Rattle.std.specs.Fmt.{decimal};
ghost use Rattle.pol_ports.specs.declared.Direction.{Direction};
ghost use Rattle.pol_ports.specs.declared.PortPrefix.{PortPrefix};
ghost use Rattle.pol_mapkey.specs.declared.KeyProto.{KeyProto};
ghost use Rattle.pol_mapkey.specs.declared.Kind.{Kind};
ghost use Rattle.pol_audit.specs.Text.{direction_word, kind_word, port_text, proto_word};

use pol_mapkey::{KeyProto, Kind};
use pol_ports::{Direction, PortPrefix};

/// The direction of this word.
pub(crate) fn direction_of(word: &str) -> Option<Direction>
    ensures some { IfSome result (λ dir. word.now ≡ direction_word dir) }
    ensures none { IfNone result ((dir : Direction) → word.now ≢ direction_word dir) }
{
    match word {
        "ingress" => Some(Direction::Ingress),
        "egress" => Some(Direction::Egress),
        _ => None,
    }
}

/// The protocol of this word.
pub(crate) fn proto_of(word: &str) -> Option<KeyProto>
    ensures some { IfSome result (λ proto. word.now ≡ proto_word proto) }
    ensures none { IfNone result ((proto : KeyProto) → word.now ≢ proto_word proto) }
{
    match word {
        "every" => Some(KeyProto::Every),
        "TCP" => Some(KeyProto::Tcp),
        "UDP" => Some(KeyProto::Udp),
        "SCTP" => Some(KeyProto::Sctp),
        _ => None,
    }
}

/// The kind of this word.
pub(crate) fn kind_of(word: &str) -> Option<Kind>
    ensures some { IfSome result (λ kind. word.now ≡ kind_word kind) }
    ensures none { IfNone result ((kind : Kind) → word.now ≢ kind_word kind) }
{
    match word {
        "allow" => Some(Kind::Allow),
        "deny" => Some(Kind::Deny),
        _ => None,
    }
}

/// Whether the text begins with neither a plus sign nor a zero before another byte.
fn begins_plainly(text: &str) -> bool
    ensures { IsTrue result ↔ ((slice_index text.now 0 ≢ 43) × (slice_index text.now 0 ≡ 48 → length text.now ≡ 1)) }
{
    !matches!(text.as_bytes(), [b'+', ..] | [b'0', _, ..])
}

/// The number of 32 bits that the text writes in decimal digits, without a sign or leading zeros.
pub(crate) fn number_of(text: &str) -> Option<u32>
    ensures some { IfSome result (λ number. text.now ≡ decimal number) }
    ensures fits { IfSome result (λ number. number < 2 ^ 32) }
    ensures none { IfNone result ((number : ℕ) → number < 2 ^ 32 → text.now ≢ decimal number) }
{
    if !begins_plainly(text) {
        return None;
    }
    text.parse::<u32>().ok()
}

/// Whether the bits behind the first `len` of 16 are clear.
fn is_clear(bits: u32, len: u32) -> bool
    requires { len ≤ 16 }
    ensures { IsTrue result ↔ (bits % 2 ^ (16 - len) ≡ 0) }
{
    bits % (1 << (16 - len)) == 0
}

/// The prefix of this first port and length, where there is one.
fn prefix_of(bits: u32, len: u32) -> Option<PortPrefix>
    ensures some { IfSome result (λ port. (port.bits ≡ bits) × (port.len ≡ len)) }
    ensures none { IfNone result ((port : PortPrefix) → port.bits < 2 ^ 16 → port.bits ≡ bits → port.len ≢ len) }
{
    if bits > 65535 {
        return None;
    }
    if len > 16 {
        return None;
    }
    if is_clear(bits, len) {
        Some(PortPrefix {
            bits: bits as u16,
            len: len as u8,
        })
    } else {
        None
    }
}

/// The prefix of the first port and the length that the two texts write.
fn prefix_from(bits: &str, len: &str) -> Option<PortPrefix>
    ensures some { IfSome result (λ port. (bits.now ≡ decimal port.bits) × (len.now ≡ decimal port.len)) }
    ensures none { IfNone result ((port : PortPrefix)
        → port.bits < 2 ^ 16 → bits.now ≡ decimal port.bits → len.now ≢ decimal port.len) }
{
    prefix_of(number_of(bits)?, number_of(len)?)
}

/// The ports that the text writes by the first one, a slash and how many of its bits count; the others are clear.
pub(crate) fn port_of(text: &str) -> Option<PortPrefix>
    ensures some { IfSome result (λ port. text.now ≡ port_text port) }
    ensures none { IfNone result ((port : PortPrefix) → port.bits < 2 ^ 16 → text.now ≢ port_text port) }
{
    match text.split_once('/') {
        None => None,
        Some((bits, len)) => prefix_from(bits, len),
    }
}
