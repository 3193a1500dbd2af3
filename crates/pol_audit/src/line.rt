//! A line of a table's text, read from its first word on.
ghost use Rattle.std.specs.Prelude.{◌≡◌, ◌≢◌, ◌<◌, ◌^◌, ◌++◌, ℕ, List, IsTrue, ◌↔◌, codes, IfSome, IfNone};
ghost use Rattle.std.specs.Fmt.{decimal};
ghost use Rattle.pol_ports.specs.declared.PortPrefix.{PortPrefix};
ghost use Rattle.pol_mapkey.specs.declared.KeyProto.{KeyProto};
ghost use Rattle.pol_mapkey.specs.declared.KeyProto.TheVariants.{Every};
ghost use Rattle.pol_mapkey.specs.declared.Kind.{Kind};
ghost use Rattle.pol_mapkey.specs.declared.MapKey.{MapKey};
ghost use Rattle.pol_mapkey.specs.Entries.{Entry};
ghost use Rattle.pol_audit.specs.Text.{IsKept, Lacks, direction_word, entry_words, kind_word, line_of, port_text, proto_word, said_words, spaced};

use crate::words::{direction_of, kind_of, number_of, port_of, proto_of};
use memchr::memchr;
use pol_mapkey::{KeyProto, Kind, MapKey};
use pol_ports::{Direction, PortPrefix};

/// What a line says behind its direction.
#[derive(Clone, Copy)]
struct Said {
    id: u32,
    proto: KeyProto,
    port: PortPrefix,
    kind: Kind,
}

/// The ports and the kind that the two texts write.
fn ports_then_kind(port: &str, kind: &str) -> Option<(PortPrefix, Kind)>
    ensures some { IfSome result (λ said. (port.now ≡ port_text said.0) × (kind.now ≡ kind_word said.1)) }
    ensures none { IfNone result ((p : PortPrefix) (k : Kind)
        → p.bits < 2 ^ 16 → port.now ≡ port_text p → kind.now ≢ kind_word k) }
{
    Some((port_of(port)?, kind_of(kind)?))
}

/// Ports and a kind, as `80/16 allow`.
fn port_and_kind(text: &str) -> Option<(PortPrefix, Kind)>
    ensures some { IfSome result (λ said. text.now ≡ spaced (port_text said.0) (kind_word said.1)) }
    ensures none { IfNone result ((port : PortPrefix) (kind : Kind)
        → port.bits < 2 ^ 16 → text.now ≢ spaced (port_text port) (kind_word kind)) }
{
    match text.split_once(' ') {
        None => None,
        Some((port, kind)) => ports_then_kind(port, kind),
    }
}

/// A protocol, ports and a kind, as `TCP 80/16 allow`.
fn proto_and_rest(text: &str) -> Option<(KeyProto, PortPrefix, Kind)>
    ensures some { IfSome result (λ said.
        text.now ≡ spaced (proto_word said.0) (spaced (port_text said.1) (kind_word said.2))) }
    ensures none { IfNone result ((proto : KeyProto) (port : PortPrefix) (kind : Kind)
        → port.bits < 2 ^ 16 → text.now ≢ spaced (proto_word proto) (spaced (port_text port) (kind_word kind))) }
{
    let (proto, rest) = text.split_once(' ')?;
    let proto = proto_of(proto)?;
    let (port, kind) = port_and_kind(rest)?;
    Some((proto, port, kind))
}

/// The number that the first text writes, and what the second one says.
fn id_then_rest(id: &str, rest: &str) -> Option<Said>
    ensures some { IfSome result (λ said. (id.now ≡ decimal said.id)
        × (rest.now ≡ spaced (proto_word said.proto) (spaced (port_text said.port) (kind_word said.kind)))) }
    ensures none { IfNone result ((n : ℕ) (proto : KeyProto) (port : PortPrefix) (kind : Kind)
        → n < 2 ^ 32 → port.bits < 2 ^ 16
        → id.now ≡ decimal n → rest.now ≢ spaced (proto_word proto) (spaced (port_text port) (kind_word kind))) }
{
    let id = number_of(id)?;
    let (proto, port, kind) = proto_and_rest(rest)?;
    Some(Said {
        id,
        proto,
        port,
        kind,
    })
}

/// A number, a protocol, ports and a kind, as `257 TCP 80/16 allow`.
fn id_and_rest(text: &str) -> Option<Said>
    ensures some { IfSome result (λ said. text.now ≡ said_words said.id said.proto said.port said.kind) }
    ensures none { IfNone result ((id : ℕ) (proto : KeyProto) (port : PortPrefix) (kind : Kind)
        → id < 2 ^ 32 → port.bits < 2 ^ 16 → text.now ≢ said_words id proto port kind) }
{
    match text.split_once(' ') {
        None => None,
        Some((id, rest)) => id_then_rest(id, rest),
    }
}

/// Numbers of a program have 32 and 16 bits.
fn are_kept(id: u32, bits: u16)
    ensures { (id < 2 ^ 32) × (bits < 2 ^ 16) }
{
    let _ = id;
    let _ = bits;
}

/// Whether a key of this protocol may have these ports: `Every` is of every port alone.
fn has_ports(proto: KeyProto, port: PortPrefix) -> bool
    ensures { IsTrue result ↔ (proto ≡ Every → port.len ≡ 0) }
{
    proto != KeyProto::Every || port.len == 0
}

/// The entry of these parts, where there is one.
fn entry_from(dir: Direction, said: Said) -> Option<(MapKey, Kind)>
    ensures some { IfSome result (λ e.
        (e.0.dir ≡ dir) × (e.0.id ≡ said.id) × (e.0.proto ≡ said.proto) × (e.0.port ≡ said.port) × (e.1 ≡ said.kind)) }
    ensures none { IfNone result ((key : MapKey) → key.proto ≡ said.proto → key.port ≢ said.port) }
{
    if has_ports(said.proto, said.port) {
        let key = MapKey {
            dir,
            id: said.id,
            proto: said.proto,
            port: said.port,
        };
        Some((key, said.kind))
    } else {
        None
    }
}

/// The entry whose direction the first text writes, and whose other words stand in the second.
fn entry_with(dir: &str, rest: &str) -> Option<(MapKey, Kind)>
    ensures some { IfSome result (λ e.
        (dir.now ≡ direction_word e.0.dir) × (rest.now ≡ said_words e.0.id e.0.proto e.0.port e.1)) }
    ensures none { IfNone result ((e : Entry)
        → IsKept e → dir.now ≡ direction_word e.0.dir → rest.now ≢ said_words e.0.id e.0.proto e.0.port e.1) }
{
    let dir = direction_of(dir)?;
    let said = id_and_rest(rest)?;
    are_kept(said.id, said.port.bits);
    entry_from(dir, said)
}

/// The entry whose words these are.
fn entry_of(text: &str) -> Option<(MapKey, Kind)>
    ensures some { IfSome result (λ e. text.now ≡ entry_words e) }
    ensures none { IfNone result ((e : Entry) → IsKept e → text.now ≢ entry_words e) }
{
    match text.split_once(' ') {
        None => None,
        Some((dir, rest)) => entry_with(dir, rest),
    }
}

/// The entry whose words these bytes are.
fn line_entry(line: &[u8]) -> Option<(MapKey, Kind)>
    ensures some { IfSome result (λ e. line.now ≡ entry_words e) }
    ensures none { IfNone result ((e : Entry) → IsKept e → line.now ≢ entry_words e) }
{
    match str::from_utf8(line) {
        Ok(text) => entry_of(text),
        Err(_) => None,
    }
}

/// The bytes before the first newline byte, and those behind it.
fn first_line(bytes: &[u8]) -> Option<(&[u8], &[u8])>
    ensures some { IfSome result (λ parts. bytes.now ≡ parts.0.now ++ (codes "\n" ++ parts.1.now)) }
    ensures one { IfSome result (λ parts. Lacks 10 parts.0.now) }
    ensures none { IfNone result (Lacks 10 bytes.now) }
{
    let end = memchr(b'\n', bytes)?;
    Some((&bytes[..end], &bytes[end + 1..]))
}

/// The entry whose words these bytes are, with the bytes behind its line.
fn entry_before<'a>(line: &[u8], behind: &'a [u8]) -> Option<((MapKey, Kind), &'a [u8])>
    ensures some { IfSome result (λ found. (line.now ≡ entry_words found.0) × (found.1.now ≡ behind.now)) }
    ensures kept { IfSome result (λ found. IsKept found.0) }
    ensures none { IfNone result ((e : Entry) → IsKept e → line.now ≢ entry_words e) }
{
    let entry = line_entry(line)?;
    are_kept(entry.0.id, entry.0.port.bits);
    Some((entry, behind))
}

/// The entry of the first line, and the bytes behind it.
pub(crate) fn first_entry(bytes: &[u8]) -> Option<((MapKey, Kind), &[u8])>
    ensures some { IfSome result (λ found. bytes.now ≡ line_of found.0 ++ found.1.now) }
    ensures kept { IfSome result (λ found. IsKept found.0) }
    ensures none { IfNone result ((e : Entry) (behind : List ℕ) → IsKept e → bytes.now ≢ line_of e ++ behind) }
{
    match first_line(bytes) {
        None => None,
        Some((line, behind)) => entry_before(line, behind),
    }
}
