//! The text of a table: a line for each entry.
#![tactic(auto, using(std::proofs::Common::append_assoc))]

ghost use Rattle.std.specs.Prelude.{◌≡◌, ◌++◌, OnOk, IfOk};
ghost use Rattle.std.specs.String.{string_bytes};
ghost use Rattle.pol_mapkey.specs.Entries.{Entry};
ghost use Rattle.pol_audit.specs.Tables.{IsTable};
ghost use Rattle.pol_audit.specs.Text.{AreKept, direction_word, kind_word, line_of, proto_word, text_of};

use crate::entries::Entries;
use crate::in_order::{are_entries, are_numbered};
use pol_data::Memory;
use pol_mapkey::{KeyProto, Kind, MapKey};
use pol_ports::Direction;
use std::alloc::Global;

/// The word of a direction.
fn direction_word(dir: Direction) -> &'static str
    ensures { result.now ≡ direction_word dir }
{
    match dir {
        Direction::Ingress => "ingress",
        Direction::Egress => "egress",
    }
}

/// The word of a key's protocol.
fn proto_word(proto: KeyProto) -> &'static str
    ensures { result.now ≡ proto_word proto }
{
    match proto {
        KeyProto::Every => "every",
        KeyProto::Tcp => "TCP",
        KeyProto::Udp => "UDP",
        KeyProto::Sctp => "SCTP",
    }
}

/// The word of a kind.
fn kind_word(kind: Kind) -> &'static str
    ensures { result.now ≡ kind_word kind }
{
    match kind {
        Kind::Allow => "allow",
        Kind::Deny => "deny",
    }
}

/// Appends the line of an entry, as `ingress 257 TCP 80/16 allow`, with its newline byte.
fn push_line(out: &mut String, entry: &(MapKey, Kind)) -> Result<(), Memory>
    ensures { OnOk result (string_bytes out.new ≡ string_bytes out.old ++ line_of entry.now) }
{
    let key = entry.0;
    let dir = direction_word(key.dir);
    let id = key.id;
    let proto = proto_word(key.proto);
    let bits = key.port.bits;
    let len = key.port.len;
    let kind = kind_word(entry.1);
    write!(out, "{dir} {id} {proto} {bits}/{len} {kind}\n")
}

/// The text of a table: a line for each entry, in the order of their keys. The words of a line are the direction, the
/// number, the protocol or `every`, the ports by the first one and how many of its bits count, and the kind, with a space
/// between two; numbers are plain decimal, and each line ends with a newline byte (profile). So `read_table` gives the entries
/// back. The one error is want of memory.
pub fn table_text(alloc: Global, entries: &Entries) -> Result<Vec<u8>, Memory>
    ensures text { IfOk result (λ text. text.items ≡ text_of entries.now) }
    ensures kept { IfOk result (λ _. AreKept entries.now) }
    ensures table { IfOk result (λ _. IsTable entries.now) }
{
    are_entries(entries.as_slice());
    are_numbered(entries.as_slice());
    let mut out = String::new(alloc);
    for entry in entries.as_slice() {
        push_line(&mut out, entry)?;
    }
    Ok(out.into_bytes())
}
