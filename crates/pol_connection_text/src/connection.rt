//! The line of a connection.
ghost use Rattle.std.specs.Prelude.{◌≡◌, ◌++◌, ◌∷◌, [], IfOk, codes};
ghost use Rattle.json.specs.Token.{key, string};
ghost use Rattle.json.specs.Tree.{json_tokens, members_tokens};
ghost use Rattle.pol_connection_text.specs.Adds.{Adds};
ghost use Rattle.pol_connection_text.specs.Ends.{end_json};
ghost use Rattle.pol_connection_text.specs.Lines.{connection_json, ports_json, proto_word, rest_members};
ghost use Rattle.pol_connection_text.specs.Text.{connection_text};

use crate::end::end_member;
use crate::line::{ended, member};
use crate::said::said;
use json::Writer;
use pol_connections::Connection;
use pol_data::Memory;
use pol_port_ranges::Range;
use pol_ports::Proto;
use std::alloc::Global;

/// The word of a protocol.
fn proto_word(proto: Proto) -> &'static str
    ensures { result.now ≡ proto_word proto }
{
    match proto {
        Proto::Tcp => "TCP",
        Proto::Udp => "UDP",
        Proto::Sctp => "SCTP",
    }
}

/// The member with the word of the protocol.
fn proto_member(out: &mut Writer, proto: Proto) -> Result<(), Memory>
    ensures { Adds result out.old out.new (key (codes "protocol") ∷ string (proto_word proto) ∷ []) }
{
    member(out, "protocol", proto_word(proto))
}

/// The member with the first port and the last.
fn ports(out: &mut Writer, first: u16, last: u16) -> Result<(), Memory>
    ensures { Adds result out.old out.new (key (codes "ports") ∷ json_tokens (ports_json first last)) }
{
    out.key("ports")?;
    out.begin_array()?;
    out.u64(u64::from(first))?;
    out.u64(u64::from(last))?;
    out.end_array()
}

/// The members of both ends.
fn both_ends(alloc: Global, out: &mut Writer, connection: &Connection) -> Result<(), Memory>
    ensures { Adds result out.old out.new (key (codes "from") ∷ json_tokens (end_json connection.now.from)
        ++ key (codes "to") ∷ json_tokens (end_json connection.now.to)) }
{
    end_member(alloc, out, "from", &connection.from)?;
    end_member(alloc, out, "to", &connection.to)
}

/// The members behind the ends, and the end of the object.
fn rest(out: &mut Writer, proto: Proto, range: &Range) -> Result<(), Memory>
    ensures { Adds result out.old out.new (members_tokens (rest_members proto range.now)) }
{
    proto_member(out, proto)?;
    ports(out, range.first, range.last)?;
    said(out, &range.said)
}

/// The object of a connection.
fn connection(alloc: Global, out: &mut Writer, connection: &Connection) -> Result<(), Memory>
    ensures { Adds result out.old out.new (json_tokens (connection_json connection.now)) }
{
    out.begin_object()?;
    both_ends(alloc, out, connection)?;
    rest(out, connection.proto, &connection.range)
}

/// The text with the line of the connection behind it.
pub(crate) fn with_connection(
    alloc: Global,
    text: Vec<u8>,
    one: &Connection,
) -> Result<Vec<u8>, Memory>
    ensures { IfOk result (λ more. more.items ≡ text.items ++ connection_text one.now) }
{
    let mut out = Writer::new(text);
    connection(alloc, &mut out, one)?;
    ended(out)
}
