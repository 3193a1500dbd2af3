//! Ends of connections.
ghost use Rattle.std.specs.Prelude.{◌≡◌, ◌∷◌, IfOk};
ghost use Rattle.std.specs.String.{string_bytes};
ghost use Rattle.json.specs.Token.{key};
ghost use Rattle.json.specs.Tree.{json_tokens};
ghost use Rattle.pol_addr.specs.Text.{prefix_text};
ghost use Rattle.pol_connection_text.specs.Adds.{Adds};
ghost use Rattle.pol_connection_text.specs.Ends.{end_json, reserved_text};

use crate::line::of_one;
use json::Writer;
use pol_addr::Prefix;
use pol_connections::EndName;
use pol_data::Memory;
use std::alloc::Global;

/// The text of a reserved identity.
fn reserved_text(alloc: Global, number: u32) -> Result<String, Memory>
    ensures { IfOk result (λ text. string_bytes text ≡ reserved_text number) }
{
    match number {
        1 => String::from_str(alloc, "host"),
        2 => String::from_str(alloc, "world"),
        3 => String::from_str(alloc, "unmanaged"),
        4 => String::from_str(alloc, "health"),
        5 => String::from_str(alloc, "init"),
        6 => String::from_str(alloc, "remote-node"),
        7 => String::from_str(alloc, "kube-apiserver"),
        8 => String::from_str(alloc, "ingress"),
        9 => String::from_str(alloc, "world-ipv4"),
        10 => String::from_str(alloc, "world-ipv6"),
        _ => format!(in alloc; "{number}"),
    }
}

/// The prefix in CIDR notation.
fn region_text(alloc: Global, prefix: &Prefix) -> Result<String, Memory>
    ensures { IfOk result (λ text. string_bytes text ≡ prefix_text prefix.now) }
{
    format!(in alloc; "{prefix}")
}

/// An end, as its object.
pub(crate) fn end(alloc: Global, out: &mut Writer, name: &EndName) -> Result<(), Memory>
    ensures { Adds result out.old out.new (json_tokens (end_json name.now)) }
{
    match name {
        EndName::Endpoint(text) => of_one(out, "endpoint", text.as_str()),
        EndName::Identity(text) => of_one(out, "identity", text.as_str()),
        EndName::Reserved(number) => {
            let text = reserved_text(alloc, *number)?;
            of_one(out, "reserved", text.as_str())
        }
        EndName::Region(prefix) => {
            let text = region_text(alloc, prefix)?;
            of_one(out, "region", text.as_str())
        }
    }
}

/// A member that is an end.
pub(crate) fn end_member(
    alloc: Global,
    out: &mut Writer,
    member: &str,
    name: &EndName,
) -> Result<(), Memory>
    ensures { Adds result out.old out.new (key member.now ∷ json_tokens (end_json name.now)) }
{
    out.key(member)?;
    end(alloc, out, name)
}
