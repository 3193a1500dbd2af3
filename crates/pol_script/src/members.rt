//! The members of a line: those that its operation has, and the first that it doesn't.
ghost use Rattle.std.specs.Prelude.{◌≡◌, codes, map, ok_or, option_map};
ghost use Rattle.std.specs.List.{list_any};
ghost use Rattle.std.specs.Str.{bytes_eq};
ghost use Rattle.serde_json.specs.View.{view, members_view};
ghost use Rattle.pol_json.specs.Members.{present};
ghost use Rattle.pol_script.specs.Forms.{a_kind, a_name, a_text, a_mode, a_direction, a_protocol, anything, texts, whole};
ghost use Rattle.pol_script.specs.Gives.{Reads, Refuses};
ghost use Rattle.pol_script.specs.Members.{value_of, known, known_member, known_members};
ghost use Rattle.pol_script.specs.Table.{needed, optional, or_else};
ghost use Rattle.pol_script.specs.declared.line_fault.LineFault.TheVariants.{BadField, UnknownField};
ghost use Rattle.pol_json.specs.Build.{text_of};

use crate::forms::{
    as_direction, as_identity, as_kind, as_mode, as_name, as_port, as_protocol, as_session,
    as_text, as_texts,
};
use crate::kind::PolicyKind;
use crate::{LineError, LineFault};
use pol_data::Text;
use pol_json::present;
use pol_model::Mode;
use pol_ports::{Direction, Proto};
use serde_json::{Map, Value};
use std::alloc::Global;

/// The error for a member that is absent though it has to be there, or of the wrong form.
pub(crate) fn bad_field(alloc: Global, member: &str) -> LineError
    ensures { Refuses (BadField member.now) result }
{
    match Text::from_str(alloc, member) {
        Ok(member) => LineError::Fault(LineFault::BadField(member)),
        Err(_) => LineError::Memory,
    }
}

/// What a member reads as, where it is there and of its form.
fn or_bad<T: Drop>(alloc: Global, member: &str, read: Option<T>) -> Result<T, LineError>
    ensures { Reads (λ read. read) result (ok_or read (BadField member.now)) }
{
    match read {
        Some(read) => Ok(read),
        None => Err(bad_field(alloc, member)),
    }
}

/// A name that has to be there.
pub(crate) fn needed_name<'v>(
    alloc: Global,
    value: &'v Value,
    member: &str,
) -> Result<&'v str, LineError>
    ensures { Reads (λ name. name.now) result (value_of needed a_name member.now (view value.now)) }
{
    or_bad(alloc, member, present(value, member).and_then(as_name))
}

/// A text that has to be there.
pub(crate) fn needed_text<'v>(
    alloc: Global,
    value: &'v Value,
    member: &str,
) -> Result<&'v str, LineError>
    ensures { Reads (λ text. text.now) result (value_of needed a_text member.now (view value.now)) }
{
    or_bad(alloc, member, present(value, member).and_then(as_text))
}

/// The items of a list of texts that has to be there.
pub(crate) fn needed_texts<'v>(
    alloc: Global,
    value: &'v Value,
    member: &str,
) -> Result<&'v [Value], LineError>
    ensures { Reads (λ items.
        map (λ item. text_of (view item)) items.now) result (value_of needed texts member.now (view value.now)) }
{
    or_bad(alloc, member, present(value, member).and_then(as_texts))
}

/// A value of any form that has to be there.
pub(crate) fn needed_value<'v>(
    alloc: Global,
    value: &'v Value,
    member: &str,
) -> Result<&'v Value, LineError>
    ensures { Reads (λ found. view found.now) result (value_of needed anything member.now (view value.now)) }
{
    or_bad(alloc, member, present(value, member))
}

/// A kind of policies that has to be there.
pub(crate) fn needed_kind(
    alloc: Global,
    value: &Value,
    member: &str,
) -> Result<PolicyKind, LineError>
    ensures { Reads (λ read. read) result (value_of needed a_kind member.now (view value.now)) }
{
    or_bad(alloc, member, present(value, member).and_then(as_kind))
}

/// A mode that has to be there.
pub(crate) fn needed_mode(alloc: Global, value: &Value, member: &str) -> Result<Mode, LineError>
    ensures { Reads (λ read. read) result (value_of needed a_mode member.now (view value.now)) }
{
    or_bad(alloc, member, present(value, member).and_then(as_mode))
}

/// A direction that has to be there.
pub(crate) fn needed_direction(
    alloc: Global,
    value: &Value,
    member: &str,
) -> Result<Direction, LineError>
    ensures { Reads (λ read. read) result (value_of needed a_direction member.now (view value.now)) }
{
    or_bad(alloc, member, present(value, member).and_then(as_direction))
}

/// A protocol that has to be there.
pub(crate) fn needed_protocol(
    alloc: Global,
    value: &Value,
    member: &str,
) -> Result<Proto, LineError>
    ensures { Reads (λ read. read) result (value_of needed a_protocol member.now (view value.now)) }
{
    or_bad(alloc, member, present(value, member).and_then(as_protocol))
}

/// A port that has to be there.
pub(crate) fn needed_port(alloc: Global, value: &Value, member: &str) -> Result<u16, LineError>
    ensures { Reads (λ read. read) result (value_of needed (whole 0 65535) member.now (view value.now)) }
{
    or_bad(alloc, member, present(value, member).and_then(as_port))
}

/// A name that may be there.
pub(crate) fn optional_name<'v>(
    alloc: Global,
    value: &'v Value,
    member: &str,
) -> Result<Option<&'v str>, LineError>
    ensures { Reads (option_map (λ name. name.now)) result (value_of optional a_name member.now (view value.now)) }
{
    let Some(found) = present(value, member) else {
        return Ok(None);
    };
    Ok(Some(or_bad(alloc, member, as_name(found))?))
}

/// A text that may be there.
pub(crate) fn optional_text<'v>(
    alloc: Global,
    value: &'v Value,
    member: &str,
) -> Result<Option<&'v str>, LineError>
    ensures { Reads (option_map (λ text. text.now)) result (value_of optional a_text member.now (view value.now)) }
{
    let Some(found) = present(value, member) else {
        return Ok(None);
    };
    Ok(Some(or_bad(alloc, member, as_text(found))?))
}

/// The session that is named, if one is (profile: 1 to 8).
pub(crate) fn optional_session(alloc: Global, value: &Value) -> Result<Option<u8>, LineError>
    ensures { Reads (λ read. read) result (value_of optional (whole 1 8) (codes "session") (view value.now)) }
{
    let Some(found) = present(value, "session") else {
        return Ok(None);
    };
    Ok(Some(or_bad(alloc, "session", as_session(found))?))
}

/// The identity number that is named; exactly one of it and the address has to be there.
pub(crate) fn identity_or_address(alloc: Global, value: &Value) -> Result<Option<u32>, LineError>
    ensures { Reads (λ read.
        read) result (value_of (or_else (codes "address")) (whole 0 4294967295) (codes "identity") (view value.now)) }
{
    let Some(found) = present(value, "identity") else {
        return match present(value, "address") {
            Some(_) => Ok(None),
            None => Err(bad_field(alloc, "identity")),
        };
    };
    if present(value, "address").is_some() {
        return Err(bad_field(alloc, "identity"));
    }
    Ok(Some(or_bad(alloc, "identity", as_identity(found))?))
}

fn is_among(names: &[&str], name: &str) -> bool
    ensures { result ≡ list_any (λ n. bytes_eq n.now name.now) names.now }
{
    names.iter().any(|n| *n == name)
}

#[tactic(auto, using(crate::proofs::Turns::among_map))]
fn check_member(alloc: Global, names: &[&str], name: &str, member: &Value) -> Result<(), LineError>
    ensures { Reads (λ done. done) result (known_member (map (λ n. n.now) names.now) name.now (view member.now)) }
{
    if member.is_null() || is_among(names, name) {
        return Ok(());
    }
    match Text::from_str(alloc, name) {
        Ok(name) => Err(LineError::Fault(LineFault::UnknownField(name))),
        Err(_) => Err(LineError::Memory),
    }
}

fn check_members(
    alloc: Global,
    names: &[&str],
    members: &Map<String, Value>,
) -> Result<(), LineError>
    ensures { Reads (λ done.
        done) result (known_members (map (λ n. n.now) names.now) (members_view members.now.entries)) }
{
    for (name, member) in members {
        check_member(alloc, names, name.as_str(), member)?;
    }
    Ok(())
}

/// Whether the line has no other members than these. The first other one is refused, in the byte order
/// of their names. A null member counts as absent.
pub(crate) fn check_known(alloc: Global, value: &Value, names: &[&str]) -> Result<(), LineError>
    ensures { Reads (λ done. done) result (known (map (λ n. n.now) names.now) (view value.now)) }
{
    match value.as_object() {
        Some(members) => check_members(alloc, names, members),
        None => Ok(()),
    }
}
