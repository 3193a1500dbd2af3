//! What is wrong at a place of a policy document, without what it holds.
#![tactic(auto, using(crate::proofs::Steps::one_step))]

ghost use Rattle.std.specs.Prelude.{◌≡◌, Some, is_none};
ghost use Rattle.std.specs.List.{list_any};
ghost use Rattle.std.specs.Str.{str_eq_ignore_ascii_case};
ghost use Rattle.serde_json.specs.View.{view};
ghost use Rattle.pol_json.specs.Gives.{Finds};
ghost use Rattle.pol_json.specs.Path.{fault_here, step_text};
ghost use Rattle.pol_json.specs.Places.{named, left_out, lacks, wrong_shape, is_icmp, is_sound_leaf, text_cause, object_cause, content_cause};
ghost use Rattle.pol_json.specs.Texts.{is_letter};

use crate::fault::{DocError, DocFault};
use crate::members::present;
use crate::path::member_step;
use crate::table::{Content, ObjectKind, TextForm};
use crate::texts::is_dns_name;
use pol_data::Text;
use serde_json::Value;
use std::alloc::Global;

/// An unknown name, seen from its object.
pub(crate) fn unknown_name(alloc: Global, name: &str) -> Result<(), DocError>
    ensures { Finds (Some (DocFault.UnknownMember (step_text (named name.now)))) result }
{
    let path = Text::from_string(member_step(alloc, name)?);
    Err(DocError::Fault(DocFault::UnknownMember(path)))
}

/// A name, or a word for a text, that this profile leaves out.
pub(crate) fn left_out(alloc: Global, name: &str) -> Result<(), DocError>
    ensures { Finds (fault_here (Some (left_out name.now))) result }
{
    let name = Text::from_str(alloc, name)?;
    Err(DocError::Fault(DocFault::Unsupported(name)))
}

/// A value of another shape.
pub(crate) fn wrong_shape(alloc: Global) -> Result<(), DocError>
    ensures { Finds (fault_here (Some wrong_shape)) result }
{
    let path = Text::from_string(String::new(alloc));
    Err(DocError::Fault(DocFault::WrongShape(path)))
}

fn lacks(alloc: Global, name: &str) -> Result<(), DocError>
    ensures { Finds (fault_here (Some (lacks name.now))) result }
{
    let path = Text::from_string(member_step(alloc, name)?);
    Err(DocError::Fault(DocFault::WrongShape(path)))
}

fn is_letter(byte: u8) -> bool
    ensures { result ≡ is_letter byte }
{
    matches!(byte, b'a'..=b'z' | b'A'..=b'Z')
}

fn has_letter(text: &str) -> bool
    ensures { result ≡ list_any is_letter text.now }
{
    text.as_bytes().iter().any(|byte| is_letter(*byte))
}

/// Whether the text is this word without ASCII case.
fn is_word(text: &str, word: &str) -> bool
    ensures { result ≡ str_eq_ignore_ascii_case text.now word.now }
{
    text.eq_ignore_ascii_case(word)
}

fn is_icmp(text: &str) -> bool
    ensures { result ≡ is_icmp text.now }
{
    is_word(text, "ICMP") || is_word(text, "ICMPv6")
}

fn is_sound_text(form: TextForm, text: &str) -> bool
    ensures { result ≡ is_none (text_cause form text.now) }
{
    match form {
        TextForm::Any => true,
        TextForm::Name => is_dns_name(text),
        TextForm::Port => !has_letter(text),
        TextForm::Protocol => !is_icmp(text),
    }
}

/// Whether a value that isn't an object is what should stand here.
pub(crate) fn is_sound_leaf(content: Content, value: &Value) -> bool
    ensures { result ≡ is_sound_leaf content (view value.now) }
{
    match content {
        Content::Ignored => true,
        Content::Text(form) => match value.as_str() {
            None => false,
            Some(text) => is_sound_text(form, text),
        },
        Content::Boolean => value.is_boolean(),
        Content::Number => value.as_u64().is_some(),
        Content::PortNumber => value.as_str().is_none() && value.as_u64().is_some(),
        Content::Object(_) => false,
    }
}

fn check_text(alloc: Global, form: TextForm, text: &str) -> Result<(), DocError>
    ensures { Finds (fault_here (text_cause form text.now)) result }
{
    if is_sound_text(form, text) {
        return Ok(());
    }
    match form {
        TextForm::Any => Ok(()),
        TextForm::Name => wrong_shape(alloc),
        TextForm::Port => left_out(alloc, "named-port"),
        TextForm::Protocol => left_out(alloc, "icmp"),
    }
}

/// Names of a CIDR set item that are found before the lack of its `cidr`.
fn check_cidr_set(alloc: Global, value: &Value) -> Result<(), DocError>
    ensures { Finds (fault_here (object_cause ObjectKind.CidrSet (view value.now))) result }
{
    if present(value, "cidrGroupRef").is_some() {
        left_out(alloc, "cidrGroupRef")
    } else if present(value, "cidrGroupSelector").is_some() {
        left_out(alloc, "cidrGroupSelector")
    } else if present(value, "cidr").is_none() {
        lacks(alloc, "cidr")
    } else {
        Ok(())
    }
}

fn check_expression(alloc: Global, value: &Value) -> Result<(), DocError>
    ensures { Finds (fault_here (object_cause ObjectKind.Expression (view value.now))) result }
{
    if present(value, "key").is_none() {
        lacks(alloc, "key")
    } else if present(value, "operator").is_none() {
        lacks(alloc, "operator")
    } else {
        Ok(())
    }
}

fn check_port(alloc: Global, value: &Value) -> Result<(), DocError>
    ensures { Finds (fault_here (object_cause ObjectKind.Port (view value.now))) result }
{
    if present(value, "port").is_none() {
        lacks(alloc, "port")
    } else {
        Ok(())
    }
}

fn check_ip_block(alloc: Global, value: &Value) -> Result<(), DocError>
    ensures { Finds (fault_here (object_cause ObjectKind.IpBlock (view value.now))) result }
{
    if present(value, "cidr").is_none() {
        lacks(alloc, "cidr")
    } else {
        Ok(())
    }
}

/// A port by its number. A text is a named port, which is left out.
fn check_port_number(alloc: Global, value: &Value) -> Result<(), DocError>
    ensures { Finds (fault_here (content_cause Content.PortNumber (view value.now))) result }
{
    match value.as_str() {
        Some(_) => left_out(alloc, "named-port"),
        None if value.as_u64().is_none() => wrong_shape(alloc),
        None => Ok(()),
    }
}

fn check_object(alloc: Global, kind: ObjectKind, value: &Value) -> Result<(), DocError>
    ensures { Finds (fault_here (object_cause kind (view value.now))) result }
{
    match kind {
        ObjectKind::CidrSet => check_cidr_set(alloc, value),
        ObjectKind::Expression => check_expression(alloc, value),
        ObjectKind::Port => check_port(alloc, value),
        ObjectKind::IpBlock => check_ip_block(alloc, value),
        _ => Ok(()),
    }
}

/// What is wrong with a value itself, where this should stand.
pub(crate) fn check(alloc: Global, content: Content, value: &Value) -> Result<(), DocError>
    ensures { Finds (fault_here (content_cause content (view value.now))) result }
{
    match content {
        Content::Ignored => Ok(()),
        Content::Text(form) => match value.as_str() {
            None => wrong_shape(alloc),
            Some(text) => check_text(alloc, form, text),
        },
        Content::Boolean if !value.is_boolean() => wrong_shape(alloc),
        Content::Boolean => Ok(()),
        Content::Number if value.as_u64().is_none() => wrong_shape(alloc),
        Content::Number => Ok(()),
        Content::PortNumber => check_port_number(alloc, value),
        Content::Object(_) if !value.is_object() => wrong_shape(alloc),
        Content::Object(kind) => check_object(alloc, kind, value),
    }
}
