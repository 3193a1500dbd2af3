//! Paths: the texts of their steps, and a fault one step further from the top.
ghost use Rattle.std.specs.Prelude.{◌≡◌, IfOk, ◌++◌};
ghost use Rattle.std.specs.String.{string_bytes};
ghost use Rattle.pol_json.specs.Gives.{Led, Leads};
ghost use Rattle.pol_json.specs.Path.{step_text, led, without_dot, topped};
ghost use Rattle.pol_json.specs.Places.{named, numbered};

use crate::fault::{DocError, DocFault};
use crate::texts::push_printable;
use pol_data::{Memory, Text};
use std::alloc::Global;

/// `.NAME`, with `?` for each byte of the name outside 0x21 to 0x7E.
pub(crate) fn member_step(alloc: Global, name: &str) -> Result<String, Memory>
    ensures { IfOk result (λ text. string_bytes text ≡ step_text (named name.now)) }
{
    let mut text = String::from_str(alloc, ".")?;
    push_printable(&mut text, name)?;
    Ok(text)
}

/// `[I]`.
fn item_step(alloc: Global, index: usize) -> Result<String, Memory>
    ensures { IfOk result (λ text. string_bytes text ≡ step_text (numbered index)) }
{
    format!(in alloc; "[{index}]")
}

/// A path with a step in front of it.
fn led_path(step: &String, path: Text) -> Result<Text, Memory>
    ensures { IfOk result (λ text. text ≡ string_bytes step.now ++ path) }
{
    let mut text = step.clone()?;
    text.push_str(path.as_str())?;
    Ok(Text::from_string(text))
}

/// A fault with a step in front of its path.
fn led(step: &String, fault: DocFault) -> Result<DocFault, Memory>
    ensures { IfOk result (λ f. f ≡ led (string_bytes step.now) fault) }
{
    Ok(match fault {
        DocFault::UnknownMember(path) => DocFault::UnknownMember(led_path(step, path)?),
        DocFault::WrongShape(path) => DocFault::WrongShape(led_path(step, path)?),
        other => other,
    })
}

/// An error with a step in front of the path of its fault.
fn led_by(step: &String, error: DocError) -> Result<(), DocError>
    ensures { Led (led (string_bytes step.now)) error result }
{
    match error {
        DocError::Memory => Err(DocError::Memory),
        DocError::Fault(fault) => Err(DocError::Fault(led(step, fault)?)),
    }
}

/// What was found below a member, seen from its object.
pub(crate) fn from_member(
    alloc: Global,
    name: &str,
    found: Result<(), DocError>,
) -> Result<(), DocError>
    ensures { Leads (led (step_text (named name.now))) found result }
{
    match found {
        Ok(()) => Ok(()),
        Err(error) => led_by(&member_step(alloc, name)?, error),
    }
}

/// What was found below an item, seen from its list.
pub(crate) fn from_item(
    alloc: Global,
    index: usize,
    found: Result<(), DocError>,
) -> Result<(), DocError>
    ensures { Leads (led (step_text (numbered index))) found result }
{
    match found {
        Ok(()) => Ok(()),
        Err(error) => led_by(&item_step(alloc, index)?, error),
    }
}

fn without_dot(alloc: Global, path: Text) -> Result<Text, Memory>
    ensures { IfOk result (λ text. text ≡ without_dot path) }
{
    match path.as_str().strip_prefix('.') {
        None => Ok(path),
        Some(rest) => Text::from_str(alloc, rest),
    }
}

fn topped(alloc: Global, fault: DocFault) -> Result<DocFault, Memory>
    ensures { IfOk result (λ f. f ≡ topped fault) }
{
    Ok(match fault {
        DocFault::UnknownMember(path) => DocFault::UnknownMember(without_dot(alloc, path)?),
        DocFault::WrongShape(path) => DocFault::WrongShape(without_dot(alloc, path)?),
        other => other,
    })
}

/// What was found in the policy: its path begins with a member, without a dot.
pub(crate) fn from_policy(alloc: Global, found: Result<(), DocError>) -> Result<(), DocError>
    ensures { Leads topped found result }
{
    match found {
        Err(DocError::Fault(fault)) => Err(DocError::Fault(topped(alloc, fault)?)),
        other => other,
    }
}
