//! The parts of an answer's line: names, places, and maps that are too large.
#![tactic(auto, using(std::proofs::Common::append_assoc))]

ghost use Rattle.std.specs.Prelude.{◌≡◌, ◌++◌, ◌∷◌, [], codes, OnOk};
ghost use Rattle.std.specs.List.{flat_map};
ghost use Rattle.std.specs.String.{string_bytes};
ghost use Rattle.pol_answer.specs.Text.{at_text, entry_text, place_text, more_places, places_text, full_slot_text, full_text, identity_text};

use crate::names::section_text;
use pol_data::Memory;
use pol_model::FullSlot;
use pol_rule::{Place, Section};

/// Appends ` at N`.
pub(crate) fn push_at(out: &mut String, revision: u64) -> Result<(), Memory>
    ensures { OnOk result (string_bytes out.new ≡ string_bytes out.old ++ at_text revision) }
{
    write!(out, " at {revision}")
}

/// Appends ` identity I` where there is a number.
pub(crate) fn push_identity(out: &mut String, identity: Option<u32>) -> Result<(), Memory>
    ensures { OnOk result (string_bytes out.new ≡ string_bytes out.old ++ identity_text identity) }
{
    match identity {
        None => Ok(()),
        Some(number) => write!(out, " identity {number}"),
    }
}

/// Appends `SECTION[ENTRY]`.
pub(crate) fn push_entry(out: &mut String, section: Section, entry: u32) -> Result<(), Memory>
    ensures { OnOk result (string_bytes out.new ≡ string_bytes out.old ++ entry_text section entry) }
{
    let section = section_text(section);
    write!(out, "{section}[{entry}]")
}

/// Appends `NAMESPACE/NAME#RULE.SECTION[ENTRY]`.
fn push_place(out: &mut String, place: &Place) -> Result<(), Memory>
    ensures { OnOk result (string_bytes out.new ≡ string_bytes out.old ++ place_text place.now) }
{
    let namespace = place.key.namespace.as_str();
    let name = place.key.name.as_str();
    let rule = place.rule;
    write!(out, "{namespace}/{name}#{rule}.")?;
    push_entry(out, place.section, place.entry)
}

/// Appends the places, each behind a comma.
fn push_more_places(out: &mut String, places: &[Place]) -> Result<(), Memory>
    ensures { OnOk result (string_bytes out.new ≡ string_bytes out.old ++ more_places places.now) }
{
    for place in places {
        out.push(',')?;
        push_place(out, place)?;
    }
    Ok(())
}

/// Appends the places joined by commas, `-` where there are none.
pub(crate) fn push_places(out: &mut String, places: &[Place]) -> Result<(), Memory>
    ensures { OnOk result (string_bytes out.new ≡ string_bytes out.old ++ places_text places.now) }
{
    match places {
        [] => out.push_str("-"),
        [first, others @ ..] => {
            push_place(out, first)?;
            push_more_places(out, others)
        }
    }
}

/// Appends ` NAME@R=COUNT`.
fn push_full_slot(out: &mut String, full: &FullSlot) -> Result<(), Memory>
    ensures { OnOk result (string_bytes out.new ≡ string_bytes out.old ++ full_slot_text full.now) }
{
    let name = full.name.as_str();
    let revision = full.revision;
    let count = full.count;
    write!(out, " {name}@{revision}={count}")
}

fn push_full_slots(out: &mut String, full: &[FullSlot]) -> Result<(), Memory>
    ensures { OnOk result (string_bytes out.new ≡ string_bytes out.old ++ flat_map full_slot_text full.now) }
{
    for slot in full {
        push_full_slot(out, slot)?;
    }
    Ok(())
}

/// Appends ` full` and the maps that are too large, where there are any.
pub(crate) fn push_full(out: &mut String, full: &[FullSlot]) -> Result<(), Memory>
    ensures { OnOk result (string_bytes out.new ≡ string_bytes out.old ++ full_text full.now) }
{
    if full.is_empty() {
        return Ok(());
    }
    out.push_str(" full")?;
    push_full_slots(out, full)
}
