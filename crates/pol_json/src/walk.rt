//! The first fault of a value, with what it holds, seen from that value.
ghost use Rattle.std.specs.Prelude.{◌≡◌, map};
ghost use Rattle.serde_json.specs.View.{view, items_view, members_view};
ghost use Rattle.pol_json.specs.Gives.{Finds};
ghost use Rattle.pol_json.specs.Path.{fault_below};
ghost use Rattle.pol_json.specs.Places.{named, numbered, under, unless_absent, places, below, below_members, below_items, first_found};
ghost use Rattle.pol_json.specs.Table.{one, list_of, shape_of as shape_at};

use crate::cause::{check, is_sound_leaf, left_out, unknown_name, wrong_shape};
use crate::fault::DocError;
use crate::path::{from_item, from_member};
use crate::table::{Content, ObjectKind, Shape, shape_of};
use serde_json::{Map, Value};
use std::alloc::Global;

/// The first fault of a value where this should stand.
#[cycle(walk)]
pub(crate) fn walk(alloc: Global, content: Content, value: &Value) -> Result<(), DocError>
    ensures { Finds (fault_below (first_found (places (one content) (view value.now)))) result }
{
    check(alloc, content, value)?;
    match content {
        Content::Object(kind) => walk_object(alloc, kind, value),
        _ => Ok(()),
    }
}

#[cycle(walk)]
fn walk_object(alloc: Global, kind: ObjectKind, value: &Value) -> Result<(), DocError>
    ensures { Finds (fault_below (first_found (below (one (Content.Object kind)) (view value.now)))) result }
{
    match value {
        Value::Object(members) => walk_members(alloc, kind, members),
        _ => Ok(()),
    }
}

#[cycle(walk)]
fn walk_members(
    alloc: Global,
    kind: ObjectKind,
    members: &Map<String, Value>,
) -> Result<(), DocError>
    ensures { Finds (fault_below (first_found (below_members kind (members_view members.now.entries)))) result }
{
    for (name, value) in members {
        walk_member(alloc, kind, name.as_str(), value)?;
    }
    Ok(())
}

/// A null member is passed over.
#[cycle(walk)]
fn walk_member(alloc: Global, kind: ObjectKind, name: &str, value: &Value) -> Result<(), DocError>
    ensures { Finds (fault_below (first_found (unless_absent (view value.now)
        (map (under (named name.now)) (places (shape_at kind name.now) (view value.now)))))) result }
{
    if value.is_null() {
        return Ok(());
    }
    match shape_of(kind, name) {
        Shape::Unknown => unknown_name(alloc, name),
        Shape::Unsupported => left_out(alloc, name),
        Shape::One(content) => walk_one(alloc, name, content, value),
        Shape::List(content) => from_member(alloc, name, walk_list(alloc, content, value)),
    }
}

/// The first fault of a member's value, seen from its object. Most values hold nothing and are sound.
#[cycle(walk)]
fn walk_one(alloc: Global, name: &str, content: Content, value: &Value) -> Result<(), DocError>
    ensures { Finds
        (fault_below (first_found (map (under (named name.now)) (places (one content) (view value.now))))) result }
{
    if is_sound_leaf(content, value) {
        return Ok(());
    }
    from_member(alloc, name, walk(alloc, content, value))
}

#[cycle(walk)]
fn walk_list(alloc: Global, content: Content, value: &Value) -> Result<(), DocError>
    ensures { Finds (fault_below (first_found (places (list_of content) (view value.now)))) result }
{
    match value {
        Value::Array(items) => walk_items(alloc, content, items),
        _ => wrong_shape(alloc),
    }
}

#[cycle(walk)]
fn walk_items(alloc: Global, content: Content, items: &Vec<Value>) -> Result<(), DocError>
    ensures { Finds (fault_below (first_found (below_items content 0 (items_view items.now.items)))) result }
{
    for (index, value) in items.iter().enumerate() {
        walk_item(alloc, index, content, value)?;
    }
    Ok(())
}

#[cycle(walk)]
fn walk_item(alloc: Global, index: usize, content: Content, value: &Value) -> Result<(), DocError>
    ensures { Finds (fault_below (first_found
        (map (under (numbered index)) (places (one content) (view value.now))))) result }
{
    from_item(alloc, index, walk(alloc, content, value))
}
