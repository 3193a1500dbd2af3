//! Building a part of a policy, and a list of such parts. Want of memory is the one error.
ghost use Rattle.std.specs.Prelude.{◌≡◌, map, IfOk};
ghost use Rattle.serde_json.specs.View.{view};
ghost use Rattle.pol_json.specs.Build.{text_of, member_of, member_text, member_items, items_if_there};

use crate::members::{list_at, present, text_at};
use pol_data::{Items, Memory, Text};
use serde_json::Value;
use std::alloc::Global;

/// A part of a policy that a JSON value gives.
pub trait Part {
    ghost use Rattle.std.specs.Prelude.{List};
    ghost use Rattle.serde_json.specs.Data.{Data};

    /// What the value gives.
    ghost gives: { Data → Self };

    /// What the value gives. The one error is want of memory.
    fn build(alloc: Global, value: &Value) -> Result<Self, Memory>
        ensures { IfOk result (λ x. x ≡ gives (view value.now)) };
}

impl Part for Text {
    ghost gives = { text_of };

    fn build(alloc: Global, value: &Value) -> Result<Text, Memory> {
        match value.as_str() {
            None => Ok(Text::from_string(String::new(alloc))),
            Some(text) => Text::from_str(alloc, text),
        }
    }
}

/// What each value of a list gives.
pub(crate) fn build_each<T: Part + Drop>(
    alloc: Global,
    values: &[Value],
) -> Result<Items<T>, Memory>
    ensures { IfOk result (λ parts. parts ≡ map T.gives (map view values.now)) }
{
    let mut parts = Vec::with_capacity(alloc, values.len())?;
    for value in values {
        parts.push(T::build(alloc, value)?)?;
    }
    Ok(Items::from_vec(parts))
}

/// What each item of a member gives; none where the member is absent.
pub(crate) fn items_if_there<T: Part + Drop>(
    alloc: Global,
    value: &Value,
    name: &str,
) -> Result<Option<Items<T>>, Memory>
    ensures { IfOk result (λ parts. parts ≡ items_if_there T.gives name.now (view value.now)) }
{
    match list_at(value, name) {
        None => Ok(None),
        Some(values) => Ok(Some(build_each(alloc, values)?)),
    }
}

/// What a member gives; none where it is absent. The one error is want of memory.
pub fn part_at<T: Part + Drop>(
    alloc: Global,
    value: &Value,
    name: &str,
) -> Result<Option<T>, Memory>
    ensures { IfOk result (λ part. part ≡ member_of T.gives name.now (view value.now)) }
{
    match present(value, name) {
        None => Ok(None),
        Some(member) => Ok(Some(T::build(alloc, member)?)),
    }
}

/// What each item of a member gives; no item where the member is absent or no list. The one error is want of memory.
pub fn items_at<T: Part + Drop>(
    alloc: Global,
    value: &Value,
    name: &str,
) -> Result<Items<T>, Memory>
    ensures { IfOk result (λ parts. parts ≡ member_items T.gives name.now (view value.now)) }
{
    match list_at(value, name) {
        None => Ok(Items::from_vec(Vec::new(alloc))),
        Some(values) => build_each(alloc, values),
    }
}

/// The text of a member; the empty text where the member is absent.
pub(crate) fn member_text(alloc: Global, value: &Value, name: &str) -> Result<Text, Memory>
    ensures { IfOk result (λ text. text ≡ member_text name.now (view value.now)) }
{
    match text_at(value, name) {
        None => Ok(Text::from_string(String::new(alloc))),
        Some(text) => Text::from_str(alloc, text),
    }
}
