//! The members of a JSON object.
ghost use Rattle.std.specs.Prelude.{◌≡◌, map, option_map};
ghost use Rattle.serde_json.specs.View.{view};
ghost use Rattle.pol_json.specs.Members.{is_text, present, text_at, list_at};

use serde_json::Value;

/// The value of a member that is there. A member whose value is null counts as absent (Kubernetes,
/// "API Conventions"), and what is no object has no member.
pub fn present<'v>(value: &'v Value, name: &str) -> Option<&'v Value>
    ensures { option_map (λ v. view v.now) result ≡ present name.now (view value.now) }
{
    let member = value.get(name)?;
    if member.is_null() { None } else { Some(member) }
}

/// The text of a member that is there and is a text.
pub fn text_at<'v>(value: &'v Value, name: &str) -> Option<&'v str>
    ensures { option_map (λ text. text.now) result ≡ text_at name.now (view value.now) }
{
    present(value, name)?.as_str()
}

/// Whether a member is there and is this text.
pub fn is_text_at(value: &Value, name: &str, wanted: &str) -> bool
    ensures { result ≡ is_text wanted.now (text_at name.now (view value.now)) }
{
    match text_at(value, name) {
        None => false,
        Some(text) => wanted == text,
    }
}

/// The items of a member that is there and is a list.
#[tactic(auto, using(crate::proofs::Views::items_list_view))]
pub fn list_at<'v>(value: &'v Value, name: &str) -> Option<&'v [Value]>
    ensures { option_map (λ items. map view items.now) result ≡ list_at name.now (view value.now) }
{
    let list = present(value, name)?.as_array()?;
    Some(list.as_slice())
}
