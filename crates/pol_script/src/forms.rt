//! The forms of members: names, words, numbers and lists of texts.
ghost use Rattle.std.specs.Prelude.{◌≡◌, ◌≤◌, map, is_some, option_map, IfSome};
ghost use Rattle.std.specs.List.{list_all};
ghost use Rattle.std.specs.Str.{str_eq_ignore_ascii_case};
ghost use Rattle.serde_json.specs.Find.{as_str};
ghost use Rattle.serde_json.specs.View.{view};
ghost use Rattle.pol_json.specs.Build.{text_of};
ghost use Rattle.pol_script.specs.Forms.{a_kind, a_name, a_text, a_mode, a_direction, a_protocol, whole, texts, word_among, kinds, modes, directions, protocol_of, read_as};

use crate::kind::PolicyKind;
use pol_json::is_name;
use pol_model::Mode;
use pol_ports::{Direction, Proto};
use serde_json::Value;

/// The greatest port.
const PORT_MAX: u64 = 65535;

/// The greatest identity number (profile).
const IDENTITY_MAX: u64 = 4294967295;

/// The greatest session (profile).
const SESSION_MAX: u64 = 8;

/// A text.
pub(crate) fn as_text(value: &Value) -> Option<&str>
    ensures { option_map (λ text. text.now) result ≡ read_as a_text (view value.now) }
{
    value.as_str()
}

/// A name of the script: 1 to 253 bytes from the letters, the digits, `.`, `_`, `-` and `/` (profile).
pub(crate) fn as_name(value: &Value) -> Option<&str>
    ensures { option_map (λ name. name.now) result ≡ read_as a_name (view value.now) }
{
    let text = value.as_str()?;
    if is_name(text) { Some(text) } else { None }
}

fn kind_named(text: &str) -> Option<PolicyKind>
    ensures { result ≡ word_among kinds text.now }
{
    match text {
        "CiliumNetworkPolicy" => Some(PolicyKind::Namespaced),
        "CiliumClusterwideNetworkPolicy" => Some(PolicyKind::ClusterWide),
        "NetworkPolicy" => Some(PolicyKind::Network),
        _ => None,
    }
}

/// A kind of policies.
pub(crate) fn as_kind(value: &Value) -> Option<PolicyKind>
    ensures { result ≡ read_as a_kind (view value.now) }
{
    kind_named(value.as_str()?)
}

fn mode_named(text: &str) -> Option<Mode>
    ensures { result ≡ word_among modes text.now }
{
    match text {
        "default" => Some(Mode::Default),
        "always" => Some(Mode::Always),
        "never" => Some(Mode::Never),
        _ => None,
    }
}

/// A mode (Cilium, "Policy Enforcement Modes").
pub(crate) fn as_mode(value: &Value) -> Option<Mode>
    ensures { result ≡ read_as a_mode (view value.now) }
{
    mode_named(value.as_str()?)
}

fn direction_named(text: &str) -> Option<Direction>
    ensures { result ≡ word_among directions text.now }
{
    match text {
        "ingress" => Some(Direction::Ingress),
        "egress" => Some(Direction::Egress),
        _ => None,
    }
}

/// Whether a packet comes in or goes out.
pub(crate) fn as_direction(value: &Value) -> Option<Direction>
    ensures { result ≡ read_as a_direction (view value.now) }
{
    direction_named(value.as_str()?)
}

fn is_word(text: &str, word: &str) -> bool
    ensures { result ≡ str_eq_ignore_ascii_case text.now word.now }
{
    text.eq_ignore_ascii_case(word)
}

fn protocol_named(text: &str) -> Option<Proto>
    ensures { result ≡ protocol_of text.now }
{
    if is_word(text, "TCP") {
        Some(Proto::Tcp)
    } else if is_word(text, "UDP") {
        Some(Proto::Udp)
    } else if is_word(text, "SCTP") {
        Some(Proto::Sctp)
    } else {
        None
    }
}

/// A protocol, without ASCII case.
pub(crate) fn as_protocol(value: &Value) -> Option<Proto>
    ensures { result ≡ read_as a_protocol (view value.now) }
{
    protocol_named(value.as_str()?)
}

fn as_whole(value: &Value, least: u64, greatest: u64) -> Option<u64>
    ensures reads { result ≡ read_as (whole least greatest) (view value.now) }
    ensures bound { IfSome result (λ number. number ≤ greatest) }
{
    let number = value.as_u64()?;
    if least <= number && number <= greatest {
        Some(number)
    } else {
        None
    }
}

/// A port: a whole number from 0 to 65535. One with a fraction or an exponent is none.
pub(crate) fn as_port(value: &Value) -> Option<u16>
    ensures { result ≡ read_as (whole 0 65535) (view value.now) }
{
    Some(as_whole(value, 0, PORT_MAX)? as u16)
}

/// An identity number: a whole number from 0 to 4294967295.
pub(crate) fn as_identity(value: &Value) -> Option<u32>
    ensures { result ≡ read_as (whole 0 4294967295) (view value.now) }
{
    Some(as_whole(value, 0, IDENTITY_MAX)? as u32)
}

/// A session: a whole number from 1 to 8.
pub(crate) fn as_session(value: &Value) -> Option<u8>
    ensures { result ≡ read_as (whole 1 8) (view value.now) }
{
    Some(as_whole(value, 1, SESSION_MAX)? as u8)
}

fn are_texts(items: &[Value]) -> bool
    ensures { result ≡ list_all (λ item. is_some (as_str (view item))) items.now }
{
    items.iter().all(|item| item.is_string())
}

/// The items of a list of texts.
#[tactic(auto, using(crate::proofs::Turns::each_text, pol_json::proofs::Views::items_list_view))]
pub(crate) fn as_texts(value: &Value) -> Option<&[Value]>
    ensures { option_map (λ items.
        map (λ item. text_of (view item)) items.now) result ≡ read_as texts (view value.now) }
{
    let items = value.as_array()?.as_slice();
    if are_texts(items) { Some(items) } else { None }
}
