//! What is said of a connection.
ghost use Rattle.std.specs.Prelude.{◌≡◌, ◌∷◌, []};
ghost use Rattle.json.specs.Json.{object};
ghost use Rattle.json.specs.Token.{end_object, key, string};
ghost use Rattle.json.specs.Tree.{json_tokens, members_tokens};
ghost use Rattle.pol_answer.specs.Text.{word_text};
ghost use Rattle.pol_connection_text.specs.Adds.{Adds};
ghost use Rattle.pol_connection_text.specs.Lines.{both_members, halves_json, said_members};

use crate::line::member;
use json::Writer;
use pol_data::Memory;
use pol_mapkey::Word;
use pol_port_ranges::{Halves, PortSaid};

/// The word of a verdict.
fn word_text(word: Word) -> &'static str
    ensures { result.now ≡ word_text word }
{
    match word {
        Word::Allowed => "allowed",
        Word::DeniedByRule => "denied-by-rule",
        Word::DeniedByDefault => "denied-by-default",
    }
}

/// A member that is the word of a verdict.
fn word_member(out: &mut Writer, name: &str, word: Word) -> Result<(), Memory>
    ensures { Adds result out.old out.new (key name.now ∷ string (word_text word) ∷ []) }
{
    member(out, name, word_text(word))
}

/// The last member, which is the word of a verdict, and the end of the object.
fn last_word(out: &mut Writer, name: &str, word: Word) -> Result<(), Memory>
    ensures { Adds result out.old out.new (key name.now ∷ string (word_text word) ∷ end_object ∷ []) }
{
    word_member(out, name, word)?;
    out.end_object()
}

/// The members of both halves, each by its word, and the end of the object.
fn both_members(out: &mut Writer, halves: &Halves) -> Result<(), Memory>
    ensures { Adds result out.old out.new (members_tokens (both_members halves.now)) }
{
    word_member(out, "egress", halves.sent)?;
    last_word(out, "ingress", halves.received)
}

/// The object of both halves.
fn both_halves(out: &mut Writer, halves: &Halves) -> Result<(), Memory>
    ensures { Adds result out.old out.new (json_tokens (object (both_members halves.now))) }
{
    out.begin_object()?;
    both_members(out, halves)
}

/// That both are allowed, or the word of each.
fn halves(out: &mut Writer, halves: &Halves) -> Result<(), Memory>
    ensures { Adds result out.old out.new (json_tokens (halves_json halves.now)) }
{
    if halves.is_open() {
        out.string("allowed")
    } else {
        both_halves(out, halves)
    }
}

/// A member that is what is said.
fn halves_member(out: &mut Writer, name: &str, said: &Halves) -> Result<(), Memory>
    ensures { Adds result out.old out.new (key name.now ∷ json_tokens (halves_json said.now)) }
{
    out.key(name)?;
    halves(out, said)
}

/// What is said in the one state, or before and after, and the end of the object.
pub(crate) fn said(out: &mut Writer, said: &PortSaid) -> Result<(), Memory>
    ensures { Adds result out.old out.new (members_tokens (said_members said.now.before said.now.after)) }
{
    match &said.before {
        None => halves_member(out, "verdict", &said.after)?,
        Some(before) => {
            halves_member(out, "before", before)?;
            halves_member(out, "after", &said.after)?;
        }
    }
    out.end_object()
}
