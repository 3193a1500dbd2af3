//! The line of what a line of a script is refused for.
ghost use Rattle.std.specs.Prelude.{◌≡◌, ◌++◌, ◌∷◌, [], IfOk, codes};
ghost use Rattle.std.specs.Fmt.{decimal};
ghost use Rattle.std.specs.String.{string_bytes};
ghost use Rattle.json.specs.Json.{object};
ghost use Rattle.json.specs.Token.{key, number};
ghost use Rattle.json.specs.Tree.{json_tokens, members_tokens};
ghost use Rattle.pol_answer.specs.Text.{answer_words};
ghost use Rattle.pol_connection_text.specs.Adds.{Adds};
ghost use Rattle.pol_connection_text.specs.Lines.{refusal_members, with_side};
ghost use Rattle.pol_connection_text.specs.Text.{refusal_text};

use crate::line::{ended, member};
use crate::side::{ChangeSide, side_member};
use json::Writer;
use pol_answer::{Answer, answer_text};
use pol_data::Memory;
use std::alloc::Global;

/// The words of an answer, without its newline byte.
fn words_of(alloc: Global, answer: &Answer) -> Result<String, Memory>
    ensures { IfOk result (λ words. string_bytes words ≡ answer_words answer.now) }
{
    let mut text = answer_text(alloc, answer)?;
    let _newline = text.pop();
    match String::from_utf8(text) {
        Ok(words) => Ok(words),
        Err(_) => Err(Memory),
    }
}

fn line_member(out: &mut Writer, line: u64) -> Result<(), Memory>
    ensures { Adds result out.old out.new (key (codes "line") ∷ number (decimal line) ∷ []) }
{
    out.key("line")?;
    out.u64(line)
}

/// The members but for the side, and the end of the object.
fn line_and_answer(out: &mut Writer, line: u64, words: &str) -> Result<(), Memory>
    ensures { Adds result out.old out.new (members_tokens (refusal_members line words.now)) }
{
    line_member(out, line)?;
    member(out, "answer", words)?;
    out.end_object()
}

/// The object of a refusal.
fn refusal(out: &mut Writer, side: Option<ChangeSide>, line: u64, words: &str) -> Result<(), Memory>
    ensures { Adds result out.old out.new (json_tokens (object (with_side side (refusal_members line words.now)))) }
{
    out.begin_object()?;
    match side {
        None => line_and_answer(out, line, words),
        Some(side) => {
            side_member(out, side)?;
            line_and_answer(out, line, words)
        }
    }
}

/// The text with the line of a refusal behind it.
pub(crate) fn with_refusal(
    alloc: Global,
    text: Vec<u8>,
    side: Option<ChangeSide>,
    line: u64,
    answer: &Answer,
) -> Result<Vec<u8>, Memory>
    ensures { IfOk result (λ more. more.items ≡ text.items ++ refusal_text side line answer.now) }
{
    let words = words_of(alloc, answer)?;
    let mut out = Writer::new(text);
    refusal(&mut out, side, line, words.as_str())?;
    ended(out)
}
