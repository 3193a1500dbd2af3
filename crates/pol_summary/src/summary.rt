//! How many lines of a generated script were answered in each way.
ghost use Rattle.std.specs.Prelude.{◌≡◌, ◌++◌, codes, IfOk, OnOk};
ghost use Rattle.std.specs.Fmt.{decimal};
ghost use Rattle.std.specs.String.{string_bytes};
ghost use Rattle.pol_summary.specs.Summary.{count_of, is_of, summary_text};

use pol_answer::Answer;
use pol_data::Memory;
use pol_mapkey::Word;
use std::alloc::Global;

/// The ways in which a line of a generated script is answered.
#[derive(Clone, Copy, Debug, PartialEq, Eq)]
pub enum AnswerKind {
    /// A request that was committed.
    Commit,
    /// A line or a request that was refused.
    Refusal,
    /// A packet that may pass.
    Allowed,
    /// A packet that a deny covers.
    DeniedByRule,
    /// A packet that no allow covers.
    DeniedByDefault,
}

fn is_of(kind: AnswerKind, answer: &Answer) -> bool
    ensures { result ≡ is_of kind answer.now }
{
    match kind {
        AnswerKind::Commit => matches!(answer, Answer::Committed { .. }),
        AnswerKind::Refusal => matches!(answer, Answer::BadLine(_) | Answer::Refused(_)),
        AnswerKind::Allowed => matches!(
            answer,
            Answer::Verdict {
                word: Word::Allowed,
                ..
            }
        ),
        AnswerKind::DeniedByRule => matches!(
            answer,
            Answer::Verdict {
                word: Word::DeniedByRule,
                ..
            }
        ),
        AnswerKind::DeniedByDefault => matches!(
            answer,
            Answer::Verdict {
                word: Word::DeniedByDefault,
                ..
            }
        ),
    }
}

#[tactic(auto, unfolding(crate::specs::Summary::count_of))]
fn count_of(kind: AnswerKind, answers: &[Answer]) -> usize
    ensures { result ≡ count_of kind answers.now }
{
    let mut count = 0;
    for answer in answers {
        if is_of(kind, answer) {
            count += 1;
        }
    }
    count
}

#[tactic(auto, using(std::proofs::Common::append_assoc))]
fn push_count(
    out: &mut String,
    text: &str,
    kind: AnswerKind,
    answers: &[Answer],
) -> Result<(), Memory>
    ensures { OnOk result (string_bytes out.new
        ≡ string_bytes out.old ++ text.now ++ decimal (count_of kind answers.now)) }
{
    out.push_str(text)?;
    let count = count_of(kind, answers);
    write!(out, "{count}")
}

fn push_newline(out: &mut String) -> Result<(), Memory>
    ensures { OnOk result (string_bytes out.new ≡ string_bytes out.old ++ codes "\n") }
{
    out.push('\n')
}

fn push_summary(out: &mut String, answers: &[Answer]) -> Result<(), Memory>
    ensures { OnOk result (string_bytes out.new ≡ string_bytes out.old ++ summary_text answers.now) }
{
    push_count(out, "commits ", AnswerKind::Commit, answers)?;
    push_count(out, " refused ", AnswerKind::Refusal, answers)?;
    push_count(out, " allowed ", AnswerKind::Allowed, answers)?;
    push_count(out, " denied-by-rule ", AnswerKind::DeniedByRule, answers)?;
    push_count(
        out,
        " denied-by-default ",
        AnswerKind::DeniedByDefault,
        answers,
    )?;
    push_newline(out)
}

/// The line that tells them, with its newline byte. The one error is want of memory.
pub(crate) fn summary_text(alloc: Global, answers: &[Answer]) -> Result<Vec<u8>, Memory>
    ensures { IfOk result (λ text. text.items ≡ summary_text answers.now) }
{
    let mut out = String::new(alloc);
    push_summary(&mut out, answers)?;
    Ok(out.into_bytes())
}
