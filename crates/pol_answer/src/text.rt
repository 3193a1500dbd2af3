//! The text of an answer: one line, ended by a newline byte.
#![tactic(auto, using(std::proofs::Common::append_assoc))]

ghost use Rattle.std.specs.Prelude.{◌≡◌, ◌++◌, OnOk, IfOk};
ghost use Rattle.std.specs.String.{string_bytes};
ghost use Rattle.pol_answer.specs.Text.{named, doc_detail, rule_detail, line_detail, line_fault_text, trace_text, answer_words, text_of, texts_of};

use crate::Answer;
use crate::names::{fault_name, line_fault_name, word_text};
use crate::parts::{push_at, push_entry, push_full, push_identity, push_places};
use pol_data::{Memory, Text};
use pol_json::{DocFault, push_printable};
use pol_model::Trace;
use pol_rule::RuleFault;
use pol_script::LineFault;
use std::alloc::Global;

/// Appends one space and a name.
fn push_named(out: &mut String, name: &Text) -> Result<(), Memory>
    ensures { OnOk result (string_bytes out.new ≡ string_bytes out.old ++ named name.now) }
{
    out.push(' ')?;
    push_printable(out, name.as_str())
}

fn push_doc_detail(out: &mut String, fault: &DocFault) -> Result<(), Memory>
    ensures { OnOk result (string_bytes out.new ≡ string_bytes out.old ++ doc_detail fault.now) }
{
    match fault {
        DocFault::UnknownMember(path) => push_named(out, path),
        DocFault::Unsupported(name) => push_named(out, name),
        DocFault::WrongShape(path) => push_named(out, path),
        _ => Ok(()),
    }
}

fn push_rule_detail(out: &mut String, fault: &RuleFault) -> Result<(), Memory>
    ensures { OnOk result (string_bytes out.new ≡ string_bytes out.old ++ rule_detail fault.now) }
{
    let rule = fault.rule;
    write!(out, " #{rule}")?;
    match fault.at {
        None => Ok(()),
        Some((section, entry)) => {
            out.push('.')?;
            push_entry(out, section, entry)
        }
    }
}

/// Appends the detail of a line's fault behind one space; of most faults there is none.
fn push_line_detail(out: &mut String, fault: &LineFault) -> Result<(), Memory>
    ensures { OnOk result (string_bytes out.new ≡ string_bytes out.old ++ line_detail fault.now) }
{
    match fault {
        LineFault::BadField(member) => push_named(out, member),
        LineFault::UnknownField(member) => push_named(out, member),
        LineFault::Doc(fault) => push_doc_detail(out, fault),
        LineFault::Rule(fault) => push_rule_detail(out, fault),
        _ => Ok(()),
    }
}

/// Appends the number, the name and the detail of a line's fault.
fn push_line_fault(out: &mut String, fault: &LineFault) -> Result<(), Memory>
    ensures { OnOk result (string_bytes out.new ≡ string_bytes out.old ++ line_fault_text fault.now) }
{
    out.push_str(line_fault_name(fault))?;
    push_line_detail(out, fault)
}

/// Appends `trace WORD at N remote I denies PLACES allows PLACES`.
fn push_trace(out: &mut String, revision: u64, trace: &Trace) -> Result<(), Memory>
    ensures { OnOk result (string_bytes out.new ≡ string_bytes out.old ++ trace_text revision trace.now) }
{
    let word = word_text(trace.word);
    let remote = trace.remote;
    write!(out, "trace {word} at {revision} remote {remote} denies ")?;
    push_places(out, trace.denies.as_slice())?;
    out.push_str(" allows ")?;
    push_places(out, trace.allows.as_slice())
}

/// Appends an answer without its newline.
fn push_answer_words(out: &mut String, answer: &Answer) -> Result<(), Memory>
    ensures { OnOk result (string_bytes out.new ≡ string_bytes out.old ++ answer_words answer.now) }
{
    match answer {
        Answer::Committed { revision, identity } => {
            write!(out, "ok {}", *revision)?;
            push_identity(out, *identity)
        }
        Answer::Synced { revision, full } => {
            write!(out, "synced {}", *revision)?;
            push_full(out, full.as_slice())
        }
        Answer::Phase(number) => write!(out, "phase {}", *number),
        Answer::Verdict { revision, word } => {
            out.push_str(word_text(*word))?;
            push_at(out, *revision)
        }
        Answer::NoEndpoint(revision) => write!(out, "noendpoint at {}", *revision),
        Answer::NotYet(revision) => write!(out, "notyet at {}", *revision),
        Answer::Traced { revision, trace } => push_trace(out, *revision, trace),
        Answer::BadLine(fault) => {
            out.push_str("refused ")?;
            push_line_fault(out, fault)
        }
        Answer::Refused(refused) => {
            out.push_str("refused ")?;
            out.push_str(fault_name(refused.fault))?;
            push_at(out, refused.revision)
        }
    }
}

/// Appends the line of an answer.
fn push_answer(out: &mut String, answer: &Answer) -> Result<(), Memory>
    ensures { OnOk result (string_bytes out.new ≡ string_bytes out.old ++ text_of answer.now) }
{
    push_answer_words(out, answer)?;
    out.push('\n')
}

/// The line of an answer, with its newline byte (profile). The one error is want of memory.
pub fn answer_text(alloc: Global, answer: &Answer) -> Result<Vec<u8>, Memory>
    ensures text { IfOk result (λ text. text.items ≡ text_of answer.now) }
{
    let mut out = String::new(alloc);
    push_answer(&mut out, answer)?;
    Ok(out.into_bytes())
}

/// The lines of the answers, one after another. The one error is want of memory.
pub fn answers_text(alloc: Global, answers: &[Answer]) -> Result<Vec<u8>, Memory>
    ensures text { IfOk result (λ text. text.items ≡ texts_of answers.now) }
{
    let mut out = String::new(alloc);
    for answer in answers {
        push_answer(&mut out, answer)?;
    }
    Ok(out.into_bytes())
}
