//! Answers are printed.
ghost use Rattle.std.specs.Prelude.{◌≡◌, ◌++◌, IfOk};
ghost use Rattle.pol_answer.specs.Text.{texts_of};

use crate::halves::halvings;
use pol_answer::{Answer, answers_text};
use pol_data::Memory;
use std::alloc::Global;
use std::thread::{Threads, join};

/// How many answers are worth a thread.
const BLOCK: usize = 4096;

/// The lines of the answers, one after another. Halves of many answers are printed at once. The one error is want of memory.
pub fn print_answers<W: Threads + Sync>(
    rt: &W,
    alloc: Global,
    answers: &[Answer],
) -> Result<Vec<u8>, Memory>
    ensures text { IfOk result (λ text. text.items ≡ texts_of answers.now) }
{
    print_halves(rt, alloc, answers, halvings(answers.len(), BLOCK))
}

fn print_halves<W: Threads + Sync>(
    rt: &W,
    alloc: Global,
    answers: &[Answer],
    halvings: u32,
) -> Result<Vec<u8>, Memory>
    ensures text { IfOk result (λ text. text.items ≡ texts_of answers.now) }
{
    if halvings == 0 {
        return answers_text(alloc, answers);
    }
    let (front, back) = answers.split_at(answers.len() / 2);
    let left = halvings - 1;
    let (first, second) = join(
        rt,
        || -> Result<Vec<u8>, Memory>
            ensures { IfOk result (λ text. text.items ≡ texts_of front.entry.now) }
        { print_halves(rt, alloc, front, left) },
        || -> Result<Vec<u8>, Memory>
            ensures { IfOk result (λ text. text.items ≡ texts_of back.entry.now) }
        { print_halves(rt, alloc, back, left) },
    );
    joined(first?, second?)
}

fn joined(first: Vec<u8>, second: Vec<u8>) -> Result<Vec<u8>, Memory>
    ensures { IfOk result (λ both. both.items ≡ first.items ++ second.items) }
{
    let mut both = first;
    both.extend_from_slice(&second)?;
    Ok(both)
}
