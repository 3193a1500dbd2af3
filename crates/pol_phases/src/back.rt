//! The answers of the sessions are put back in the order of the lines.
ghost use Rattle.std.specs.Prelude.{◌≡◌, ◌<◌, ◌-◌, ◌^◌, ◌++◌, ◌∷◌, [], List, drop, map, IfOk, OnOk};
ghost use Rattle.pol_run_laws.specs.Cut.{answers_to, change_session, first_answer, first_phase, session_at};
ghost use Rattle.pol_run.specs.Spots.{Reading as OneReading};
ghost use Rattle.pol_phases.specs.Marks.{IsLeft, answer_by, mark_of, number_by, told_by};

use crate::answers::Answers;
use crate::mark::Mark;
use crate::marks::Marks;
use pol_answer::Answer;
use pol_data::{Items, Memory};
use std::alloc::Global;
use std::collections::VecDeque;

/// The answers to the lines of these marks, where each session was told these in each phase. A faulty line is refused, a
/// `phase` line has the number of the phase that it ends, from 1, and another has the next answer of its session ('profile').
/// The one error is want of memory.
pub fn put_back(
    alloc: Global,
    marks: Marks,
    told: Vec<Items<Answers>>,
) -> Result<Vec<Answer>, Memory>
    ensures { IfOk result (λ answers.
        (lines : List OneReading) → marks ≡ map mark_of lines → answers.items ≡ answers_to lines told.items) }
{
    let mut left = Left::new(alloc, told);
    let mut answers = Vec::with_capacity(alloc, marks.count())?;
    let mut waiting = marks;
    while let Some(mark) = waiting.next() {
        left.answer(alloc, mark, &mut answers)?;
    }
    Ok(answers)
}

// The number of the phase, from 1, and what is left of the answers in it and in later phases.
#[derive(Drop)]
struct Left {
    number: u64,
    current: Vec<Answers>,
    later: VecDeque<Items<Answers>>,
}

impl Left {
    // All that was told.
    fn new(alloc: Global, told: Vec<Items<Answers>>) -> Left
        ensures number { result.number ≡ 1 }
        ensures told { IsLeft told.items result.current.items result.later.items }
    {
        let mut later = VecDeque::from_vec(told);
        let current = first_of(alloc, &mut later);
        Left {
            number: 1,
            current,
            later,
        }
    }

    // Puts the answer to the next line behind the others. The one error is want of memory.
    fn answer(&mut self, alloc: Global, mark: Mark, answers: &mut Vec<Answer>) -> Result<(), Memory>
        requires { self.old.number < 2 ^ 64 - 1 }
        ensures answer { OnOk result (answers.new.items ≡ answers.old.items
            ++ answer_by self.old.number mark (self.old.current.items ∷ self.old.later.items) ∷ []) }
        ensures number { self.new.number ≡ number_by self.old.number mark }
        ensures told { IsLeft
            (told_by mark (self.old.current.items ∷ self.old.later.items)) self.new.current.items self.new.later.items }
    {
        match mark {
            Mark::Faulty(fault) => answers.push(Answer::BadLine(fault))?,
            Mark::Of(session) => push_next(&mut self.current, session, answers)?,
            Mark::Phase => {
                let ended = self.number;
                self.number = ended + 1;
                self.current = first_of(alloc, &mut self.later);
                answers.push(Answer::Phase(ended))?;
            }
        }
        Ok(())
    }
}

// The answers of the first phase, which are taken off. Past the last phase there are none.
fn first_of(alloc: Global, later: &mut VecDeque<Items<Answers>>) -> Vec<Answers>
    ensures first { result.items ≡ first_phase later.old.items }
    ensures rest { later.new.items ≡ drop 1 later.old.items }
{
    match later.pop_front() {
        Some(first) => first.into_vec(),
        None => Vec::new(alloc),
    }
}

// Puts the session's next answer behind the others. The one error is want of memory.
fn push_next(lists: &mut Vec<Answers>, session: u8, answers: &mut Vec<Answer>) -> Result<(), Memory>
    ensures answer { OnOk result (answers.new.items
        ≡ answers.old.items ++ first_answer (session_at lists.old.items session) ∷ []) }
    ensures rest { lists.new.items ≡ change_session session (λ answers. drop 1 answers) lists.old.items }
{
    if session == 0 {
        return push_none(answers);
    }
    let place = session as usize - 1;
    if place >= lists.len() {
        return push_none(answers);
    }
    push_first(&mut lists[place], answers)
}

// Moves a session's first answer behind the others. The one error is want of memory.
fn push_first(own: &mut Answers, answers: &mut Vec<Answer>) -> Result<(), Memory>
    ensures answer { OnOk result (answers.new.items ≡ answers.old.items ++ first_answer own.old ∷ []) }
    ensures rest { own.new ≡ drop 1 own.old }
{
    match own.next() {
        Some(answer) => answers.push(answer)?,
        None => push_none(answers)?,
    }
    Ok(())
}

// Puts the answer of a session that was told no more behind the others. The one error is want of memory.
fn push_none(answers: &mut Vec<Answer>) -> Result<(), Memory>
    ensures { OnOk result (answers.new.items ≡ answers.old.items ++ first_answer [] ∷ []) }
{
    answers.push(Answer::Phase(0))?;
    Ok(())
}
