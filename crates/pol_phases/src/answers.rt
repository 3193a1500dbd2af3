//! What a session was answered in a phase.
ghost use Rattle.std.specs.Prelude.{◌≡◌, ◌++◌, ◌∷◌, [], IfNone, OnErr, OnOk, option_to_list};

use crate::blocks::Blocks;
use pol_answer::Answer;
use pol_data::Memory;
use std::alloc::Global;
use std::marker::Model;

/// The answers to the commands of one session in one phase, in order. Contracts see their list.
#[derive(Drop)]
pub struct Answers {
    waiting: Blocks<Answer>,
}

impl Model for Answers {
    ghost use Rattle.std.specs.Prelude.{List};
    ghost use Rattle.pol_answer.specs.declared.answer.Answer.{Answer as OneAnswer};

    ghost Value = { List OneAnswer };

    ghost view = { λ answers. answers.waiting };
}

impl Answers {
    /// No answer. It takes no memory.
    pub fn new(alloc: Global) -> Answers
        ensures { result ≡ [] }
    {
        Answers {
            waiting: Blocks::new(alloc),
        }
    }

    /// One answer more, behind the others. The one error is want of memory, and they are then as before.
    pub fn push(&mut self, answer: Answer) -> Result<(), Memory>
        ensures pushed { OnOk result (self.new ≡ self.old ++ answer ∷ []) }
        ensures same { OnErr result (self.new ≡ self.old) }
    {
        self.waiting.push(answer)
    }

    /// Takes the first answer, if there is one.
    pub fn next(&mut self) -> Option<Answer>
        ensures first { self.old ≡ option_to_list result ++ self.new }
        ensures none { IfNone result (self.old ≡ []) }
    {
        self.waiting.next()
    }
}
