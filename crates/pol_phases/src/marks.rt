//! What is kept of lines whose commands were handed out.
ghost use Rattle.std.specs.Prelude.{◌≡◌, ◌++◌, ◌∷◌, [], IfNone, OnErr, OnOk, option_to_list};

use crate::blocks::Blocks;
use crate::mark::Mark;
use pol_data::Memory;
use std::alloc::Global;
use std::marker::Model;

/// A mark of each line, in order. Contracts see their list.
#[derive(Drop)]
pub struct Marks {
    waiting: Blocks<Mark>,
}

impl Model for Marks {
    ghost use Rattle.std.specs.Prelude.{List};
    ghost use Rattle.pol_phases.specs.declared.mark.Mark.{Mark as OneMark};

    ghost Value = { List OneMark };

    ghost view = { λ marks. marks.waiting };
}

impl Marks {
    /// No mark. It takes no memory.
    pub fn new(alloc: Global) -> Marks
        ensures { result ≡ [] }
    {
        Marks {
            waiting: Blocks::new(alloc),
        }
    }

    /// One mark more, behind the others. The one error is want of memory, and they are then as before.
    pub fn push(&mut self, mark: Mark) -> Result<(), Memory>
        ensures pushed { OnOk result (self.new ≡ self.old ++ mark ∷ []) }
        ensures same { OnErr result (self.new ≡ self.old) }
    {
        self.waiting.push(mark)
    }

    /// The marks of a later part, behind the others. None of them is moved. The one error is want of memory, and they are then
    /// as before.
    pub fn append(&mut self, later: Marks) -> Result<(), Memory>
        ensures appended { OnOk result (self.new ≡ self.old ++ later) }
        ensures same { OnErr result (self.new ≡ self.old) }
    {
        self.waiting.append(later.waiting)
    }

    /// Takes the first mark, if there is one.
    pub fn next(&mut self) -> Option<Mark>
        ensures first { self.old ≡ option_to_list result ++ self.new }
        ensures none { IfNone result (self.old ≡ []) }
    {
        self.waiting.next()
    }

    /// How many marks there are. No clause says so: no list depends on it.
    pub(crate) fn count(&self) -> usize {
        self.waiting.count()
    }
}
