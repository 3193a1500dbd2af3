//! What a session is to play in a phase.
ghost use Rattle.std.specs.Prelude.{◌≡◌, ◌++◌, ◌∷◌, [], ◌↔◌, IfNone, IfSome, IsTrue, OnErr, OnOk, option_to_list};
ghost use Rattle.pol_phases.specs.Marks.{IsOfSession};

use crate::blocks::Blocks;
use pol_data::Memory;
use pol_script::Command;
use std::alloc::Global;
use std::marker::Model;

/// The commands of one session in one phase, in order: none of them is `phase`. Contracts see their list.
#[derive(Drop)]
pub struct Commands {
    waiting: Blocks<Command>,
}

impl Model for Commands {
    ghost use Rattle.std.specs.Prelude.{List};
    ghost use Rattle.std.specs.List.{AllByRecursion};
    ghost use Rattle.pol_script.specs.declared.command.Command.{Command as OneCommand};
    ghost use Rattle.pol_phases.specs.Marks.{IsOfSession};

    ghost Value = { List OneCommand };

    ghost view = { λ commands. commands.waiting };

    ghost invariant = { λ commands. AllByRecursion IsOfSession commands.waiting };
}

impl Commands {
    /// No command. It takes no memory.
    pub fn new(alloc: Global) -> Commands
        ensures { result ≡ [] }
    {
        Commands {
            waiting: Blocks::new(alloc),
        }
    }

    /// One command more, behind the others. The one error is want of memory, and they are then as before.
    pub fn push(&mut self, command: Command) -> Result<(), Memory>
        requires of_session { IsOfSession command }
        ensures pushed { OnOk result (self.new ≡ self.old ++ command ∷ []) }
        ensures same { OnErr result (self.new ≡ self.old) }
    {
        self.waiting.push(command)
    }

    /// The commands of a later part of the phase, behind the others. None of them is moved. The one error is want of memory,
    /// and they are then as before.
    pub fn append(&mut self, later: Commands) -> Result<(), Memory>
        ensures appended { OnOk result (self.new ≡ self.old ++ later) }
        ensures same { OnErr result (self.new ≡ self.old) }
    {
        self.waiting.append(later.waiting)
    }

    /// Takes the first command, if there is one.
    pub fn next(&mut self) -> Option<Command>
        ensures first { self.old ≡ option_to_list result ++ self.new }
        ensures none { IfNone result (self.old ≡ []) }
        ensures of_session { IfSome result IsOfSession }
    {
        self.waiting.next()
    }

    /// Whether there is none.
    pub fn is_empty(&self) -> bool
        ensures { IsTrue result ↔ (self.now ≡ []) }
    {
        self.waiting.is_empty()
    }
}
