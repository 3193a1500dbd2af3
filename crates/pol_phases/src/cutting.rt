//! A script is cut into phases.
ghost use Rattle.std.specs.Prelude.{◌≡◌, ◌++◌, ◌∷◌, [], List, replicate, IfOk, OnOk};
ghost use Rattle.pol_run_laws.specs.Cut.{change_session};
ghost use Rattle.pol_run.specs.Spots.{Reading as OneReading};
ghost use Rattle.pol_phases.specs.Cuts.{IsCutOf};
ghost use Rattle.pol_phases.specs.Marks.{IsCut, IsOfSession};

use crate::commands::Commands;
use crate::cut_script::CutScript;
use crate::mark::Mark;
use crate::marks::Marks;
use crate::session::session_of;
use pol_data::{Items, Memory};
use pol_script::{Command, Reading};
use std::alloc::Global;
use std::mem::replace;

/// Cuts the script into phases, for so many sessions. Faulty lines are of no session, and commands of sessions past that
/// number are left out ('profile'). The one error is want of memory.
pub fn cut(alloc: Global, sessions: u32, readings: Vec<Reading>) -> Result<CutScript, Memory>
    ensures { IfOk result (λ script. IsCutOf sessions readings.items script) }
{
    let mut cutting = Cutting::new(alloc, sessions)?;
    for reading in readings {
        cutting.take(alloc, sessions, reading)?;
    }
    cutting.end()
}

// The phases that have ended, the one that hasn't, and the marks of the lines.
#[derive(Drop)]
struct Cutting {
    ended: Vec<Items<Commands>>,
    current: Vec<Commands>,
    marks: Marks,
}

impl Cutting {
    // No line yet.
    fn new(alloc: Global, sessions: u32) -> Result<Cutting, Memory>
        ensures { IfOk result (λ cutting. IsCut sessions [] cutting.ended.items cutting.current.items cutting.marks) }
    {
        let current = no_commands(alloc, sessions)?;
        Ok(Cutting {
            ended: Vec::new(alloc),
            current,
            marks: Marks::new(alloc),
        })
    }

    // One line more.
    fn take(&mut self, alloc: Global, sessions: u32, reading: Reading) -> Result<(), Memory>
        ensures { OnOk result ((lines : List OneReading)
            → IsCut sessions lines self.old.ended.items self.old.current.items self.old.marks
            → IsCut sessions (lines ++ reading ∷ []) self.new.ended.items self.new.current.items self.new.marks) }
    {
        match reading {
            Err(fault) => self.marks.push(Mark::Faulty(fault))?,
            Ok(command) => match session_of(&command) {
                None => {
                    self.marks.push(Mark::Phase)?;
                    let none = no_commands(alloc, sessions)?;
                    let ended = replace(&mut self.current, none);
                    self.ended.push(Items::from_vec(ended))?;
                }
                Some(session) => {
                    self.marks.push(Mark::Of(session))?;
                    add(&mut self.current, session, command)?;
                }
            },
        }
        Ok(())
    }

    // The last phase ends.
    fn end(self) -> Result<CutScript, Memory>
        ensures phases { IfOk result (λ script. script.phases.items ≡ self.ended.items ++ self.current.items ∷ []) }
        ensures marks { IfOk result (λ script. script.marks ≡ self.marks) }
    {
        let Cutting {
            mut ended,
            current,
            marks,
        } = self;
        ended.push(Items::from_vec(current))?;
        Ok(CutScript {
            phases: ended,
            marks,
        })
    }
}

// No commands of so many sessions.
fn no_commands(alloc: Global, sessions: u32) -> Result<Vec<Commands>, Memory>
    ensures { IfOk result (λ lists. lists.items ≡ replicate sessions []) }
{
    let mut lists = Vec::new(alloc);
    for _ in 0..sessions {
        lists.push(Commands::new(alloc))?;
    }
    Ok(lists)
}

// One command more of the session, if there is a list for it.
fn add(lists: &mut Vec<Commands>, session: u8, command: Command) -> Result<(), Memory>
    requires { IsOfSession command }
    ensures { OnOk result (lists.new.items ≡ change_session session (λ commands.
        commands ++ command ∷ []) lists.old.items) }
{
    if session == 0 {
        return Ok(());
    }
    let place = session as usize - 1;
    if place >= lists.len() {
        return Ok(());
    }
    lists[place].push(command)
}
