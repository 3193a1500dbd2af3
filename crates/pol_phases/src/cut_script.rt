//! A script that was cut, and one that follows another.
ghost use Rattle.std.specs.Prelude.{◌++◌, ℕ, List, IfOk};
ghost use Rattle.pol_run.specs.Spots.{Reading as OneReading};
ghost use Rattle.pol_phases.specs.Cuts.{IsCutOf};

use crate::commands::Commands;
use crate::joining::joined;
use crate::marks::Marks;
use pol_data::{Items, Memory};
use std::alloc::Global;

/// A script that was cut: the phases, each with the commands of session 1, 2 and so on, and a mark of each line.
#[derive(Drop)]
pub struct CutScript {
    /// The commands of each session in each phase.
    pub phases: Vec<Items<Commands>>,
    /// What the answer to each line needs of it.
    pub marks: Marks,
}

impl CutScript {
    /// The script with a later part behind it: whatever lines each is the cut of, it is the cut of the lines of both
    /// ('profile'). The one error is want of memory.
    pub fn followed_by(self, alloc: Global, later: CutScript) -> Result<CutScript, Memory>
        ensures { IfOk result (λ both. (sessions : ℕ) (lines more : List OneReading)
            → IsCutOf sessions lines self → IsCutOf sessions more later → IsCutOf sessions (lines ++ more) both) }
    {
        let phases = joined(alloc, self.phases, later.phases)?;
        let mut marks = self.marks;
        marks.append(later.marks)?;
        Ok(CutScript { phases, marks })
    }
}
