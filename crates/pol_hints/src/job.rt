//! What a worker does with a hint, and what stands before and behind it.
ghost use Rattle.std.specs.Prelude.{OnOk};

use std::alloc::{AllocError as Memory, Global};
use std::sync::Wait;

/// What is done with a hint.
pub trait Job {
    ghost use Rattle.std.specs.Prelude.{ℕ};

    /// The job was run for a hint of this slot, as the job itself says. Whoever runs jobs without knowing which can know it of
    /// no slot but by a run.
    ghost has_run: { Self → ℕ → Type 0 };

    /// Does the work that the hint asks for. The one error is want of memory.
    fn run<R: Wait>(&self, rt: &R, alloc: Global, slot: u32) -> Result<(), Memory>
        ensures { OnOk result (has_run self.now slot) };
}

/// What sessions and workers pass as they begin and end, so that a test may hold them there.
pub trait Gate {
    /// Before the first line of the session in a phase.
    fn start<R: Wait>(&self, rt: &R, session: u32);

    /// Before a worker's job of this call number.
    fn enter<R: Wait>(&self, rt: &R, call: u32);

    /// Behind that job.
    fn leave<R: Wait>(&self, rt: &R, call: u32);
}

/// A gate that holds nobody.
#[derive(Clone, Copy, Debug)]
pub struct OpenGate;

impl Gate for OpenGate {
    fn start<R: Wait>(&self, _rt: &R, _session: u32) {}

    fn enter<R: Wait>(&self, _rt: &R, _call: u32) {}

    fn leave<R: Wait>(&self, _rt: &R, _call: u32) {}
}
