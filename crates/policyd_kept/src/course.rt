//! How far the lines of a source were answered.
ghost use Rattle.std.specs.Prelude.{◌≡◌, ◌+◌, ◌-◌, ◌^◌, ◌<◌, ◌||◌, [], false};
ghost use Rattle.pol_play_kept.specs.Answering.{phase_told};
ghost use Rattle.pol_run.specs.Run.{is_marked};

use pol_answer::Answer;
use std::alloc::Global;

/// What is kept from line to line.
#[derive(Drop)]
pub(crate) struct Course {
    /// The phase of the next line, from 1.
    pub phase: u64,
    /// Whether some answer was a refusal, `notyet` or `noendpoint`.
    pub marked: bool,
    /// How many lines were answered.
    pub lines: u64,
    /// The bytes of the next line that have come.
    pub begun: Vec<u8>,
}

/// Whether the answer is a refusal, `notyet` or `noendpoint`.
fn is_marked(told: &Answer) -> bool
    ensures { result ≡ is_marked told.now }
{
    matches!(
        told,
        Answer::NoEndpoint(_) | Answer::NotYet(_) | Answer::BadLine(_) | Answer::Refused(_)
    )
}

/// The phase after an answer.
fn phase_told(phase: u64, told: &Answer) -> u64
    requires { phase < 2 ^ 64 - 1 }
    ensures { result ≡ phase_told phase told.now }
{
    match told {
        Answer::Phase(_) => phase + 1,
        _ => phase,
    }
}

impl Course {
    /// Before the first line.
    pub(crate) fn start(alloc: Global) -> Course
        ensures phase { result.phase ≡ 1 }
        ensures marked { result.marked ≡ false }
        ensures lines { result.lines ≡ 0 }
        ensures begun { result.begun.items ≡ [] }
    {
        Course {
            phase: 1,
            marked: false,
            lines: 0,
            begun: Vec::new(alloc),
        }
    }

    /// The line was answered, and the next one begins.
    pub(crate) fn count(&mut self, told: &Answer)
        requires phase { self.old.phase < 2 ^ 64 - 1 }
        requires lines { self.old.lines < 2 ^ 64 - 1 }
        ensures phase { self.new.phase ≡ phase_told self.old.phase told.now }
        ensures marked { self.new.marked ≡ (self.old.marked || is_marked told.now) }
        ensures lines { self.new.lines ≡ self.old.lines + 1 }
        ensures begun { self.new.begun.items ≡ [] }
    {
        self.phase = phase_told(self.phase, told);
        self.marked = self.marked || is_marked(told);
        self.lines += 1;
        self.begun.clear();
    }
}
