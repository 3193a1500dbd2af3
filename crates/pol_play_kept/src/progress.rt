//! How far a script was played.
ghost use Rattle.std.specs.Prelude.{◌≡◌, ◌++◌, ◌-◌, ◌^◌, ◌<◌, ◌||◌, [], OnOk, false};
ghost use Rattle.pol_answer.specs.Text.{text_of};
ghost use Rattle.pol_play_kept.specs.Answering.{phase_told};
ghost use Rattle.pol_run.specs.Run.{is_marked};

use pol_answer::{Answer, answer_text};
use pol_data::Memory;
use std::alloc::Global;

/// The answers so far.
#[derive(Drop)]
pub(crate) struct Progress {
    /// The phase of the next line, from 1.
    pub phase: u64,
    /// The texts of the answers.
    pub text: Vec<u8>,
    /// Whether one of them is a refusal, `notyet` or `noendpoint`.
    pub marked: bool,
}

/// Whether the answer is a refusal, `notyet` or `noendpoint`.
fn is_marked(told: &Answer) -> bool
    ensures { result ≡ is_marked told.now }
{
    matches!(
        told,
        Answer::NoEndpoint(_) | Answer::NotYet(_) | Answer::BadLine(_) | Answer::Refused(_)
    )
}

/// The phase after an answer.
fn phase_told(phase: u64, told: &Answer) -> u64
    requires { phase < 2 ^ 64 - 1 }
    ensures { result ≡ phase_told phase told.now }
{
    match told {
        Answer::Phase(_) => phase + 1,
        _ => phase,
    }
}

impl Progress {
    /// Before the first line.
    pub(crate) fn start(alloc: Global) -> Progress
        ensures phase { result.phase ≡ 1 }
        ensures text { result.text.items ≡ [] }
        ensures marked { result.marked ≡ false }
    {
        Progress {
            phase: 1,
            text: Vec::new(alloc),
            marked: false,
        }
    }

    /// One answer more. The one error is want of memory.
    pub(crate) fn push(&mut self, alloc: Global, told: Answer) -> Result<(), Memory>
        requires { self.old.phase < 2 ^ 64 - 1 }
        ensures text { OnOk result (self.new.text.items ≡ self.old.text.items ++ text_of told) }
        ensures marked { OnOk result (self.new.marked ≡ (self.old.marked || is_marked told)) }
        ensures phase { OnOk result (self.new.phase ≡ phase_told self.old.phase told) }
    {
        let text = answer_text(alloc, &told)?;
        self.text.extend_from_slice(text.as_slice())?;
        self.marked = self.marked || is_marked(&told);
        self.phase = phase_told(self.phase, &told);
        Ok(())
    }
}
