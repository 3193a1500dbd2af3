//! How a run ended.
ghost use Rattle.std.specs.Prelude.{◌≡◌, IsTrue, option_map, if◌then◌else◌};
ghost use Rattle.std.specs.Process.{exit_status};
ghost use Rattle.pol_status.specs.Ends.{complaint, is_answered, status_number};

use std::process::ExitCode;

/// How a run ended. Each variant's number is the program's exit status ('profile').
#[derive(Clone, Copy, Debug, PartialEq, Eq)]
pub enum Status {
    /// 0: every line was answered, and no answer is a refusal, `notyet` or `noendpoint`.
    Clean = 0,
    /// 1: every line was answered, and some answer is one of those.
    Marked = 1,
    /// 2: the words don't fit the command.
    Usage = 2,
    /// 3: a read failed.
    Read = 3,
    /// 4: a write failed.
    Write = 4,
    /// 5: want of memory.
    Memory = 5,
    /// 6: the input has over 67,108,864 bytes or over 1,000,000 lines.
    TooLong = 6,
    /// 7: a call of the disk with the journal failed.
    Disk = 7,
    /// 8: the bytes on the disk aren't a journal.
    Damaged = 8,
}

impl Status {
    /// The exit status.
    pub fn code(self) -> ExitCode
        ensures { exit_status result ≡ status_number self }
    {
        ExitCode::from(self as u8)
    }

    /// What is said to standard error, at exactly the statuses at which not every answer was written.
    pub fn complaint(self) -> Option<&'static str>
        ensures { option_map (λ text. text.now) result ≡ complaint self }
    {
        match self {
            Status::Clean | Status::Marked => None,
            Status::Usage => Some("policyd: usage"),
            Status::Read => Some("policyd: read failed"),
            Status::Write => Some("policyd: write failed"),
            Status::Memory => Some("policyd: out of memory"),
            Status::TooLong => Some("policyd: input too long"),
            Status::Disk => Some("policyd: disk failed"),
            Status::Damaged => Some("policyd: journal damaged"),
        }
    }

    /// How a run ends whose answers were all written.
    pub fn answered(marked: bool) -> Status
        ensures answered { IsTrue (is_answered result) }
        ensures status { status_number result ≡ (if marked then 1 else 0) }
    {
        if marked {
            Status::Marked
        } else {
            Status::Clean
        }
    }
}
