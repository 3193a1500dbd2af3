//! How a run ended.
ghost use Rattle.std.specs.Prelude.{◌≡◌, option_map};
ghost use Rattle.std.specs.Process.{exit_status};
ghost use Rattle.connections.specs.Ends.{complaint, status_number};

use std::process::ExitCode;

/// How a run ended. Each variant's number is the program's exit status ('profile').
#[derive(Clone, Copy, Debug, PartialEq, Eq)]
pub enum RunEnd {
    /// 0: all was written. No line was refused, and of two scripts the second changes nothing.
    Same = 0,
    /// 1: all was written, and some line was refused.
    Refused = 1,
    /// 2: the words don't fit the command.
    Usage = 2,
    /// 3: all was written, no line was refused, and the second script changes something.
    Changes = 3,
    /// 4: a write failed.
    Write = 4,
    /// 5: want of memory.
    Memory = 5,
    /// 6: the input has over 67,108,864 bytes or over 1,000,000 lines.
    TooLong = 6,
    /// 7: a read failed.
    Read = 7,
}

impl RunEnd {
    /// The exit status.
    pub fn code(self) -> ExitCode
        ensures { exit_status result ≡ status_number self }
    {
        ExitCode::from(self as u8)
    }

    /// What is said to standard error, at exactly the statuses at which not all was written.
    pub fn complaint(self) -> Option<&'static str>
        ensures { option_map (λ text. text.now) result ≡ complaint self }
    {
        match self {
            RunEnd::Same | RunEnd::Refused | RunEnd::Changes => None,
            RunEnd::Usage => Some("connections: usage"),
            RunEnd::Write => Some("connections: write failed"),
            RunEnd::Memory => Some("connections: out of memory"),
            RunEnd::TooLong => Some("connections: input too long"),
            RunEnd::Read => Some("connections: read failed"),
        }
    }
}
