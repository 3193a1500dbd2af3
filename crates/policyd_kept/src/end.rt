//! How a run ended.
ghost use Rattle.std.specs.Prelude.{◌≡◌, option_map};
ghost use Rattle.std.specs.Process.{exit_status};
ghost use Rattle.policyd_kept.specs.Ends.{end_complaint, end_number};

use pol_status::Status;
use std::process::ExitCode;

/// How a run over a file ended ('profile').
#[derive(Clone, Copy, Debug, PartialEq, Eq)]
pub enum FileEnd {
    /// 0 to 8: the words or the file's bytes were read, and it ended so.
    Served(Status),
    /// 9: the file can't be opened for reading and writing, nor made, or isn't a regular file.
    NotOpened,
    /// 10: another process holds the file.
    Held,
}

impl FileEnd {
    /// The exit status.
    pub fn code(self) -> ExitCode
        ensures { exit_status result ≡ end_number self }
    {
        match self {
            FileEnd::Served(status) => status.code(),
            FileEnd::NotOpened => ExitCode::from(9),
            FileEnd::Held => ExitCode::from(10),
        }
    }

    /// What is said to standard error, where not every line was answered.
    pub fn complaint(self) -> Option<&'static str>
        ensures { option_map (λ text. text.now) result ≡ end_complaint self }
    {
        match self {
            FileEnd::Served(status) => status.complaint(),
            FileEnd::NotOpened => Some("policyd: journal can't be opened"),
            FileEnd::Held => Some("policyd: journal is held"),
        }
    }
}
