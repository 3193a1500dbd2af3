//! Whose a command is.
ghost use Rattle.std.specs.Prelude.{◌≡◌, Ok};
ghost use Rattle.pol_run.specs.Spots.{session_of};

use pol_script::Command;

/// The session of a command; `phase` is of none.
pub(crate) fn session_of(command: &Command) -> Option<u8>
    ensures { result ≡ session_of (Ok command.now) }
{
    match command {
        Command::Commit { session, .. } => Some(*session),
        Command::Look { session, .. } => Some(*session),
        Command::Trace { session, .. } => Some(*session),
        Command::Sync { session } => Some(*session),
        Command::Phase => None,
    }
}
