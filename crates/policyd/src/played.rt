//! How a run ended, and what is left of it.
ghost use Rattle.std.specs.Prelude.{◌≡◌, None};

use crate::status::Status;
use pol_play_lines::SeenHistory;

/// How a run ended, and what was seen of its history.
#[derive(Drop)]
pub struct Played {
    /// How it ended.
    pub status: Status,
    /// What all passes of the run had seen after the last line, where a script was read and each of its lines answered.
    pub last: Option<SeenHistory>,
}

impl Played {
    /// A run that leaves no history.
    pub fn only(status: Status) -> Played
        ensures { result ≡ record { status = status; last = None } }
    {
        Played { status, last: None }
    }
}
