//! When a session rings for the workers.
use pol_answer::Answer;
use pol_hints::Hints;

/// How many commits, of all sessions, the workers are let sleep.
const COMMITS: u64 = 256;

/// How many lines of a session, from a commit of its own on, they are let sleep. A look is much shorter than a commit.
const LINES: u64 = 8192;

/// What a session has played since it rang last.
#[derive(Drop)]
pub(crate) struct Pace {
    // Whether it has committed since, and not synced behind that.
    owes: bool,
    // How many lines there were since, from the first such commit on.
    lines: u64,
}

impl Pace {
    /// Nothing yet. It takes no memory.
    pub(crate) fn new() -> Pace {
        Pace {
            owes: false,
            lines: 0,
        }
    }

    /// Behind a line with this answer.
    pub(crate) fn go_on(&mut self, hints: &Hints, answer: &Answer) {
        match answer {
            Answer::Committed { revision, .. } if *revision % COMMITS == 0 => {
                hints.ring();
                self.rest();
            }
            Answer::Committed { .. } => self.owes = true,
            Answer::Synced { .. } => self.rest(),
            _ => {}
        }
        if self.lines >= LINES {
            hints.ring_all();
            self.rest();
        } else if self.owes {
            self.lines += 1;
        }
    }

    /// Behind the last line. One worker is enough: the end may be told next, and whoever tells it waits for the desk too.
    pub(crate) fn end(&mut self, hints: &Hints) {
        if self.owes {
            hints.ring();
        }
        self.rest();
    }

    fn rest(&mut self) {
        self.owes = false;
        self.lines = 0;
    }
}
