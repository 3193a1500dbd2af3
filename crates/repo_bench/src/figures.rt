//! What is measured.

use crate::asked::Step;

/// Nanoseconds of one commit, 0 where there is no such figure.
#[derive(Clone, Copy)]
pub(crate) struct Figures {
    /// Of something new.
    comes: u128,
    /// Of something that takes the place of another of the same key.
    replaces: u128,
    /// Of something that goes.
    goes: u128,
}

/// No figures.
pub(crate) fn none() -> Figures {
    Figures {
        comes: 0,
        replaces: 0,
        goes: 0,
    }
}

impl Figures {
    /// The figure of a step.
    pub(crate) fn of(self, step: Step) -> u128 {
        match step {
            Step::Comes => self.comes,
            Step::Replaces => self.replaces,
            Step::Goes => self.goes,
        }
    }

    /// With another one for a step.
    pub(crate) fn with(self, step: Step, nanos: u128) -> Figures {
        let mut figures = self;
        match step {
            Step::Comes => figures.comes = nanos,
            Step::Replaces => figures.replaces = nanos,
            Step::Goes => figures.goes = nanos,
        }
        figures
    }

    /// The lesser ones of both.
    pub(crate) fn lesser(self, other: Figures) -> Figures {
        Figures {
            comes: self.comes.min(other.comes),
            replaces: self.replaces.min(other.replaces),
            goes: self.goes.min(other.goes),
        }
    }
}
