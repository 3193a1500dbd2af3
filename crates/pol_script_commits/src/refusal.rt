//! A line that is refused.

use pol_answer::Answer;

/// A line of a script that is refused ('profile').
#[derive(Debug, Drop)]
pub struct Refusal {
    /// The number of the line, from 1.
    pub line: u64,
    /// What it is answered: that the line has a fault, or that its request has one at the revision of the commits before it.
    pub answer: Answer,
}
