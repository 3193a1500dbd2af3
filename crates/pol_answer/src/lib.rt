//! The answers: from an answer to its line.
//!
//! `answer` has what a line is answered. The text of an answer is defined in `specs/Text`, and `laws` says
//! what follows from it.
#![tactic(auto)]

mod answer;
pub mod laws;
mod names;
mod parts;
mod text;

pub use answer::Answer;
pub use text::{answer_text, answers_text};
