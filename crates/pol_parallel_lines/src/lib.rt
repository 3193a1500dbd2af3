//! Large scripts are read and cut into phases, and many answers printed, by halves of halves, each in a thread.
//!
//! What is cut and what is printed is exactly what one thread would cut and print.
#![tactic(auto)]

mod cut;
mod halves;
mod print;

pub use cut::cut_lines;
pub use print::print_answers;
