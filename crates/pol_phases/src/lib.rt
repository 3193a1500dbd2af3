//! A script is cut into phases, each with the commands of every session, and the answers that the sessions got are put
//! back in the order of the lines.
//!
//! `cut` hands out the commands of each session in each phase, and keeps of each line what its answer needs (`Mark`).
//! Whoever plays the phases gives `put_back` the answers of each session in each phase. Both go by the definitions of
//! `pol_run_laws` (`specs/Cut`), and take time linear in the script.
#![tactic(auto)]

mod answers;
mod back;
mod block;
mod blocks;
mod commands;
mod cut_script;
mod cutting;
mod joining;
mod mark;
mod marks;
mod session;

pub use answers::Answers;
pub use back::put_back;
pub use commands::Commands;
pub use cut_script::CutScript;
pub use cutting::cut;
pub use mark::Mark;
pub use marks::Marks;
