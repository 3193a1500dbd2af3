//! The lines of a script are played over the running node.
//!
//! `play_lines` reads the script and cuts it into phases (`pol_parallel_lines`), lets sessions play it at once with workers
//! beside them (`pol_sessions`), and puts their answers back (`pol_phases`). By the laws of `pol_run_laws` the lines with their answers are a run of the
//! policy machine, whatever the schedule was.
#![tactic(auto)]

mod script;

pub use pol_sessions::SeenHistory;
pub use script::{PlayedLines, play_lines};
