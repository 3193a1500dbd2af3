//! A script is played in one session over a journal on a disk: what was acknowledged is there after a crash.
//!
//! [`play_kept`] reads the words and a script, opens the journal on the disk, plays the lines in order over the pure machine, keeps
//! each accepted request, and writes the answers. [`play_script`] is its body between the script and the text, and [`answer_line`]
//! one line.
#![tactic(auto)]

mod commit;
mod line;
mod lines;
mod play;
mod progress;
mod script;

pub use line::{Stopped, answer_line};
pub use play::{config_of, play_kept};
pub use script::{KeptText, ScriptError, play_script};
