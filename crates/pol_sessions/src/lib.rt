//! Sessions that play a script over a node, each in a thread of its own, phase after phase, and the workers beside them.
//!
//! `play_session` plays what one session has in a phase by the calls of the node; `play_phases` plays the sessions of each
//! phase at once, and lets all passes meet at its end; `play_beside` does so with workers that regenerate what hints name.
//! What they promise is said over the definitions of `pol_run_laws` (`specs/Seats`).
#![tactic(auto)]

mod in_play;
mod line;
mod pace;
mod phase;
mod script;
mod session;
mod worker;

pub use in_play::NodeInPlay;
pub use phase::{PlayedPhase, PlayedPhases, play_phase, play_phases};
pub use pol_node::{Config, SeenHistory};
pub use script::{PlayedScript, play_script};
pub use session::play_session;
pub use worker::play_beside;
