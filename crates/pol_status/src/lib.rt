//! How a run of a script ends, and how its input is read whole.
//!
//! [`Status`] is the exit status of the programs that play scripts. [`read_script_bytes`] reads all that a source gives, within the
//! limits of a script.
#![tactic(auto)]

mod input;
pub mod laws;
mod status;

pub use input::read_script_bytes;
pub use status::Status;
