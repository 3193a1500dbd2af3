//! The text of connections: one JSON line for each.
//!
//! A line is a JSON object without spaces and a newline byte. `connections_text` writes the open connections of a state, and
//! `change_text` the names that one state alone has and the connections that a change opens or shuts. `refusal_text` writes what
//! a line of a script is refused for.
#![tactic(auto)]

mod connection;
mod end;
pub mod laws;
mod line;
mod name;
mod refusal;
mod said;
mod side;
mod text;

pub use side::ChangeSide;
pub use text::{change_text, connections_text, refusal_text};
