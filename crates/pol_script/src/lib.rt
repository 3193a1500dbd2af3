//! The script: from one line to a command or its fault.
//!
//! `command` has what a line asks, and `line_fault` what it is refused for. What a line reads as is defined
//! in `specs/Reading`, over the table of operations and their members in `specs/Table`.
#![tactic(auto)]

mod apply;
mod command;
mod endpoint;
mod forms;
mod kind;
mod labels;
pub mod laws;
mod line;
mod line_fault;
mod lines;
mod members;
mod op;
mod others;
mod query;

pub use command::Command;
pub use line::read_line;
pub use line_fault::{LineError, LineFault};
pub use lines::{Reading, count_lines, read_script};
