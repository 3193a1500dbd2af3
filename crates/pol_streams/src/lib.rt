//! Where a program's bytes come from and where they go.
//!
//! A [`Source`] is read and a [`Sink`] is written, piece by piece. Each counts its own faults, and a contract
//! that hands a fault on says so by that count. [`read_all`] reads a source to its end, and [`write_all`]
//! writes a whole text. [`MemSource`] and [`MemSink`] hold their bytes in memory and fail at chosen calls;
//! [`IoSource`] and [`IoSink`] stand before the real input and output, of which no contract can tell the bytes.
#![tactic(auto)]

mod edge;
mod fake;
mod fake_input;
mod fake_output;
mod fault;
mod input;
mod output;
mod reading;
mod writing;

pub use edge::{IoSink, IoSource};
pub use fake_input::MemSource;
pub use fake_output::MemSink;
pub use fault::{Failed, Memory, ReadAllError};
pub use input::Source;
pub use output::Sink;
pub use reading::read_all;
pub use writing::write_all;
