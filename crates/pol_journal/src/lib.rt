//! A journal: the requests that were accepted, as the lines that asked them, in a log of records.
//!
//! `specs/Journal` says which requests the bytes of a journal stand for, or where they are damaged.
#![tactic(auto)]

pub mod laws;
mod record;

pub use record::{RecordError, read_commit, read_request};
