//! A machine whose accepted requests are kept in a journal on a disk: what was acknowledged is there after a crash.
//!
//! [`Kept`] owns its disk. [`open_over`] and [`commit_over`] do the same over a disk that is lent for the call.
#![tactic(auto)]

mod committing;
mod config;
mod error;
mod kept;
mod opening;
mod replay;

pub use committing::commit_over;
pub use config::KeptConfig;
pub use error::{Closed, KeptError, OpenError};
pub use kept::Kept;
pub use opening::open_over;
