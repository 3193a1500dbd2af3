//! What readers of a board see: a face, which holds what one history makes of a board's content.
//!
//! A face has the number of commits, by name each live endpoint with its last report and its last published map, and the
//! token of the history that it stands for (`Face`). An operation carries the change of one event with the token of the
//! history that ends with it (`FaceOp`), so a face that takes it in stands for one event more. A look finds the endpoint by one
//! hash look-up and reads its map, with no copy.
#![tactic(auto)]

mod answer;
mod change;
mod face;
mod op;
mod row;

pub use answer::{LookError, Verdict};
pub use change::FaceChange;
pub use face::Face;
pub use op::FaceOp;
pub use row::{FaceMap, FaceRow};
