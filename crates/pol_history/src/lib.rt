//! Histories: what happened on a node, as a list of events, and which lists are legal.
//!
//! The definitions stand in `specs/`. `Commits` reads the commits of a history and the states that they
//! make, `Reports` the reports of an endpoint. `Legal` says which histories are legal, by the index of
//! their events, and `MayFollow` the same event by event, which is what a step that adds an event owes.
//! `Look` is what a look-up finds, `Content` what a board holds, `Held` what that tells of the history, and
//! `LookIn` what a look-up finds in it. `Machine` is the pure machine, `Grows` how what a pass has seen grows
//! in a call, `Meet` what passes see of each other, and `Calls` and `Regenerate` what calls of the node may
//! answer. `SlotTurns` is what a sync learns of the slots, and `turn` that this is what it tells.
//! The laws between them are in `laws`.
//!
//! Small histories and runs hold the definitions (`examples`; `SmallHistories`, `SmallRuns`, `SmallMeetings`).
#![tactic(auto)]

mod event;
pub mod examples;
pub mod laws;
mod machine;
pub mod turn;

pub use event::{EndpointId, HistoryEvent, LastReport};
pub use machine::{Event, Reply};
pub use turn::SlotTurn;
