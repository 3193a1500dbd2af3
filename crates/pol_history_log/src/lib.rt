//! The one history of a node, which all threads share: what was seen of it, and a step that adds an event.
//!
//! The history exists in proofs alone. What threads share is a word, its number of events (`Book`), and what one has seen
//! is a token without the events (`Seen`), which is copied and learns from another. A token is made longer by a step that
//! finds the word as it had seen it, and adds an event that may follow. So each token is a beginning of one history, and
//! what it has seen is legal.
//!
//! A type is generic in the name of its node (`NodeName`), which tells the book, the options, and the numbers of the
//! passes that the node hands out.
#![tactic(auto)]

mod book;
mod history;
mod name;
mod next_map;
mod seen;

pub use book::{Book, NewBook};
pub use history::SeenHistory;
pub use name::NodeName;
pub use next_map::NextMap;
pub use seen::Seen;
