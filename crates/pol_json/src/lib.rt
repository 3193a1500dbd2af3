//! Policy documents: from a JSON value to a policy as it was written, or the document's first fault.
//!
//! `table` says what stands where in a document, `cause` what is wrong at one place, and `walk` finds the
//! first place where something is; `path` writes the way to it. `part`, `selector`, `entry` and `rule`
//! build the policy of a document without faults, and `document` joins them. What a document reads as is
//! defined in `specs/Document`, over `specs/Table`, `Places`, `Path` and `Build`.
#![tactic(auto)]

mod cause;
mod document;
mod entry;
mod fault;
pub mod laws;
mod members;
mod network;
mod part;
mod path;
mod rule;
mod selector;
mod table;
mod texts;
mod walk;

pub use document::read_policy;
pub use fault::{DocError, DocFault};
pub use members::{is_text_at, list_at, present, text_at};
pub use network::{is_network_policy, network_name, network_namespace, network_spec};
pub use part::{Part, items_at, part_at};
pub use texts::{is_dns_name, is_name, push_printable};
