//! The pure machine: the policy core of one node, without threads.
//!
//! A `Machine` takes events one after another and replies to each as the machine of `pol_history` does. `specs/Stands` says
//! which machine it stands for, and `specs/Parts` what each step does to what it keeps. `answer` plays what one
//! session asks, by the definitions of `specs/Serial`.
#![tactic(auto)]

mod asked;
mod commit;
mod double;
mod finish;
mod full;
pub mod laws;
mod machine;
mod row;
mod serial;
mod take;

pub use asked::{Asked, SerialAnswer};
pub use double::DoubleTrie;
pub use machine::Machine;
pub use pol_history::{Event, Reply};
pub use row::{MachineMap, MachineRow};
pub use serial::answer;
