//! Tests of the board, by a repository and a board: on one thread, and with threads that look while another publishes.
//! And of the running node: what its regenerations answer, one after another; and a law of that.
#![tactic(auto)]

#[cfg(test)]
mod asked;
#[cfg(test)]
mod gone;
#[cfg(test)]
mod held;
pub mod laws;
#[cfg(test)]
mod looks;
#[cfg(test)]
mod reading;
#[cfg(test)]
mod regenerations;
#[cfg(test)]
mod running;
#[cfg(test)]
mod script;
#[cfg(test)]
mod stand;
