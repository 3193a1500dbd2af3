//! Which identities the prefixes of a policy hold, and the table in which an address finds the longest of them.
//!
//! `hold_prefixes` takes numbers for prefixes, and `release_prefixes` gives them back; both keep the table as the rows
//! are. `are_too_many` and `gone_numbers` tell beforehand whether the numbers are enough, and which ones a release lets go.
#![tactic(auto)]

mod addresses;
mod gone;
mod hold;
pub mod laws;
mod release;
mod start;

pub use addresses::Addresses;
pub use gone::gone_numbers;
pub use hold::{are_too_many, hold_prefixes};
pub use pol_ident::IdentError;
pub use release::release_prefixes;
pub use start::table_of_start;
