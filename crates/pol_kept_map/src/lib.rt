//! Policy maps that follow what changes.
//!
//! A `Work` keeps what an endpoint's policy map is made of, and where the map isn't too large, how often each key of it is
//! given. `Work::apply` takes it to other filters and sets, and lists exactly the keys of the map that changed.
#![tactic(auto)]

mod changes;
mod counts;
mod entries;
mod givers;
mod giving;
pub mod laws;
mod origin;
mod still;
mod turned;
mod work;

pub use changes::{Changes, Givers};
pub use origin::Origin;
pub use pol_map_changes::{Change, ChangeList};
pub use work::Work;
