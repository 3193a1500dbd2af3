//! Which entries filters put into a policy map, and which come and go when filters or sets change.
//!
//! `given` makes the entries of filters and sets. `moved` goes through old and new filters side by side: of a filter that
//! comes or goes it makes all entries, of one that stays those of the numbers that its peers gained or lost.
#![tactic(auto)]

mod entries;
mod moved_rows;
mod moves;
mod one_id;
mod pairs;
mod rows;
mod standing;
mod staying;
mod turns;

pub use entries::given;
pub use moves::all_still;
pub use rows::sets_ascend;
pub use standing::all_filters_stand;
pub use staying::Moved;
pub use turns::{moved, replaced};
