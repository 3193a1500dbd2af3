//! What a request that is prepared has taken, and what it will do.

use pol_data::Text;
use pol_model::{Endpoint, Mode, Stamped};
use pol_rule::{PolicyKey, Prefixes};
use pol_selcache::Plan;

/// What a prepared request does to the tables.
#[derive(Drop)]
pub enum TableChange {
    /// The endpoint, whose number is held, is placed; the text is its name, for the index.
    Endpoint(Endpoint, Text),
    /// The endpoint of that name goes, and one holder of this number with it.
    NoEndpoint(Text, u32),
    /// The name holds the number, which is held.
    Named(Text, u32),
    /// The name goes, and one holder of this number with it.
    NotNamed(Text, u32),
    /// The policy is placed, in place of one of the same key if there is one.
    Policy {
        /// The policy, with the revision that applies it.
        stamped: Stamped,
        /// Its key, for the index.
        key: PolicyKey,
        /// The prefixes that it holds.
        taken: Prefixes,
        /// Those of the one that it replaces.
        given_up: Prefixes,
    },
    /// The policy of that key goes, and its prefixes with it.
    NoPolicy(PolicyKey, Prefixes),
    /// The mode from now on.
    Mode(Mode),
}

/// What a prepared request will do.
#[derive(Drop)]
pub struct Prepared {
    /// What changes of the sets of the selectors.
    pub plan: Plan,
    /// What changes of the tables.
    pub change: TableChange,
}
