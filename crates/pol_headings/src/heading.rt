//! Headings.

use pol_addr::Prefix;
use pol_data::Text;

/// A condition on identities, under which selectors and identities are filed ('profile').
#[derive(Debug, PartialEq, Eq, Hash, Drop)]
pub enum Heading {
    /// Identities with a label of this key and this value, whatever its source.
    Label { key: Text, value: Text },
    /// Identities whose prefix lies in this one.
    Prefix(Prefix),
    /// All identities.
    Any,
}
