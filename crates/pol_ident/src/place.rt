//! Where a number stands.
ghost use Rattle.std.specs.Prelude.{◌≡◌};
ghost use Rattle.pol_ident.specs.Place.{IsPlaceOf};

use pol_model::{CLUSTER_FIRST, CLUSTER_LAST, LOCAL_FIRST, LOCAL_LAST, RESERVED_LAST};

/// The kind of a number, and its place among the numbers of that kind, from 0 on.
#[derive(Clone, Copy, Debug, PartialEq, Eq)]
pub(crate) enum NumberPlace {
    /// A reserved number.
    Reserved(u32),
    /// A number that label sets take.
    Cluster(u32),
    /// A number that prefixes take.
    Local(u32),
    /// No identity has the number.
    Nowhere,
}

/// The kind and the place of a number.
pub(crate) fn place_of(number: u32) -> NumberPlace
    ensures { IsPlaceOf number result }
{
    if 1 <= number && number <= RESERVED_LAST {
        NumberPlace::Reserved(number - 1)
    } else if CLUSTER_FIRST <= number && number <= CLUSTER_LAST {
        NumberPlace::Cluster(number - CLUSTER_FIRST)
    } else if LOCAL_FIRST <= number && number <= LOCAL_LAST {
        NumberPlace::Local(number - LOCAL_FIRST)
    } else {
        NumberPlace::Nowhere
    }
}
