//! How many filters give a key. It takes no memory.
ghost use Rattle.std.specs.Prelude.{◌≡◌, ◌<◌, ◌^◌, ◌&&◌, not, count_by};
ghost use Rattle.pol_sets.specs.Sets.{set_given};
ghost use Rattle.pol_kept_map.specs.Givers.{gives};

use crate::giving::gives;
use pol_filters::Filter;
use pol_mapkey::MapKey;
use pol_ports::Direction;
use pol_sets::SetRow;

/// How many of the filters of a direction that allow give the key.
pub(crate) fn allows_in(filters: &[Filter], dir: Direction, key: &MapKey, rows: &[SetRow]) -> u64
    ensures small { result < 2 ^ 63 }
    ensures count { result ≡ count_by (λ one. not one.deny && gives (set_given rows.now) dir key.now one) filters.now }
{
    filters
        .iter()
        .filter(|one| !one.deny && gives(one, dir, key, rows))
        .count() as u64
}

/// How many of the filters of a direction that deny give the key.
pub(crate) fn denies_in(filters: &[Filter], dir: Direction, key: &MapKey, rows: &[SetRow]) -> u64
    ensures small { result < 2 ^ 63 }
    ensures count { result ≡ count_by (λ one. one.deny && gives (set_given rows.now) dir key.now one) filters.now }
{
    filters
        .iter()
        .filter(|one| one.deny && gives(one, dir, key, rows))
        .count() as u64
}
