//! The entries of identities.
ghost use Rattle.std.specs.Prelude.{◌≡◌, ◌++◌, OnOk};
ghost use Rattle.std.specs.List.{flat_map};
ghost use Rattle.pol_distill.specs.RawKeys.{entries_for};

use crate::keys::with_id;
use pol_data::Memory;
use pol_mapkey::{Kind, MapKey};
use pol_sets::IdSet;

/// Appends the entries of an identity: these keys with its number. The one error is want of memory.
pub fn push_identity(
    out: &mut Vec<(MapKey, Kind)>,
    keys: &[MapKey],
    kind: Kind,
    id: u32,
) -> Result<(), Memory>
    ensures { OnOk result (out.new.items ≡ out.old.items ++ entries_for kind keys.now id) }
{
    for key in keys {
        out.push((with_id(key, id), kind))?;
    }
    Ok(())
}

/// Appends the entries of the identities of a set. The one error is want of memory.
pub fn push_identities(
    out: &mut Vec<(MapKey, Kind)>,
    keys: &[MapKey],
    kind: Kind,
    ids: &IdSet,
) -> Result<(), Memory>
    ensures { OnOk result (out.new.items ≡ out.old.items ++ flat_map (entries_for kind keys.now) ids.now) }
{
    for id in ids.iter() {
        push_identity(out, keys, kind, id)?;
    }
    Ok(())
}
