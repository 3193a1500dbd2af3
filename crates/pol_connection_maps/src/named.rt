//! The first of each name.
ghost use Rattle.std.specs.Prelude.{◌≡◌, IfOk, List};
ghost use Rattle.std.specs.Option.{option_copied};
ghost use Rattle.pol_connection_maps.specs.Named.{AreFirsts, first_named};

use pol_connections::EndName;
use pol_data::Memory;
use std::alloc::Global;
use std::collections::BTreeMap;

/// What has the name of an end.
pub(crate) trait IsNamed {
    ghost use Rattle.pol_connections.specs.declared.end.EndName.{EndName};

    /// Whose name it has.
    ghost name_of: { Self → EndName };

    /// The name.
    fn own_name(&self) -> &EndName
        ensures { result.now ≡ name_of self.now };
}

/// The first of each name.
pub(crate) fn firsts_of<'a, T: IsNamed>(
    alloc: Global,
    all: &'a [T],
) -> Result<BTreeMap<EndName, &'a T>, Memory>
    ensures { IfOk result (AreFirsts T.name_of all.now) }
{
    let mut firsts = BTreeMap::new(alloc);
    for i in (0..all.len()).rev() {
        let one = &all[i];
        firsts.insert(one.own_name().copy(alloc)?, one)?;
    }
    Ok(firsts)
}

/// The first of that name.
pub(crate) fn first_named<'a, T: IsNamed>(
    firsts: &BTreeMap<EndName, &'a T>,
    name: &EndName,
) -> Option<&'a T>
    ensures { (all : List T) → AreFirsts T.name_of all firsts.now
        → option_copied result ≡ first_named T.name_of name.now all }
{
    match firsts.get(name) {
        Some(one) => Some(*one),
        None => None,
    }
}
