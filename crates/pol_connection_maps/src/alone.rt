//! The names of ends that one state alone has.
ghost use Rattle.std.specs.Prelude.{◌≡◌, IfOk, List};
ghost use Rattle.pol_connection_maps.specs.declared.end_row.EndRow.{EndRow as OneRow};
ghost use Rattle.pol_connection_maps.specs.Lists.{has_name, names_alone};
ghost use Rattle.pol_connection_maps.specs.Named.{AreFirsts};

use crate::end_row::EndRow;
use crate::named::{IsNamed, first_named, firsts_of};
use pol_connections::EndName;
use pol_data::Memory;
use std::alloc::Global;
use std::collections::BTreeMap;

impl IsNamed for EndRow {
    ghost name_of = { λ row. row.name };

    fn own_name(&self) -> &EndName {
        &self.name
    }
}

/// Whether one of these has the name.
fn has_name(firsts: &BTreeMap<EndName, &EndRow>, name: &EndName) -> bool
    ensures { (one : List OneRow) → AreFirsts (λ row. row.name) one firsts.now → result ≡ has_name name.now one }
{
    first_named(firsts, name).is_some()
}

/// The names of the rows of which none of these has the name.
fn names_beside(
    alloc: Global,
    firsts: &BTreeMap<EndName, &EndRow>,
    other: &[EndRow],
) -> Result<Vec<EndName>, Memory>
    ensures { IfOk result (λ names.
        (one : List OneRow) → AreFirsts (λ row. row.name) one firsts.now → names.items ≡ names_alone one other.now) }
{
    let mut names = Vec::new(alloc);
    for row in other {
        if !has_name(firsts, &row.name) {
            names.push(row.name.copy(alloc)?)?;
        }
    }
    Ok(names)
}

/// The names of the second rows that the first ones don't have.
pub(crate) fn names_alone(
    alloc: Global,
    one: &[EndRow],
    other: &[EndRow],
) -> Result<Vec<EndName>, Memory>
    ensures { IfOk result (λ names. names.items ≡ names_alone one.now other.now) }
{
    let firsts = firsts_of(alloc, one)?;
    names_beside(alloc, &firsts, other)
}
