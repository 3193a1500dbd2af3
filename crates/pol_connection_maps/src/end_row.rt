//! The ends of a state.
ghost use Rattle.std.specs.Prelude.{◌≡◌, ◌++◌, IfOk, List, OnOk, filter, map};
ghost use Rattle.std.specs.List.{IsDistinct};
ghost use Rattle.std.specs.Str.{bytes_eq};
ghost use Rattle.pol_connections.specs.Ends.{by_name, stands_alone};
ghost use Rattle.pol_connection_maps.specs.EndRows.{alone_row, end_rows, endpoint_row, named_row, number_row, region_row};
ghost use Rattle.pol_connection_maps.specs.Named.{AreNumbersOf};
ghost use Rattle.pol_connection_maps.specs.Rows.{AreSound};
ghost use Rattle.pol_model.specs.declared.row.IdentityRow.{IdentityRow as OneRow};

use crate::names::numbers_by_name;
use crate::regions::{numbers_of_prefixes, region_number};
use crate::rows::StateRows;
use pol_addr::Prefix;
use pol_connections::EndName;
use pol_data::{Memory, Text};
use pol_model::{Endpoint, IdentityRow, NamedIdentity, is_core};
use std::alloc::Global;
use std::collections::BTreeMap;

/// An end of a state.
#[derive(Drop)]
pub(crate) struct EndRow {
    /// Who it is.
    pub(crate) name: EndName,
    /// The number by which other ends see it.
    pub(crate) number: u32,
    /// Whether it has a policy of its own.
    pub(crate) own: bool,
}

/// Appends the endpoints of these names and numbers.
fn push_numbers(
    alloc: Global,
    out: &mut Vec<EndRow>,
    numbers: &BTreeMap<Text, u32>,
) -> Result<(), Memory>
    ensures { OnOk result (out.new.items ≡ out.old.items ++ map number_row numbers.now.entries) }
{
    for (name, number) in numbers {
        out.push(EndRow {
            name: EndName::Endpoint(name.copy(alloc)?),
            number: *number,
            own: true,
        })?;
    }
    Ok(())
}

/// Appends the endpoints, by name.
fn push_endpoints(
    alloc: Global,
    out: &mut Vec<EndRow>,
    endpoints: &[Endpoint],
) -> Result<(), Memory>
    requires { IsDistinct bytes_eq (map (λ endpoint. endpoint.name) endpoints.now) }
    ensures { OnOk result (out.new.items ≡ out.old.items ++ map endpoint_row (by_name (λ endpoint.
        endpoint.name) endpoints.now)) }
{
    let numbers = numbers_by_name(alloc, endpoints)?;
    push_numbers(alloc, out, &numbers)
}

/// Appends the named identities.
fn push_named(alloc: Global, out: &mut Vec<EndRow>, named: &[NamedIdentity]) -> Result<(), Memory>
    ensures { OnOk result (out.new.items ≡ out.old.items ++ map named_row named.now) }
{
    for identity in named {
        out.push(EndRow {
            name: EndName::Identity(identity.name.copy(alloc)?),
            number: identity.number,
            own: true,
        })?;
    }
    Ok(())
}

/// Whether the identity is a reserved one of the cluster's own.
fn stands_alone(row: &IdentityRow) -> bool
    ensures { result ≡ stands_alone row.now }
{
    is_core(row.number)
}

/// Appends the reserved identities but those of the worlds.
fn push_reserved(out: &mut Vec<EndRow>, identities: &[IdentityRow]) -> Result<(), Memory>
    ensures { OnOk result (out.new.items ≡ out.old.items ++ map alone_row (filter stands_alone identities.now)) }
{
    for row in identities {
        if stands_alone(row) {
            out.push(EndRow {
                name: EndName::Reserved(row.number),
                number: row.number,
                own: false,
            })?;
        }
    }
    Ok(())
}

/// Appends the regions, where prefixes have these numbers.
fn push_regions(
    out: &mut Vec<EndRow>,
    numbers: &BTreeMap<Prefix, u32>,
    regions: &[Prefix],
) -> Result<(), Memory>
    ensures { OnOk result ((rows : List OneRow)
        → AreNumbersOf rows numbers.now → out.new.items ≡ out.old.items ++ map (region_row rows) regions.now) }
{
    for region in regions {
        out.push(EndRow {
            name: EndName::Region(*region),
            number: region_number(numbers, region),
            own: false,
        })?;
    }
    Ok(())
}

/// The ends of a state with these rows, where the addresses outside the endpoints are in these regions.
pub(crate) fn end_rows(
    alloc: Global,
    rows: &StateRows<'_>,
    regions: &[Prefix],
) -> Result<Vec<EndRow>, Memory>
    requires { AreSound rows.now }
    ensures { IfOk result (λ ends. ends.items ≡ end_rows rows.now regions.now) }
{
    let numbers = numbers_of_prefixes(alloc, rows.identities)?;
    let mut ends = Vec::new(alloc);
    push_endpoints(alloc, &mut ends, rows.endpoints)?;
    push_named(alloc, &mut ends, rows.named)?;
    push_reserved(&mut ends, rows.identities)?;
    push_regions(&mut ends, &numbers, regions)?;
    Ok(ends)
}
