//! The rows of identities.
ghost use Rattle.std.specs.Prelude.{◌≡◌, Some, true, IfOk, map, option_map};
ghost use Rattle.pol_model_laws.specs.Holding.{has_row, row_of};

use pol_data::Memory;
use pol_headings::HeadingRef;
use pol_ident::Identities;
use pol_labels::LabelSet;
use pol_model::IdentityRow;
use std::alloc::Global;

/// The labels of a number that has a row.
fn labels_of(identities: &Identities, number: u32) -> &LabelSet
    requires { has_row number identities.now ≡ true }
    ensures { option_map (λ row. row.labels) (row_of number identities.now) ≡ Some result.now }
{
    match identities.labels_of(number) {
        Some(labels) => labels,
        None => unreachable!(),
    }
}

/// How many hold a number that has a row.
fn holders_of(identities: &Identities, number: u32) -> u64
    requires { has_row number identities.now ≡ true }
    ensures { option_map (λ row. row.holders) (row_of number identities.now) ≡ Some result }
{
    match identities.holders_of(number) {
        Some(holders) => holders,
        None => unreachable!(),
    }
}

/// The row of a number that has one.
fn row_of(alloc: Global, identities: &Identities, number: u32) -> Result<IdentityRow, Memory>
    requires { has_row number identities.now ≡ true }
    ensures { IfOk result (λ row. row_of number identities.now ≡ Some row) }
{
    let labels = labels_of(identities, number).copy(alloc)?;
    Ok(IdentityRow {
        number,
        labels,
        prefix: identities.prefix_of(number),
        holders: holders_of(identities, number),
    })
}

/// The numbers of all rows, in their order.
fn all_numbers(alloc: Global, identities: &Identities) -> Result<Vec<u32>, Memory>
    ensures { IfOk result (λ numbers. numbers.items ≡ map (λ row. row.number) identities.now) }
{
    identities.numbers_under(alloc, &HeadingRef::Any)
}

/// The rows of these numbers, which are those of all identities.
fn rows_at(
    alloc: Global,
    identities: &Identities,
    numbers: &[u32],
) -> Result<Vec<IdentityRow>, Memory>
    requires { numbers.now ≡ map (λ row. row.number) identities.now }
    ensures { IfOk result (λ rows. rows.items ≡ identities.now) }
{
    identities.fits_together();
    let mut rows = Vec::new(alloc);
    for number in numbers {
        rows.push(row_of(alloc, identities, *number)?)?;
    }
    Ok(rows)
}

/// The rows of all identities, ascending by number.
pub(crate) fn rows_of(alloc: Global, identities: &Identities) -> Result<Vec<IdentityRow>, Memory>
    ensures { IfOk result (λ rows. rows.items ≡ identities.now) }
{
    let numbers = all_numbers(alloc, identities)?;
    rows_at(alloc, identities, &numbers)
}
