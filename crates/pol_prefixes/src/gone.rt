//! Which numbers a release lets go.
ghost use Rattle.std.specs.Prelude.{◌≡◌, IfOk};
ghost use Rattle.std.specs.List.{IsDistinct, filter_map};
ghost use Rattle.pol_addr.specs.Prefix.{same_prefix};
ghost use Rattle.pol_model.specs.Prefixes.{prefixes_released};
ghost use Rattle.pol_prefixes.specs.Beyond.{AreBeyond};
ghost use Rattle.pol_prefixes.specs.Going.{going, has_last};

use pol_addr::Prefix;
use pol_data::Memory;
use pol_ident::Identities;
use pol_model::LOCAL_FIRST;
use std::alloc::Global;

/// Whether the number is a prefix's and has one holder.
fn has_last(identities: &Identities, number: u32) -> bool
    ensures { result ≡ has_last number identities.now }
{
    number >= LOCAL_FIRST && identities.holders_of(number) == Some(1)
}

/// The number of the prefix, where a release lets it go.
fn going(identities: &Identities, prefix: &Prefix) -> Option<u32>
    ensures { result ≡ going prefix.now identities.now }
{
    match identities.number_of_prefix(prefix) {
        Some(number) if has_last(identities, number) => Some(number),
        _ => None,
    }
}

/// Those of each of the prefixes.
fn all_going(
    alloc: Global,
    identities: &Identities,
    prefixes: &[Prefix],
) -> Result<Vec<u32>, Memory>
    ensures { IfOk result (λ numbers. numbers.items ≡ filter_map (λ prefix. going prefix identities.now) prefixes.now) }
{
    prefixes
        .iter()
        .filter_map(|prefix| going(identities, prefix))
        .collect(alloc)
}

/// The numbers that `release_prefixes` would let go: those that these prefixes alone hold. The reserved
/// numbers 9 of 0.0.0.0/0 and 10 of ::/0 stay. The one error is want of memory.
pub fn gone_numbers(
    alloc: Global,
    identities: &Identities,
    prefixes: &[Prefix],
) -> Result<Vec<u32>, Memory>
    requires once { IsDistinct same_prefix prefixes.now }
    ensures gone { IfOk result (λ gone.
        AreBeyond (prefixes_released prefixes.now identities.now) identities.now gone.items) }
{
    identities.fits_together();
    all_going(alloc, identities, prefixes)
}
