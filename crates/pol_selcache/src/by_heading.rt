//! Numbers that come or go, under the headings of the peers that may select them.
ghost use Rattle.std.specs.Prelude.{◌≡◌, ℕ, ◌^◌, ◌<◌, ◌≤◌, ◌==◌, ◌&&◌, ◌||◌, All, IfOk, OnOk, List, length};
ghost use Rattle.std.specs.List.Sorted.{IsStrictlySortedBy};
ghost use Rattle.std.specs.Ordering.{nat_cmp};
ghost use Rattle.pol_set_changes.specs.Ids.{has};
ghost use Rattle.pol_headings.specs.declared.heading.Heading.{Heading as OneHeading};
ghost use Rattle.pol_headings.specs.Filed.{is_filed};
ghost use Rattle.pol_headings.specs.Heading.{heading_of};
ghost use Rattle.pol_headings.specs.Tried.{is_among};
ghost use Rattle.pol_model.specs.declared.row.IdentityRow.{IdentityRow as OneRow};
ghost use Rattle.pol_selcache.specs.ByHeading.{AreFiled, AreSmall, AreThoseFor, IsByHeading, IsFiledToo};

use crate::tried::add_number;
use pol_data::Memory;
use pol_headings::{Filing, Heading, HeadingRef, Headings};
use pol_ident::Identities;
use pol_rule::Peer;
use pol_sets::IdSet;
use std::alloc::Global;

/// Numbers, and where there are several each of them under its headings.
#[derive(Drop)]
pub(crate) struct ByHeading<'a> {
    pub(crate) numbers: &'a IdSet,
    pub(crate) filing: Filing,
}

/// Files the number under each of the headings.
fn file_under(filing: &mut Filing, headings: &[Heading], number: u32) -> Result<(), Memory>
    ensures filed { OnOk result ((heading : OneHeading) (n : ℕ) → is_filed filing.new heading n
        ≡ (is_filed filing.old heading n || (is_among headings.now heading && (number == n)))) }
    ensures small { number < 2 ^ 32 }
{
    for heading in headings {
        filing.file(&HeadingRef::of_heading(heading), u64::from(number))?;
    }
    Ok(())
}

/// Files the number under the headings of all peers that select it.
fn file_number(
    filing: &mut Filing,
    alloc: Global,
    number: u32,
    identities: &Identities,
) -> Result<(), Memory>
    ensures filed { OnOk result (IsFiledToo identities.now number filing.old filing.new) }
{
    let mut headings = Headings::new(alloc);
    add_number(&mut headings, number, identities)?;
    file_under(filing, headings.as_slice(), number)?;
    Ok(())
}

/// Files each of the numbers under the headings of all peers that select it.
fn file_each(alloc: Global, numbers: &[u32], identities: &Identities) -> Result<Filing, Memory>
    ensures filed { IfOk result (AreFiled identities.now numbers.now) }
    ensures small { IfOk result AreSmall }
{
    let mut filing = Filing::new(alloc);
    for number in numbers {
        file_number(&mut filing, alloc, *number, identities)?;
    }
    Ok(filing)
}

/// The numbers under their headings, where there are several.
fn file_several(alloc: Global, numbers: &[u32], identities: &Identities) -> Result<Filing, Memory>
    ensures filed { IfOk result (λ filing. 1 < length numbers.now → AreFiled identities.now numbers.now filing) }
    ensures small { IfOk result AreSmall }
{
    if numbers.len() <= 1 {
        return Ok(Filing::new(alloc));
    }
    let filing = file_each(alloc, numbers, identities)?;
    Ok(filing)
}

/// Numbers of 32 bits, as such.
fn narrowed(alloc: Global, numbers: &[u64]) -> Result<Vec<u32>, Memory>
    requires fits { All (λ n. n < 2 ^ 32) numbers.now }
    ensures { IfOk result (λ narrow. narrow.items ≡ numbers.now) }
{
    let mut narrow = Vec::with_capacity(alloc, numbers.len())?;
    for number in numbers {
        narrow.push(*number as u32)?;
    }
    Ok(narrow)
}

/// What is filed under the peer's heading.
fn filed_for(alloc: Global, filing: &Filing, peer: &Peer) -> Result<IdSet, Memory>
    requires small { AreSmall filing.now }
    ensures members { IfOk result (λ few. (n : ℕ) → has n few ≡ is_filed filing.now (heading_of peer.now) n) }
    ensures ascend { IfOk result (IsStrictlySortedBy nat_cmp) }
{
    let filed = filing.filed_at(alloc, &HeadingRef::of(peer))?;
    let few = narrowed(alloc, &filed)?;
    Ok(IdSet::from_ascending(few))
}

impl<'a> ByHeading<'a> {
    /// The numbers, under their headings where there are several. The one error is want of memory.
    pub(crate) fn new(
        alloc: Global,
        numbers: &'a IdSet,
        identities: &Identities,
    ) -> Result<ByHeading<'a>, Memory>
        ensures numbers { IfOk result (λ own. own.numbers.now ≡ numbers.now) }
        ensures filed { IfOk result (IsByHeading identities.now) }
    {
        let several = numbers.to_vec(alloc)?;
        let filing = file_several(alloc, several.as_slice(), identities)?;
        Ok(ByHeading { numbers, filing })
    }

    /// Those of the numbers that the peer may select: of several the ones under its heading. It takes no memory where there
    /// is one number at most.
    pub(crate) fn tried_for(&self, alloc: Global, peer: &Peer) -> Result<IdSet, Memory>
        requires small { AreSmall self.now.filing }
        ensures few { IfOk result (λ few.
            (rows : List OneRow) → IsByHeading rows self.now → AreThoseFor rows peer.now self.now.numbers.now few) }
    {
        if self.numbers.len() <= 1 {
            let same = self.numbers.copy(alloc)?;
            return Ok(same);
        }
        let few = filed_for(alloc, &self.filing, peer)?;
        Ok(few)
    }
}
