//! Which held numbers a peer selects.
ghost use Rattle.std.specs.Prelude.{◌≡◌, ◌+◌, ◌≤◌, ◌*◌, IfOk, filter, length};
ghost use Rattle.pol_model_laws.specs.Keeps.{KeepsRows};
ghost use Rattle.pol_model.specs.Selects.{set_at};
ghost use Rattle.pol_ident.specs.Look.{selects_held};
ghost use Rattle.pol_rule.specs.declared.policy.Peer.TheVariants.{Labels as LabelPeer};
ghost use Rattle.pol_headings.specs.Heading.{heading_by};
ghost use Rattle.pol_selcache.specs.Held.{judged_under, rows_judged, steps_at, steps_of};

use crate::ids::one_if;
use pol_data::{Memory, Steps};
use pol_headings::HeadingRef;
use pol_ident::Identities;
use pol_labels::Selector;
use pol_rule::Peer;
use pol_sets::IdSet;
use std::alloc::Global;
use std::sync::ledger::Ledger;

/// Whether the number is held and its labels match the selector: one step where it is held.
fn matches_held<L: Ledger>(
    selector: &Selector,
    number: u32,
    identities: &Identities,
    steps: &mut Steps<L>,
) -> bool
    ensures answer { result ≡ selects_held identities.now (LabelPeer selector.now) number }
    ensures cost { steps.new ≡ steps.old + steps_at identities.now (LabelPeer selector.now) number }
    ensures sound { KeepsRows identities.now }
{
    match identities.labels_of(number) {
        None => false,
        Some(labels) => selector.matches(labels, steps),
    }
}

/// Whether the number is held and the peer selects its identity. A label selector is judged by the call that counts its
/// own step; prefixes and entities take none.
fn selects_held<L: Ledger>(
    peer: &Peer,
    number: u32,
    identities: &Identities,
    steps: &mut Steps<L>,
) -> bool
    ensures answer { result ≡ selects_held identities.now peer.now number }
    ensures cost { steps.new ≡ steps.old + steps_at identities.now peer.now number }
    ensures most { steps.new ≤ steps.old + steps_of peer.now }
    ensures sound { KeepsRows identities.now }
{
    match peer {
        Peer::Labels(selector) => matches_held(selector, number, identities, steps),
        Peer::Cidr { .. } | Peer::Entity(_) => identities.is_selected(number, peer),
    }
}

/// Those of the numbers that the peer selects.
fn selected<L: Ledger>(
    alloc: Global,
    peer: &Peer,
    numbers: &[u32],
    identities: &Identities,
    steps: &mut Steps<L>,
) -> Result<Vec<u32>, Memory>
    ensures selected { IfOk result (λ own. own.items ≡ filter (selects_held identities.now peer.now) numbers.now) }
    ensures cost { steps.new ≤ steps.old + steps_of peer.now * length numbers.now }
{
    let mut own = Vec::new(alloc);
    for number in numbers {
        if selects_held(peer, *number, identities, steps) {
            own.push(*number)?;
        }
    }
    Ok(own)
}

/// Under what all identities stand that the peer selects.
fn judged_under<'a>(peer: &'a Peer) -> HeadingRef<'a>
    ensures { heading_by result ≡ judged_under peer.now }
{
    match peer {
        Peer::Cidr { prefix, .. } => HeadingRef::Prefix(*prefix),
        Peer::Labels(_) | Peer::Entity(_) => HeadingRef::of(peer),
    }
}

/// The held numbers that the peer selects. Those alone are judged that stand where all do that it selects.
pub(crate) fn set_of<L: Ledger>(
    alloc: Global,
    peer: &Peer,
    identities: &Identities,
    steps: &mut Steps<L>,
) -> Result<IdSet, Memory>
    ensures set { IfOk result (λ set. set ≡ set_at identities.now peer.now) }
    ensures cost { steps.new ≤ steps.old + steps_of peer.now * length (rows_judged identities.now peer.now) }
{
    let heading = judged_under(peer);
    let numbers = identities.numbers_under(alloc, &heading)?;
    let own = selected(alloc, peer, numbers.as_slice(), identities, steps)?;
    let set = IdSet::in_blocks(alloc, own)?;
    Ok(set)
}

/// Those of a set of numbers that the peer selects. It takes no memory where there is one number at most.
pub(crate) fn selected_of<L: Ledger>(
    alloc: Global,
    peer: &Peer,
    numbers: &IdSet,
    identities: &Identities,
    steps: &mut Steps<L>,
) -> Result<IdSet, Memory>
    ensures selected { IfOk result (λ own. own ≡ filter (selects_held identities.now peer.now) numbers.now) }
    ensures cost { steps.new ≤ steps.old + steps_of peer.now * length numbers.now }
{
    if let Some(number) = numbers.only() {
        let is_selected = selects_held(peer, number, identities, steps);
        return Ok(one_if(alloc, number, is_selected));
    }
    let several = numbers.to_vec(alloc)?;
    let own = selected(alloc, peer, several.as_slice(), identities, steps)?;
    Ok(IdSet::from_ascending(own))
}
