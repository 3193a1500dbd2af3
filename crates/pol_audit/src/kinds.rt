//! What entries say at ports in order, in one pass over both.
ghost use Rattle.std.specs.Prelude.{◌≡◌, ◌≤◌, ◌+◌, ◌-◌, ◌*◌, ◌++◌, ℕ, List, IfOk, false, drop, take, length, map, option_map, slice_get};
ghost use Rattle.std.specs.List.{Contains};
ghost use Rattle.std.specs.List.Sorted.{IsNonDecreasingBy, IsStrictlySortedBy};
ghost use Rattle.std.specs.Ordering.{nat_cmp};
ghost use Rattle.pol_mapkey.specs.Entries.{Entry};
ghost use Rattle.pol_audit.specs.Kinds.{PortsAscend, begins_by, has_ended, kind_at, last_at, said_by, those_for};

use crate::cuts::is_for;
use pol_data::{Memory, Steps};
use pol_mapkey::{Kind, MapKey, Word};
use pol_ports::Proto;
use std::alloc::Global;
use std::sync::ledger::Ledger;

/// The entries for packets of a protocol, in their order. The one error is want of memory.
fn those_for(
    alloc: Global,
    entries: &[(MapKey, Kind)],
    proto: Proto,
) -> Result<Vec<(MapKey, Kind)>, Memory>
    ensures { IfOk result (λ those. those.items ≡ those_for proto entries.now) }
{
    let mut those = Vec::new(alloc);
    for entry in entries {
        if is_for(&entry.0, proto) {
            those.push(*entry)?;
        }
    }
    Ok(those)
}

/// Whether there is an entry, and its ports begin at this one or before it.
fn begins_by(entries: &[(MapKey, Kind)], port: u16) -> bool
    ensures { result ≡ begins_by port (slice_get entries.now 0) }
{
    match entries.first() {
        None => false,
        Some(entry) => entry.0.port.bits <= port,
    }
}

/// Appends the entries from a place on whose ports begin at this one or before it, and gives the place behind them.
fn take_in<L: Ledger>(
    held: &mut Vec<(MapKey, Kind)>,
    entries: &[(MapKey, Kind)],
    place: usize,
    port: u16,
    steps: &mut Steps<L>,
) -> Result<usize, Memory>
    requires { place ≤ length entries.now }
    ensures taken { IfOk result (λ next. (taken : List Entry)
        × (held.new.items ≡ held.old.items ++ taken) × (take next entries.now ≡ take place entries.now ++ taken)
        × ((e : Entry) → Contains taken e → e.0.port.bits ≤ port)) }
    ensures all { IfOk result (λ next. begins_by port (slice_get (drop next entries.now) 0) ≡ false) }
    ensures within { IfOk result (λ next. next ≤ length entries.now) }
    ensures forward { steps.old ≤ steps.new }
    ensures cost { steps.new ≤ steps.old + (length entries.now - place) }
    ensures each { IfOk result (λ next.
        steps.new + length held.new.items + 2 * place ≤ steps.old + length held.old.items + 2 * next) }
{
    let mut next = place;
    while begins_by(&entries[next..], port) {
        held.push(entries[next])?;
        steps.tick();
        next += 1;
    }
    Ok(next)
}

/// Whether there is an entry, and the last one hasn't the port.
fn has_ended(held: &[(MapKey, Kind)], port: u16) -> bool
    ensures { result ≡ has_ended port (slice_get held.now (length held.now - 1)) }
{
    match held.last() {
        None => false,
        Some(entry) => !entry.0.port.holds(port),
    }
}

/// Leaves out the last entries, up to one that has the port.
fn leave_out<L: Ledger>(held: &mut Vec<(MapKey, Kind)>, port: u16, steps: &mut Steps<L>)
    requires { (e : Entry) → Contains held.now.items e → e.0.port.bits ≤ port }
    ensures low { (e : Entry) → Contains held.new.items e → e.0.port.bits ≤ port }
    ensures same { (q : ℕ) → port ≤ q → last_at q held.new.items ≡ last_at q held.old.items }
    ensures last { slice_get held.new.items (length held.new.items - 1) ≡ last_at port held.new.items }
    ensures forward { steps.old ≤ steps.new }
    ensures each { steps.new + length held.new.items ≤ steps.old + length held.old.items }
{
    while has_ended(held, port) {
        held.pop();
        steps.tick();
    }
}

/// The kind of the last entry.
fn last_kind(held: &[(MapKey, Kind)]) -> Option<Kind>
    ensures { result ≡ option_map (λ e. e.1) (slice_get held.now (length held.now - 1)) }
{
    match held.last() {
        None => None,
        Some(entry) => Some(entry.1),
    }
}

/// The kind of the last entry that has the port, for each of these ports. The one error is want of memory.
fn kinds_of<L: Ledger>(
    alloc: Global,
    entries: &[(MapKey, Kind)],
    ports: &[u16],
    steps: &mut Steps<L>,
) -> Result<Vec<Option<Kind>>, Memory>
    requires entries { IsNonDecreasingBy (λ e. e.0.port.bits) entries.now }
    requires ports { IsStrictlySortedBy nat_cmp ports.now }
    ensures kinds { IfOk result (λ kinds. kinds.items ≡ map (kind_at entries.now) ports.now) }
    ensures forward { steps.old ≤ steps.new }
    ensures cost { steps.new ≤ steps.old + 2 * length entries.now + length ports.now }
{
    let mut kinds = Vec::with_capacity(alloc, ports.len())?;
    let mut held = Vec::new(alloc);
    let mut next = 0;
    for port in ports {
        next = take_in(&mut held, entries, next, *port, steps)?;
        leave_out(&mut held, *port, steps);
        kinds.push(last_kind(&held))?;
        steps.tick();
    }
    Ok(kinds)
}

/// The kinds that entries for packets of a protocol have at these ports.
fn kinds_for<L: Ledger>(
    alloc: Global,
    entries: &[(MapKey, Kind)],
    proto: Proto,
    ports: &[u16],
    steps: &mut Steps<L>,
) -> Result<Vec<Option<Kind>>, Memory>
    requires entries { PortsAscend entries.now }
    requires ports { IsStrictlySortedBy nat_cmp ports.now }
    ensures kinds { IfOk result (λ kinds. kinds.items ≡ map (kind_at (those_for proto entries.now)) ports.now) }
    ensures forward { steps.old ≤ steps.new }
    ensures cost { steps.new ≤ steps.old + 2 * length entries.now + length ports.now }
{
    let those = those_for(alloc, entries, proto)?;
    kinds_of(alloc, &those, ports, steps)
}

/// What the entries of a number and those of 0 say at these ports. The one error is want of memory.
pub(crate) fn words_of<L: Ledger>(
    alloc: Global,
    own: &[(MapKey, Kind)],
    every: &[(MapKey, Kind)],
    proto: Proto,
    ports: &[u16],
    steps: &mut Steps<L>,
) -> Result<Vec<Word>, Memory>
    requires own { PortsAscend own.now }
    requires every { PortsAscend every.now }
    requires ports { IsStrictlySortedBy nat_cmp ports.now }
    ensures words { IfOk result (λ words. words.items ≡ map (said_by proto own.now every.now) ports.now) }
    ensures forward { steps.old ≤ steps.new }
    ensures cost { steps.new ≤ steps.old + 2 * (length own.now + length every.now + length ports.now) }
{
    let own_kinds = kinds_for(alloc, own, proto, ports, steps)?;
    let every_kinds = kinds_for(alloc, every, proto, ports, steps)?;
    let mut words = Vec::with_capacity(alloc, ports.len())?;
    for i in 0..ports.len() {
        words.push(Word::of(own_kinds[i], every_kinds[i]))?;
    }
    Ok(words)
}
