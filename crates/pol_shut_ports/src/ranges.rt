//! The ranges of a connection's ports, by what its ends shut.
ghost use Rattle.std.specs.Prelude.{◌≡◌, ℕ, List, IfOk, map};
ghost use Rattle.pol_port_ranges.specs.Ranges.{ranges};
ghost use Rattle.pol_shut_ports.specs.Pairs.{changed_at, halves_at, open_at};

use crate::cuts::{are_ports, in_order, port_0, push_cuts};
use crate::word::word_at;
use pol_audit::Difference;
use pol_data::Memory;
use pol_port_ranges::{Halves, PortSaid, Range, ranges_of};
use std::alloc::Global;

/// What the two ends say of a port.
fn halves_at(sent: &[Difference], received: &[Difference], port: u16) -> Halves
    ensures { result ≡ halves_at sent.now received.now port }
{
    Halves {
        sent: word_at(sent, port),
        received: word_at(received, port),
    }
}

/// What is said of each of these ports in a state alone.
fn words_alone(
    alloc: Global,
    sent: &[Difference],
    received: &[Difference],
    ports: &[u16],
) -> Result<Vec<PortSaid>, Memory>
    ensures { IfOk result (λ words. words.items ≡ map (open_at sent.now received.now) ports.now) }
{
    let mut words = Vec::new(alloc);
    for port in ports {
        words.push(PortSaid {
            before: None,
            after: halves_at(sent, received, *port),
            halves: false,
        })?;
    }
    Ok(words)
}

/// What is said of each of these ports before and after a change.
fn words_changed(
    alloc: Global,
    halves: bool,
    sent_before: &[Difference],
    received_before: &[Difference],
    sent: &[Difference],
    received: &[Difference],
    ports: &[u16],
) -> Result<Vec<PortSaid>, Memory>
    ensures { IfOk result (λ words.
        words.items ≡ map (changed_at halves sent_before.now received_before.now sent.now received.now) ports.now) }
{
    let mut words = Vec::new(alloc);
    for port in ports {
        words.push(PortSaid {
            before: Some(halves_at(sent_before, received_before, *port)),
            after: halves_at(sent, received, *port),
            halves,
        })?;
    }
    Ok(words)
}

/// The ranges of ports on which a connection is open, of which the source shuts the first ranges and the target the second. The one
/// error is want of memory.
pub fn open_ranges(
    alloc: Global,
    sent: &[Difference],
    received: &[Difference],
) -> Result<Vec<Range>, Memory>
    ensures { IfOk result (λ made. made.items ≡ ranges (open_at sent.now received.now)) }
{
    let mut cuts = port_0(alloc)?;
    push_cuts(&mut cuts, sent)?;
    push_cuts(&mut cuts, received)?;
    let ports = in_order(cuts);
    are_ports(&ports);
    let words = words_alone(alloc, sent, received, &ports)?;
    ranges_of(alloc, &ports, &words)
}

/// The ranges of ports on which a connection opens or shuts, or where halves are told, on which one of them has another word: where
/// before a change its source shut the first ranges and its target the second, and after it the third and the fourth. The one error
/// is want of memory.
pub fn changed_ranges(
    alloc: Global,
    halves: bool,
    sent_before: &[Difference],
    received_before: &[Difference],
    sent: &[Difference],
    received: &[Difference],
) -> Result<Vec<Range>, Memory>
    ensures { IfOk result (λ made.
        made.items ≡ ranges (changed_at halves sent_before.now received_before.now sent.now received.now)) }
{
    let mut cuts = port_0(alloc)?;
    push_cuts(&mut cuts, sent_before)?;
    push_cuts(&mut cuts, received_before)?;
    push_cuts(&mut cuts, sent)?;
    push_cuts(&mut cuts, received)?;
    let ports = in_order(cuts);
    are_ports(&ports);
    let words = words_changed(
        alloc,
        halves,
        sent_before,
        received_before,
        sent,
        received,
        &ports,
    )?;
    ranges_of(alloc, &ports, &words)
}
