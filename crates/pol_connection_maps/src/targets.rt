//! The connections between ends, each found once for all ends of a kind.
ghost use Rattle.std.specs.Prelude.{◌≡◌, ◌++◌, IfOk, OnOk, map};
ghost use Rattle.pol_connection_maps.specs.Stays.{AreOfMaps};
ghost use Rattle.pol_connection_maps.specs.Telling.{AreOfKinds, connection_to, ends_in, ports_between, reached, targets, told_list};

use crate::kinds::{OfKind, kinds_of};
use crate::told::{ProtoRange, Tells, ports_between};
use pol_connections::{Connection, EndName};
use pol_data::Memory;
use std::alloc::Global;
use std::marker::Model;

/// A connection, but for where it comes from. A contract sees the target's name.
#[derive(Drop)]
struct Target<'a> {
    to: &'a EndName,
    ports: ProtoRange,
}

impl<'a> Model for Target<'a> {
    ghost use Rattle.pol_connection_maps.specs.Telling.{Reached};

    ghost Value = { Reached };

    ghost view = { λ target. record { to = target.to.now; ports = target.ports } };
}

impl<'a> Target<'a> {
    /// A connection to this end.
    fn new(to: &'a EndName, ports: ProtoRange) -> Target<'a>
        ensures { result ≡ reached to.now ports }
    {
        Target { to, ports }
    }

    /// The connection from this end.
    fn coming_from(&self, alloc: Global, from: &EndName) -> Result<Connection, Memory>
        ensures { IfOk result (λ made. made ≡ connection_to from.now self.now) }
    {
        Ok(Connection {
            from: from.copy(alloc)?,
            to: self.to.copy(alloc)?,
            proto: self.ports.proto,
            range: self.ports.range,
        })
    }
}

/// What is told of connections from the end to the first end of each kind.
fn row_from<E: Tells>(
    alloc: Global,
    from: &E,
    firsts: &[&E],
) -> Result<Vec<Vec<ProtoRange>>, Memory>
    ensures { IfOk result (λ row. map (λ cell.
        cell.items) row.items ≡ map (ports_between E.telling from.now) (map (λ first. first.now) firsts.now)) }
{
    let mut row = Vec::new(alloc);
    for first in firsts {
        row.push(ports_between(alloc, from, *first)?)?;
    }
    Ok(row)
}

/// Appends the connections to this end.
fn push_to<'a>(
    out: &mut Vec<Target<'a>>,
    to: &'a EndName,
    ports: &[ProtoRange],
) -> Result<(), Memory>
    ensures { OnOk result (out.new.items ≡ out.old.items ++ map (reached to.now) ports.now) }
{
    for it in ports {
        out.push(Target::new(to, *it))?;
    }
    Ok(())
}

/// The connections from the end, and so from each end that is alike.
fn targets_from<'a, E: Tells>(
    alloc: Global,
    from: &E,
    firsts: &[&E],
    ends: &[OfKind<'a, E>],
) -> Result<Vec<Target<'a>>, Memory>
    requires { AreOfKinds E.telling (map (λ first. first.now) firsts.now) ends.now }
    ensures { IfOk result (λ made. made.items ≡ targets E.telling (ends_in ends.now) from.now) }
{
    let row = row_from(alloc, from, firsts)?;
    let mut out = Vec::new(alloc);
    for to in ends {
        push_to(&mut out, to.end().name(), &row[to.kind()])?;
    }
    Ok(out)
}

/// The connections from the first end of each kind.
fn rows_of<'a, E: Tells>(
    alloc: Global,
    firsts: &[&E],
    ends: &[OfKind<'a, E>],
) -> Result<Vec<Vec<Target<'a>>>, Memory>
    requires { AreOfKinds E.telling (map (λ first. first.now) firsts.now) ends.now }
    ensures { IfOk result (λ rows. map (λ row.
        row.items) rows.items ≡ map (targets E.telling (ends_in ends.now)) (map (λ first. first.now) firsts.now)) }
{
    let mut rows = Vec::new(alloc);
    for first in firsts {
        rows.push(targets_from(alloc, *first, firsts, ends)?)?;
    }
    Ok(rows)
}

/// Appends the connections from this end.
fn push_from(
    alloc: Global,
    out: &mut Vec<Connection>,
    from: &EndName,
    targets: &[Target<'_>],
) -> Result<(), Memory>
    ensures { OnOk result (out.new.items ≡ out.old.items ++ map (connection_to from.now) targets.now) }
{
    for target in targets {
        out.push(target.coming_from(alloc, from)?)?;
    }
    Ok(())
}

/// The connections between ends by kind.
fn list_of<E: Tells>(
    alloc: Global,
    firsts: &[&E],
    ends: &[OfKind<'_, E>],
) -> Result<Vec<Connection>, Memory>
    requires { AreOfKinds E.telling (map (λ first. first.now) firsts.now) ends.now }
    ensures { IfOk result (λ list. list.items ≡ told_list E.telling (ends_in ends.now)) }
{
    let rows = rows_of(alloc, firsts, ends)?;
    let mut out = Vec::new(alloc);
    for from in ends {
        push_from(alloc, &mut out, from.end().name(), &rows[from.kind()])?;
    }
    Ok(out)
}

/// The connections between these ends of which something is told.
pub(crate) fn told_list<E: Tells>(alloc: Global, ends: &[E]) -> Result<Vec<Connection>, Memory>
    requires { AreOfMaps E.stands ends.now }
    ensures { IfOk result (λ list. list.items ≡ told_list E.telling ends.now) }
{
    let kinds = kinds_of(alloc, ends)?;
    list_of(alloc, &kinds.firsts, &kinds.ends)
}
