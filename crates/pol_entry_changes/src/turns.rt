//! What comes and goes when filters and sets change.
ghost use Rattle.std.specs.Prelude.{◌≡◌, ◌++◌, IfOk, IsTrue, OnOk};
ghost use Rattle.std.specs.List.{AllByRecursion};
ghost use Rattle.pol_mapkey.specs.declared.Kind.{Kind as OneKind};
ghost use Rattle.pol_model.specs.PolicyMap.{allow_every};
ghost use Rattle.pol_sets.specs.Sets.{set_given};
ghost use Rattle.pol_entry_changes.specs.Balance.{GoesOn, Leads};
ghost use Rattle.pol_entry_changes.specs.Given.{entry_where, of_filters, of_no_filter, raw_of};
ghost use Rattle.pol_entry_changes.specs.PeerRow.{Ascend};
ghost use Rattle.pol_entry_changes.specs.Told.{Stays};

use crate::entries::given_within;
use crate::moved_rows::MovedRows;
use crate::pairs::pass;
use crate::rows::{MOST_MOVED, PeerRows, sets_ascend};
use crate::standing::all_filters_stand;
use crate::staying::Moved;
use pol_data::Memory;
use pol_distill::every_key;
use pol_filters::Filters;
use pol_mapkey::{Kind, MapKey};
use pol_model::{EVERY_IDENTITY, HOST_IDENTITY};
use pol_ports::Direction;
use pol_sets::{Move, SetRow};
use std::alloc::Global;

/// Appends an allow that comes or goes.
fn push_turn(out: &mut Moved, was: bool, is: bool, key: MapKey) -> Result<(), Memory>
    ensures { OnOk result
        (GoesOn (entry_where was (key, OneKind.Allow)) (entry_where is (key, OneKind.Allow)) out.old out.new) }
{
    if is && !was {
        out.come.push((key, Kind::Allow))?;
    }
    if was && !is {
        out.gone.push((key, Kind::Allow))?;
    }
    Ok(())
}

/// Appends the allow of every key of an identity, if it comes or goes.
fn push_turn_of(out: &mut Moved, was: bool, is: bool, dir: Direction, id: u32) -> Result<(), Memory>
    ensures { OnOk result
        (GoesOn (entry_where was (allow_every dir id)) (entry_where is (allow_every dir id)) out.old out.new) }
{
    push_turn(out, was, is, every_key(dir, id))
}

/// Appends what comes and goes of the entries that no filter gives.
fn push_others(out: &mut Moved, was: &Filters, is: &Filters) -> Result<(), Memory>
    ensures { OnOk result (GoesOn (of_no_filter was.now) (of_no_filter is.now) out.old out.new) }
{
    let ingress = Direction::Ingress;
    push_turn_of(
        out,
        !was.ingress_enforced,
        !is.ingress_enforced,
        ingress,
        EVERY_IDENTITY,
    )?;
    push_turn_of(out, was.localhost, is.localhost, ingress, HOST_IDENTITY)?;
    let egress = Direction::Egress;
    push_turn_of(
        out,
        !was.egress_enforced,
        !is.egress_enforced,
        egress,
        EVERY_IDENTITY,
    )
}

/// Appends what comes and goes of all filters.
fn push_passes(
    alloc: Global,
    out: &mut Moved,
    was: &Filters,
    was_rows: &PeerRows<'_>,
    is: &Filters,
    is_rows: &MovedRows<'_>,
    stand: bool,
) -> Result<(), Memory>
    requires ingress_stands { IsTrue stand → was.now.ingress ≡ is.now.ingress }
    requires egress_stands { IsTrue stand → was.now.egress ≡ is.now.egress }
    requires ingress { Stays was_rows.now is_rows.now.rows is_rows.now.moves was.now.ingress is.now.ingress }
    requires egress { Stays was_rows.now is_rows.now.rows is_rows.now.moves was.now.egress is.now.egress }
    requires before { AllByRecursion Ascend was_rows.now }
    requires after { AllByRecursion Ascend is_rows.now.rows }
    ensures { OnOk result (GoesOn (of_filters (set_given was_rows.now) was.now)
        (of_filters (set_given is_rows.now.rows) is.now) out.old out.new) }
{
    let ingress = Direction::Ingress;
    pass(
        alloc,
        out,
        ingress,
        was.ingress.as_slice(),
        is.ingress.as_slice(),
        stand,
        was_rows,
        is_rows,
    )?;
    let egress = Direction::Egress;
    pass(
        alloc,
        out,
        egress,
        was.egress.as_slice(),
        is.egress.as_slice(),
        stand,
        was_rows,
        is_rows,
    )
}

/// All that was goes, and all that is comes. The errors are want of memory, and that too many entries come or go.
pub fn replaced(
    alloc: Global,
    was: &Filters,
    was_rows: &[SetRow],
    is: &Filters,
    is_rows: &[SetRow],
) -> Result<Moved, Memory>
    ensures { IfOk result (Leads (raw_of was.now was_rows.now) (raw_of is.now is_rows.now)) }
{
    Ok(Moved {
        come: given_within(alloc, is, is_rows, MOST_MOVED)?,
        gone: given_within(alloc, was, was_rows, MOST_MOVED)?,
    })
}

/// What comes and goes between two lists of filters of which something is enforced.
fn walked(
    alloc: Global,
    was: &Filters,
    was_rows: &[SetRow],
    is: &Filters,
    is_rows: &[SetRow],
    moves: &[Move],
) -> Result<Moved, Memory>
    requires ingress { Stays was_rows.now is_rows.now moves.now was.now.ingress is.now.ingress }
    requires egress { Stays was_rows.now is_rows.now moves.now was.now.egress is.now.egress }
    ensures { IfOk result (Leads (of_filters (set_given was_rows.now) was.now
        ++ of_no_filter was.now) (of_filters (set_given is_rows.now) is.now ++ of_no_filter is.now)) }
{
    sets_ascend(was_rows);
    sets_ascend(is_rows);
    let stand = all_filters_stand(was, is);
    let old = PeerRows::new(alloc, was_rows, &[], !stand, MOST_MOVED)?;
    let new = MovedRows::new(alloc, is_rows, moves, !stand)?;
    let mut out = Moved {
        come: Vec::new(alloc),
        gone: Vec::new(alloc),
    };
    push_passes(alloc, &mut out, was, &old, is, &new, stand)?;
    push_others(&mut out, was, is)?;
    Ok(out)
}

/// Which entries come and go when filters and sets change. Filters that come or go are told by place and stamp, and the moves
/// tell how the sets of the peers of filters that stay changed. The errors are want of memory, and that more than
/// 524,288 entries come, or go, which are counted before they are made.
pub fn moved(
    alloc: Global,
    was: &Filters,
    was_rows: &[SetRow],
    is: &Filters,
    is_rows: &[SetRow],
    moves: &[Move],
) -> Result<Moved, Memory>
    requires ingress { Stays was_rows.now is_rows.now moves.now was.now.ingress is.now.ingress }
    requires egress { Stays was_rows.now is_rows.now moves.now was.now.egress is.now.egress }
    ensures { IfOk result (Leads (raw_of was.now was_rows.now) (raw_of is.now is_rows.now)) }
{
    if was.never {
        return replaced(alloc, was, was_rows, is, is_rows);
    }
    if is.never {
        return replaced(alloc, was, was_rows, is, is_rows);
    }
    walked(alloc, was, was_rows, is, is_rows, moves)
}
