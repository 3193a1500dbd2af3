//! Spots of selectors, ascending by number. The spot of a selector that has gone stays for a while.
ghost use Rattle.std.specs.Prelude.{◌≡◌, ◌<◌, ◌≤◌, nat_lt, option_map, slice_get, IsTrue, None, Some, true, is_some, filter, vec_len, vec_capacity};
ghost use Rattle.std.specs.List.{AllByRecursion};
ghost use Rattle.std.specs.Arc.{arc_value};
ghost use Rattle.pol_model.specs.Ascending.{Ascends};
ghost use Rattle.pol_selectors.specs.declared.spots.Spot.{Spot as OneSpot};
ghost use Rattle.pol_selectors.specs.Inside.{IsFrom, IsLiveAt, IsPutAt, IsSpotOf, holds_at, live_at, live_in, spot_numbers};
ghost use Rattle.pol_selectors.specs.Live.{is_live, with_count, with_numbers};

use pol_rule::Peer;
use pol_sets::IdSet;
use std::sync::Arc;

/// What is kept of a live selector beside its number.
#[derive(Drop)]
pub struct Row {
    /// Whose selector it is.
    pub peer: Peer,
    /// How many references there are to it: one at least.
    pub references: u64,
    /// The numbers that its peer selects.
    pub set: Arc<IdSet>,
}

/// A number, and its selector; None once that has gone.
#[derive(Drop)]
pub(crate) struct Spot {
    pub(crate) number: u64,
    pub(crate) row: Option<Row>,
}

/// The place of the first spot whose number isn't below this one.
fn first_from(spots: &[Spot], number: u64) -> usize
    requires ascend { Ascends (spot_numbers spots.now) }
    ensures from { IsFrom number spots.now result }
{
    spots.partition_point(
        |spot: &Spot| -> bool
            ensures { result ≡ nat_lt spot.now.number number }
        { spot.number < number },
    )
}

/// Whether the spot at a place is that of the number.
fn is_at(spots: &[Spot], place: usize, number: u64) -> bool
    ensures { IsTrue result → IsSpotOf number spots.now place }
{
    match spots.get(place) {
        None => false,
        Some(spot) => spot.number == number,
    }
}

/// The place of the first spot whose number isn't below this one, looked for at a place first.
fn first_near(spots: &[Spot], number: u64, near: usize) -> usize
    requires ascend { Ascends (spot_numbers spots.now) }
    ensures from { IsFrom number spots.now result }
{
    if is_at(spots, near, number) {
        near
    } else {
        first_from(spots, number)
    }
}

/// The place of a live selector, which is looked for at a place first.
pub(crate) fn place_near(spots: &[Spot], number: u64, near: usize) -> usize
    requires ascend { Ascends (spot_numbers spots.now) }
    requires live { is_live number (live_in spots.now) ≡ true }
    ensures place { IsLiveAt number spots.now result }
{
    first_near(spots, number, near)
}

/// Whether a spot is that of the number, and its selector is live.
fn is_live_spot(spot: &Spot, number: u64) -> bool
    ensures { result ≡ holds_at number spot.now }
{
    spot.number == number && spot.row.is_some()
}

/// Whether the selector of the number is live, by the place of the first spot whose number isn't below it.
fn is_live_from(spots: &[Spot], place: usize, number: u64) -> bool
    requires ascend { Ascends (spot_numbers spots.now) }
    requires from { IsFrom number spots.now place }
    ensures { result ≡ is_live number (live_in spots.now) }
{
    match spots.get(place) {
        None => false,
        Some(spot) => is_live_spot(spot, number),
    }
}

/// Whether the selector of the number is live, whose spot is looked for at a place first, and the place behind.
pub(crate) fn holds_near(spots: &[Spot], number: u64, near: usize) -> (bool, usize)
    requires ascend { Ascends (spot_numbers spots.now) }
    ensures { result.0 ≡ is_live number (live_in spots.now) }
{
    let place = first_near(spots, number, near);
    (is_live_from(spots, place, number), place.wrapping_add(1))
}

/// The row at the place of a live selector.
pub(crate) fn row_at(spots: &[Spot], place: usize, number: u64) -> &Row
    requires place { IsLiveAt number spots.now place }
    ensures { (spot : OneSpot) → slice_get spots.now place ≡ Some spot → spot.row ≡ Some result.now }
{
    match &spots[place].row {
        Some(row) => row,
        None => unreachable!(),
    }
}

/// Another count of references.
pub(crate) fn put_references(spots: &mut Vec<Spot>, place: usize, number: u64, references: u64)
    requires place { IsLiveAt number spots.old.items place }
    ensures { (spot : OneSpot) → slice_get spots.old.items place ≡ Some spot
        → IsPutAt place (option_map (with_count references) (live_at spot)) spots.old.items spots.new.items }
{
    if let Some(row) = &mut spots[place].row {
        row.references = references;
    }
}

/// Another set.
pub(crate) fn put_set(spots: &mut Vec<Spot>, place: usize, number: u64, set: Arc<IdSet>)
    requires place { IsLiveAt number spots.old.items place }
    ensures { (spot : OneSpot) → slice_get spots.old.items place ≡ Some spot
        → IsPutAt place (option_map (with_numbers (arc_value set)) (live_at spot)) spots.old.items spots.new.items }
{
    if let Some(row) = &mut spots[place].row {
        row.set = set;
    }
}

/// The selector at a place goes.
pub(crate) fn put_none(spots: &mut Vec<Spot>, place: usize, number: u64)
    requires place { IsLiveAt number spots.old.items place }
    ensures { IsPutAt place None spots.old.items spots.new.items }
{
    spots[place].row = None;
}

/// Takes out the spots of selectors that have gone, where they are more than half.
pub(crate) fn sweep(spots: &mut Vec<Spot>, live: usize)
    requires ascend { Ascends (spot_numbers spots.old.items) }
    ensures live { live_in spots.new.items ≡ live_in spots.old.items }
    ensures ascend { Ascends (spot_numbers spots.new.items) }
{
    if spots.len() / 2 > live {
        sweep_all(spots);
    }
}

/// Takes them all out.
fn sweep_all(spots: &mut Vec<Spot>)
    ensures { spots.new.items ≡ filter (λ spot. is_some spot.row) spots.old.items }
{
    spots.retain(|spot| spot.row.is_some());
}

/// Takes out the spots from a number on, where their selectors have all gone.
pub(crate) fn cut(spots: &mut Vec<Spot>, number: u64)
    requires ascend { Ascends (spot_numbers spots.old.items) }
    requires above { AllByRecursion (λ s. s.number < number) (live_in spots.old.items) }
    ensures live { live_in spots.new.items ≡ live_in spots.old.items }
    ensures below { AllByRecursion (λ n. n < number) (spot_numbers spots.new.items) }
    ensures ascend { Ascends (spot_numbers spots.new.items) }
    ensures len { vec_len spots.new ≤ vec_len spots.old }
    ensures capacity { vec_capacity spots.new ≡ vec_capacity spots.old }
{
    let end = first_from(spots, number);
    spots.truncate(end);
}
