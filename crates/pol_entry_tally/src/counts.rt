//! How often the keys of one direction and identity are given, each at its place.
ghost use Rattle.std.specs.Prelude.{◌≡◌, ◌++◌, ◌∷◌, [], ◌≤◌, OnOk, length, take, drop};
ghost use Rattle.pol_entry_tally.specs.Counts.{AreBefore, AreFrom, Ascend, behind, counted, counts_of, times_at};

use pol_data::Memory;
use std::alloc::Global;
use std::mem::size_of;
use std::slice;

/// How often the key of a place is given.
#[derive(Clone, Copy, PartialEq, Eq, Debug)]
pub(crate) struct Count {
    /// The kind, and what of the key's number stands below direction and identity.
    pub(crate) place: u32,
    /// How often.
    pub(crate) times: u32,
}

// What a group takes for a key and a kind, beside the room that its list has free.
const _: () = prove!(size_of::<Count>() == 8);

/// The counts of a group: one in the value itself, more in memory of their own.
#[derive(Drop)]
pub(crate) enum Counts {
    One(Count),
    Many(Vec<Count>),
}

impl Counts {
    /// No counts. It takes no memory.
    pub(crate) fn none(alloc: Global) -> Counts
        ensures { counts_of result ≡ [] }
    {
        Counts::Many(Vec::new(alloc))
    }

    /// These counts.
    pub(crate) fn from_vec(counts: Vec<Count>) -> Counts
        ensures { counts_of result ≡ counts.items }
    {
        if let [count] = counts.as_slice() {
            return Counts::One(*count);
        }
        Counts::Many(counts)
    }

    /// The counts.
    pub(crate) fn as_slice(&self) -> &[Count]
        ensures { result.now ≡ counts_of self.now }
    {
        match self {
            Counts::One(count) => slice::from_ref(count),
            Counts::Many(counts) => counts.as_slice(),
        }
    }
}

/// Puts a count behind these, where it is one of something.
pub(crate) fn push_times(out: &mut Vec<Count>, place: u32, times: u32) -> Result<(), Memory>
    ensures { OnOk result (out.new.items ≡ out.old.items ++ counted place times) }
{
    if 0 < times {
        out.push(Count { place, times })?;
    }
    Ok(())
}

/// How many of the counts stand before the place, where the first of them does.
fn rank_of(counts: &[Count], place: u32) -> usize
    requires { Ascend counts.now }
    ensures bound { result ≤ length counts.now }
    ensures before { AreBefore place (take result counts.now) }
    ensures from { AreFrom place (drop result counts.now) }
{
    counts.partition_point(|own| own.place < place)
}

/// The counts before the place, and the others. The first is looked at before the rest is searched.
pub(crate) fn split_at_place(counts: &[Count], place: u32) -> (&[Count], &[Count])
    requires { Ascend counts.now }
    ensures parts { counts.now ≡ result.0.now ++ result.1.now }
    ensures before { AreBefore place result.0.now }
    ensures from { AreFrom place result.1.now }
{
    match counts.first() {
        None => counts.split_at(0),
        Some(count) => {
            if place <= count.place {
                counts.split_at(0)
            } else {
                counts.split_at(rank_of(counts, place))
            }
        }
    }
}

/// The times of the first count, if that stands at the place.
pub(crate) fn first_at(counts: &[Count], place: u32) -> u32
    requires ascend { Ascend counts.now }
    requires from { AreFrom place counts.now }
    ensures { result ≡ times_at counts.now place }
{
    match counts.first() {
        None => 0,
        Some(count) => { if count.place == place { count.times } else { 0 } }
    }
}

/// The counts without the first, if that stands at the place.
pub(crate) fn behind(counts: &[Count], place: u32) -> &[Count]
    ensures { result.now ≡ behind place counts.now }
{
    match counts.first() {
        None => counts,
        Some(count) => {
            if count.place == place {
                counts.split_at(1).1
            } else {
                counts
            }
        }
    }
}

/// The times at the place.
pub(crate) fn times_at(counts: &[Count], place: u32) -> u32
    requires { Ascend counts.now }
    ensures { result ≡ times_at counts.now place }
{
    let (_, from) = split_at_place(counts, place);
    first_at(from, place)
}
