//! The ends that both states of a change have.
ghost use Rattle.std.specs.Prelude.{◌≡◌, IfOk, IsTrue, List};
ghost use Rattle.pol_connection_maps.specs.Lists.{kept_ends};
ghost use Rattle.pol_connection_maps.specs.Named.{AreFirsts};
ghost use Rattle.pol_connection_maps.specs.Seen.{Seen as OneSeen, StayAsTheyAre};
ghost use Rattle.pol_connection_maps.specs.Stays.{AreKnown, AreOfOneKind, AreOfTheirMaps, AreSeenAlike};

use crate::end_map::EndMap;
use crate::named::{IsNamed, first_named, firsts_of};
use crate::stays::{are_of_one_kind, is_as_it_was};
use pol_connections::EndName;
use pol_data::Memory;
use std::alloc::Global;
use std::collections::BTreeMap;
use std::marker::Model;

/// An end before and after a change, and whether the change is told of each half. A contract sees the three.
#[derive(Drop)]
pub(crate) struct KeptEnd<'a> {
    before: &'a EndMap,
    after: &'a EndMap,
    halves: bool,
    same: bool,
}

impl<'a> Model for KeptEnd<'a> {
    ghost use Rattle.std.specs.Prelude.{IsTrue};
    ghost use Rattle.pol_connection_maps.specs.Seen.{IsAsItWas, Kept};

    ghost Value = { Kept };

    ghost view = { λ kept. record { before = kept.before.now; after = kept.after.now; halves = kept.halves } };

    ghost invariant = { λ kept. IsTrue kept.same
        → IsAsItWas (record { before = kept.before.now; after = kept.after.now; halves = kept.halves }) };
}

impl IsNamed for EndMap {
    ghost name_of = { λ end. end.name };

    fn own_name(&self) -> &EndName {
        self.name()
    }
}

impl<'a> KeptEnd<'a> {
    /// An end before and after a change, and whether it is known to be as it was.
    fn new(before: &'a EndMap, after: &'a EndMap, halves: bool, same: bool) -> KeptEnd<'a>
        requires { IsTrue same → AreSeenAlike before.now after.now }
        ensures { result ≡ record { before = before.now; after = after.now; halves = halves } }
    {
        KeptEnd {
            before,
            after,
            halves,
            same,
        }
    }

    /// The end before the change.
    pub(crate) fn before(&self) -> &'a EndMap
        ensures { result.now ≡ self.now.before }
    {
        self.before
    }

    /// The end after the change.
    pub(crate) fn after(&self) -> &'a EndMap
        ensures { result.now ≡ self.now.after }
    {
        self.after
    }

    /// Whether the change is told of each half.
    pub(crate) fn by_halves(&self) -> bool
        ensures { result ≡ self.now.halves }
    {
        self.halves
    }

    /// Whether both are of one kind before the change and after it, which is told alike of both.
    pub(crate) fn is_of_kind(&self, other: &KeptEnd<'_>) -> bool
        ensures before { IsTrue result → AreOfOneKind self.now.before other.now.before }
        ensures after { IsTrue result → AreOfOneKind self.now.after other.now.after }
        ensures halves { IsTrue result → self.now.halves ≡ other.now.halves }
    {
        self.halves == other.halves
            && are_of_one_kind(self.before, other.before)
            && are_of_one_kind(self.after, other.after)
    }

    /// Whether nothing that is said of connections of the two ends changes.
    pub(crate) fn stays_with(&self, other: &KeptEnd<'_>) -> bool
        ensures { IsTrue result → StayAsTheyAre self.now other.now }
    {
        self.same && other.same
    }
}

/// The ends that are among these by their names, and whether the change is told of each half.
fn kept_among<'a>(
    alloc: Global,
    halves: bool,
    firsts: &BTreeMap<EndName, &'a EndMap>,
    after: &'a [EndMap],
    still: &BTreeMap<u32, bool>,
) -> Result<Vec<KeptEnd<'a>>, Memory>
    requires { AreKnown firsts.now after.now still.now }
    ensures { IfOk result (λ kept. (before : List OneSeen)
        → AreFirsts (λ end. end.name) before firsts.now → kept.items ≡ kept_ends halves before after.now) }
{
    let mut kept = Vec::new(alloc);
    for end in after {
        if let Some(old) = first_named(firsts, end.name()) {
            let same = is_as_it_was(still, old, end);
            kept.push(KeptEnd::new(old, end, halves, same))?;
        }
    }
    Ok(kept)
}

/// The ends of the second state that the first one has too, and whether the change is told of each half. The table says of
/// which numbers the maps stay.
pub(crate) fn kept_ends<'a>(
    alloc: Global,
    halves: bool,
    before: &'a [EndMap],
    after: &'a [EndMap],
    still: &BTreeMap<u32, bool>,
) -> Result<Vec<KeptEnd<'a>>, Memory>
    requires { AreOfTheirMaps before.now after.now still.now }
    ensures { IfOk result (λ kept. kept.items ≡ kept_ends halves before.now after.now) }
{
    let firsts = firsts_of(alloc, before)?;
    kept_among(alloc, halves, &firsts, after, still)
}
