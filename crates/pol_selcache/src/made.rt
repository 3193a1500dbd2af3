//! A set that is made once for selectors, one tried after another, whose sets are equal and change alike.
ghost use Rattle.std.specs.Prelude.{◌≡◌, IfOk, IfSome, IsTrue};
ghost use Rattle.std.specs.Arc.{arc_value};
ghost use Rattle.pol_selcache.specs.Made.{IsMadeOf, is_of};

use pol_data::Memory;
use pol_sets::IdSet;
use std::alloc::Global;
use std::marker::Model;
use std::sync::Arc;

/// The set that was made last, and what it was made of: another set, the numbers that it gained, and those that it lost.
#[derive(Drop)]
pub(crate) struct Made {
    was: Arc<IdSet>,
    gained: IdSet,
    lost: IdSet,
    set: Arc<IdSet>,
}

impl Model for Made {
    ghost use Rattle.pol_selcache.specs.Made.{Made as OneMade};

    ghost Value = { OneMade };

    ghost use Rattle.std.specs.Arc.{arc_value};
    ghost use Rattle.pol_selcache.specs.Made.{IsMadeOf};

    ghost view = { λ made.
        record { was = arc_value made.was; gained = made.gained; lost = made.lost; set = arc_value made.set } };

    ghost invariant = { λ made. IsMadeOf (arc_value made.was) made.gained made.lost (arc_value made.set) };
}

impl Made {
    /// Makes a set.
    fn new(alloc: Global, was: &Arc<IdSet>, gained: &IdSet, lost: &IdSet) -> Result<Made, Memory>
        ensures was { IfOk result (λ made. made.was ≡ arc_value was.now) }
        ensures gained { IfOk result (λ made. made.gained ≡ gained.now) }
        ensures lost { IfOk result (λ made. made.lost ≡ lost.now) }
    {
        let set = was.moved(alloc, gained, lost)?;
        Ok(Made {
            was: Arc::try_clone(was)?,
            gained: gained.copy(alloc)?,
            lost: lost.copy(alloc)?,
            set: Arc::new(alloc, set)?,
        })
    }

    /// Whether it was made of these, and of few numbers: many aren't compared, since a set of many shares all that doesn't
    /// change.
    fn is_of(&self, was: &IdSet, gained: &IdSet, lost: &IdSet) -> bool
        ensures { IsTrue result → IsTrue (is_of was.now gained.now lost.now self.now) }
    {
        was.is_in_one_piece()
            && self.was.is_in_one_piece()
            && *self.was == *was
            && self.gained == *gained
            && self.lost == *lost
    }

    /// The set that was made.
    fn share(&self) -> Result<Arc<IdSet>, Memory>
        ensures made { IfOk result (λ set. IsMadeOf self.now.was self.now.gained self.now.lost (arc_value set)) }
    {
        let set = Arc::try_clone(&self.set)?;
        Ok(set)
    }

    /// The same, where it was made of these.
    fn share_if_of(
        &self,
        was: &IdSet,
        gained: &IdSet,
        lost: &IdSet,
    ) -> Result<Option<Arc<IdSet>>, Memory>
        ensures made { IfOk result (λ found.
            IfSome found (λ set. IsMadeOf was.now gained.now lost.now (arc_value set))) }
    {
        if !self.is_of(was, gained, lost) {
            return Ok(None);
        }
        let set = self.share()?;
        Ok(Some(set))
    }
}

/// The set that was made last, where it was made of these.
fn reused(
    last: &Option<Made>,
    was: &IdSet,
    gained: &IdSet,
    lost: &IdSet,
) -> Result<Option<Arc<IdSet>>, Memory>
    ensures made { IfOk result (λ found. IfSome found (λ set. IsMadeOf was.now gained.now lost.now (arc_value set))) }
{
    match last {
        None => Ok(None),
        Some(made) => made.share_if_of(was, gained, lost),
    }
}

/// Makes the set, which is the one that was made last from then on.
fn renewed(
    alloc: Global,
    was: &Arc<IdSet>,
    gained: &IdSet,
    lost: &IdSet,
    last: &mut Option<Made>,
) -> Result<Arc<IdSet>, Memory>
    ensures made { IfOk result (λ set. IsMadeOf (arc_value was.now) gained.now lost.now (arc_value set)) }
{
    let made = Made::new(alloc, was, gained, lost)?;
    let set = made.share()?;
    *last = Some(made);
    Ok(set)
}

/// The set with the numbers that it gained and without those that it lost: the one that was made last, where that was
/// made of the same.
pub(crate) fn shared(
    alloc: Global,
    was: &Arc<IdSet>,
    gained: &IdSet,
    lost: &IdSet,
    last: &mut Option<Made>,
) -> Result<Arc<IdSet>, Memory>
    ensures made { IfOk result (λ set. IsMadeOf (arc_value was.now) gained.now lost.now (arc_value set)) }
{
    let found = reused(last, was, gained, lost)?;
    match found {
        Some(set) => Ok(set),
        None => renewed(alloc, was, gained, lost, last),
    }
}
