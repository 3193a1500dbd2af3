//! What numbers that come and go change.
ghost use Rattle.std.specs.Prelude.{◌≡◌, ℕ, ◌+◌, ◌≤◌, ◌*◌, ◌&&◌, ◌++◌, [], true, IfOk, OnOk, OnErr, length, max, option_map};
ghost use Rattle.std.specs.Arc.{arc_value};
ghost use Rattle.std.specs.List.{AllByRecursion, cons_option};
ghost use Rattle.pol_set_changes.specs.Log.{newest};
ghost use Rattle.pol_model.specs.Ascending.{Ascends};
ghost use Rattle.pol_model.specs.Selects.{set_at};
ghost use Rattle.pol_selcache.specs.Live.{AreExact, is_live, label_selectors, rows_without};
ghost use Rattle.pol_selcache.specs.ByHeading.{IsByHeading};
ghost use Rattle.pol_selcache.specs.Held.{steps_of};
ghost use Rattle.pol_selcache.specs.Plan.{change_to, is_empty, changed, changes_for, plan_for};
ghost use Rattle.pol_selcache.specs.Cache.{IsPlanFor, IsSound, MayPlan, carried, with_room};
ghost use Rattle.pol_selectors.specs.Inside.{live_of};
ghost use Rattle.pol_selcache.specs.Moving.{Moving, one_carried};
ghost use Rattle.pol_selcache.specs.Planned.{planned_in, planned_of};
ghost use Rattle.pol_selcache.specs.Tried.{of_numbers};

use crate::SelectorCache;
use crate::by_heading::ByHeading;
use crate::ids::{in_both, set_of_slice};
use crate::judge::selected_of;
use crate::made::{Made, shared};
use crate::tried::{headings_of, tried};
use pol_data::{Memory, Steps};
use pol_ident::Identities;
use pol_selectors::{Row, Selectors};
use pol_set_changes::SetChange;
use pol_sets::IdSet;
use std::alloc::Global;
use std::marker::Model;
use std::sync::Arc;
use std::sync::ledger::Ledger;

/// The change of one selector's set.
#[derive(Drop)]
pub(crate) struct Planned {
    pub(crate) selector: u64,
    pub(crate) gained: IdSet,
    pub(crate) lost: IdSet,
    pub(crate) set: Arc<IdSet>,
}

/// What one revision changes: for each selector whose set differs afterwards that set, and the numbers that it gains and
/// loses. Only `SelectorCache::plan` makes one.
#[derive(Drop)]
pub struct Plan {
    pub(crate) revision: u64,
    pub(crate) changes: Vec<Planned>,
}

impl Model for Plan {
    ghost use Rattle.pol_selcache.specs.Plan.{Plan as OnePlan};

    ghost Value = { OnePlan };

    ghost use Rattle.pol_selcache.specs.Planned.{planned_in};

    ghost view = { λ plan. record { revision = plan.revision; changes = planned_in plan.changes.items } };
}

/// Whether nothing came and nothing went.
fn is_still(gained: &IdSet, lost: &IdSet) -> bool
    ensures { result ≡ (is_empty gained.now && is_empty lost.now) }
{
    gained.is_empty() && lost.is_empty()
}

/// Puts one change more behind the others, where there is one.
fn push_some(changes: &mut Vec<Planned>, change: Option<Planned>) -> Result<(), Memory>
    ensures pushed { OnOk result (planned_in changes.new.items
        ≡ planned_in changes.old.items ++ cons_option (option_map planned_of change) []) }
{
    if let Some(change) = change {
        changes.push(change)?;
    }
    Ok(())
}

/// What the numbers that come and go change of one selector's set, and None where that is nothing. The set is the one
/// that was made last, where that is it.
fn plan_one<L: Ledger>(
    alloc: Global,
    number: u64,
    row: &Row,
    come: &IdSet,
    gone: &IdSet,
    identities: &Identities,
    last: &mut Option<Made>,
    steps: &mut Steps<L>,
) -> Result<Option<Planned>, Memory>
    requires moving { Moving identities.now come.now gone.now row.now.peer (arc_value row.now.set) }
    ensures change { IfOk result (λ change. option_map planned_of change
        ≡ change_to (set_at (rows_without gone.now identities.now) row.now.peer) (live_of number row.now)) }
    ensures cost { steps.new ≤ steps.old + steps_of row.now.peer * length come.now }
{
    let gained = selected_of(alloc, &row.peer, come, identities, steps)?;
    let lost = in_both(alloc, gone, &row.set)?;
    if is_still(&gained, &lost) {
        return Ok(None);
    }
    let set = shared(alloc, &row.set, &gained, &lost, last)?;
    Ok(Some(Planned {
        selector: number,
        gained,
        lost,
        set,
    }))
}

/// The same, where each number that comes or goes may stand under its headings: those alone are judged that the peer may
/// select.
fn plan_next<L: Ledger>(
    alloc: Global,
    number: u64,
    row: &Row,
    come: &ByHeading<'_>,
    gone: &ByHeading<'_>,
    identities: &Identities,
    last: &mut Option<Made>,
    steps: &mut Steps<L>,
) -> Result<Option<Planned>, Memory>
    requires come { IsByHeading identities.now come.now }
    requires gone { IsByHeading identities.now gone.now }
    requires moving { Moving identities.now come.now.numbers.now gone.now.numbers.now row.now.peer
        (arc_value row.now.set) }
    ensures change { IfOk result (λ change. option_map planned_of change
        ≡ change_to (set_at (rows_without gone.now.numbers.now identities.now) row.now.peer) (live_of number row.now)) }
    ensures cost { steps.new ≤ steps.old + steps_of row.now.peer * length come.now.numbers.now }
{
    let come = come.tried_for(alloc, &row.peer)?;
    let gone = gone.tried_for(alloc, &row.peer)?;
    let change = plan_one(alloc, number, row, &come, &gone, identities, last, steps)?;
    Ok(change)
}

/// The same of each selector of these numbers.
fn plan_each<L: Ledger>(
    alloc: Global,
    table: &Selectors,
    tried: &[u64],
    come: &ByHeading<'_>,
    gone: &ByHeading<'_>,
    identities: &Identities,
    steps: &mut Steps<L>,
) -> Result<Vec<Planned>, Memory>
    requires come { IsByHeading identities.now come.now }
    requires gone { IsByHeading identities.now gone.now }
    requires moving { AllByRecursion (λ s.
        Moving identities.now come.now.numbers.now gone.now.numbers.now s.peer s.set) table.now }
    requires live { AllByRecursion (λ n. is_live n table.now ≡ true) tried.now }
    requires ascend { Ascends tried.now }
    ensures changes { IfOk result (λ changes. planned_in changes.items
        ≡ changes_for (rows_without gone.now.numbers.now identities.now) (of_numbers tried.now table.now)) }
    ensures cost { steps.new ≤ steps.old + label_selectors table.now * length come.now.numbers.now }
{
    let mut changes = Vec::with_capacity(alloc, tried.len())?;
    let mut near = 0;
    let mut last = None;
    for number in tried {
        let (row, next) = table.row_near(*number, near);
        near = next;
        let change = plan_next(
            alloc, *number, row, come, gone, identities, &mut last, steps,
        )?;
        push_some(&mut changes, change)?;
    }
    Ok(changes)
}

/// The same of each selector. Only those are tried that stand under a heading of a number that comes or goes, and each for
/// those of the numbers alone that stand under its own: no other peer selects the number.
fn plan_all<L: Ledger>(
    alloc: Global,
    table: &Selectors,
    come: &IdSet,
    gone: &IdSet,
    identities: &Identities,
    steps: &mut Steps<L>,
) -> Result<Vec<Planned>, Memory>
    requires moving { AllByRecursion (λ s. Moving identities.now come.now gone.now s.peer s.set) table.now }
    ensures changes { IfOk result (λ changes.
        planned_in changes.items ≡ changes_for (rows_without gone.now identities.now) table.now) }
    ensures cost { steps.new ≤ steps.old + label_selectors table.now * length come.now }
{
    let headings = headings_of(alloc, come, gone, identities)?;
    let numbers = tried(alloc, table, &headings)?;
    let come = ByHeading::new(alloc, come, identities)?;
    let gone = ByHeading::new(alloc, gone, identities)?;
    let numbers = numbers.as_slice();
    let changes = plan_each(alloc, table, numbers, &come, &gone, identities, steps)?;
    Ok(changes)
}

impl SelectorCache {
    /// What changes where some numbers come and others go, which are all held now: the sets afterwards are those over the
    /// held numbers without the ones that go. All memory is taken here, and no set is changed: a plan that isn't carried
    /// out is dropped, and leaves nothing but room. Revisions count from 1. `Memory` is want of memory.
    pub fn plan<L: Ledger>(
        &mut self,
        revision: u64,
        come: &[u32],
        gone: &[u32],
        identities: &Identities,
        steps: &mut Steps<L>,
    ) -> Result<Plan, Memory>
        requires may { MayPlan revision come.now gone.now identities.now self.old }
        ensures plan { IfOk result (λ plan.
            plan ≡ plan_for revision (rows_without gone.now identities.now) self.old.live) }
        ensures exact { IfOk result (λ plan.
            AreExact (rows_without gone.now identities.now) (changed plan.changes self.old.live)) }
        ensures fits { IfOk result (λ plan. IsPlanFor plan self.new) }
        ensures same { self.new ≡ with_room self.new.log.spare self.old }
        ensures reserved { IfOk result (λ plan. self.new.log.spare ≡ max self.old.log.spare (length plan.changes)) }
        ensures err { OnErr result (self.new ≡ self.old) }
        ensures sound { IsSound self.new }
        ensures cost { steps.new ≤ steps.old + label_selectors self.old.live * length come.now }
    {
        let alloc = self.alloc;
        identities.fits_together();
        let come = set_of_slice(alloc, come)?;
        let gone = set_of_slice(alloc, gone)?;
        let changes = plan_all(alloc, &self.table, &come, &gone, identities, steps)?;
        self.log.reserve(changes.len())?;
        Ok(Plan { revision, changes })
    }

    /// Makes the changes of the last plan of this cache, since which no selector came or went. It takes no memory.
    pub fn carry_out(&mut self, plan: Plan)
        requires fits { IsPlanFor plan self.old }
        ensures carried { self.new ≡ carried plan self.old }
        ensures sound { IsSound self.new }
    {
        let Plan { revision, changes } = plan;
        self.carry_all(revision, changes);
    }

    /// Makes one change after another.
    fn carry_all(&mut self, revision: u64, changes: Vec<Planned>)
        requires fits { IsPlanFor (record { revision = revision; changes = planned_in changes.items }) self.old }
        ensures carried { self.new
            ≡ carried (record { revision = revision; changes = planned_in changes.items }) self.old }
        ensures sound { IsSound self.new }
    {
        let _ = &self.next;
        let mut near = 0;
        for change in changes {
            near = self.carry_one(revision, change, near);
        }
    }

    /// Makes one change, of a selector that is looked for at a place first, and gives the place behind it.
    fn carry_one(&mut self, revision: u64, change: Planned, near: usize) -> usize
        requires live { is_live change.selector self.old.live ≡ true }
        requires in_order { newest self.old.log ≤ revision }
        requires room { 1 ≤ self.old.log.spare }
        ensures carried { self.new ≡ one_carried revision self.old (planned_of change) }
        ensures sound { IsSound self.new }
    {
        let Planned {
            selector,
            gained,
            lost,
            set,
        } = change;
        let next = self.table.put_set(selector, set, near);
        self.log.record(SetChange {
            selector,
            revision,
            gained,
            lost,
        });
        next
    }

    /// `plan`, and then `carry_out`.
    pub fn change<L: Ledger>(
        &mut self,
        revision: u64,
        come: &[u32],
        gone: &[u32],
        identities: &Identities,
        steps: &mut Steps<L>,
    ) -> Result<(), Memory>
        requires may { MayPlan revision come.now gone.now identities.now self.old }
        ensures changed { OnOk result ((spare : ℕ) × (self.new ≡ carried
            (plan_for revision (rows_without gone.now identities.now) self.old.live) (with_room spare self.old))) }
        ensures exact { OnOk result (AreExact (rows_without gone.now identities.now) self.new.live) }
        ensures err { OnErr result (self.new ≡ self.old) }
        ensures sound { IsSound self.new }
        ensures cost { steps.new ≤ steps.old + label_selectors self.old.live * length come.now }
    {
        let plan = self.plan(revision, come, gone, identities, steps)?;
        self.carry_out(plan);
        Ok(())
    }
}
