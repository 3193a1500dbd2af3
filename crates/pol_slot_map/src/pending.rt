//! The changes since the map that was published last.
ghost use Rattle.std.specs.Prelude.{◌≡◌, [], IfOk, map};
ghost use Rattle.pol_kept_map.specs.Work.{map_of};
ghost use Rattle.pol_map_changes.specs.Changes.{changed, whole};
ghost use Rattle.pol_trie.specs.PolicyMap.{PolicyMap};
ghost use Rattle.pol_slot_map.specs.Renewed.{clear_of, cleared, entries_of, renewed};

use pol_data::Memory;
use pol_kept_map::{Origin, Work};
use pol_map_changes::{Change, ChangeList};
use std::alloc::Global;
use std::marker::Model;

/// Changes that are listed, or the two maps between which they are.
#[derive(Drop)]
enum Form {
    Listed(ChangeList),
    Between(Option<Origin>, Origin),
}

/// The changes that lead from one map to another. Where the maps are too large for a list of what differs, they are kept in
/// its place, by what they are made of: then each key of the one is cleared, and each entry of the other set. A contract sees
/// the list.
#[derive(Drop)]
pub struct Pending {
    form: Form,
}

impl Model for Pending {
    ghost use Rattle.std.specs.Prelude.{List};
    ghost use Rattle.pol_map_changes.specs.declared.change.Change.{Change};
    ghost use Rattle.pol_slot_map.specs.Renewed.{list_of};

    ghost Value = { List Change };

    ghost view = { λ p. list_of p.form };
}

/// The list of no changes. It takes no memory.
pub(crate) fn no_changes(alloc: Global) -> ChangeList
    ensures { result ≡ [] }
{
    ChangeList::from_vec(Vec::new(alloc))
}

/// `Clear` of the key of the change.
fn clear_of(change: &Change) -> Change
    ensures { result ≡ clear_of change.now }
{
    Change::Clear(change.key())
}

/// The same of each change.
fn clear_each(alloc: Global, changes: &[Change]) -> Result<Vec<Change>, Memory>
    ensures { IfOk result (λ clears. clears.items ≡ map clear_of changes.now) }
{
    let mut clears = Vec::with_capacity(alloc, changes.len())?;
    for change in changes {
        clears.push(clear_of(change))?;
    }
    Ok(clears)
}

/// The same of a list. The one error is want of memory.
fn clears_of(alloc: Global, list: &ChangeList) -> Result<ChangeList, Memory>
    ensures { IfOk result (λ clears. clears ≡ map clear_of list.now) }
{
    let changes = list.as_slice();
    let clears = clear_each(alloc, changes)?;
    Ok(ChangeList::from_vec(clears))
}

/// `Clear` of each key of the map, if there is one. The one error is want of memory.
fn clears_in(alloc: Global, base: &Option<Origin>) -> Result<ChangeList, Memory>
    ensures { IfOk result (λ clears. clears ≡ cleared (entries_of base.now)) }
{
    match base {
        None => Ok(no_changes(alloc)),
        Some(origin) => {
            let whole = origin.whole(alloc)?;
            clears_of(alloc, &whole)
        }
    }
}

/// The changes from the one map to the other. The one error is want of memory.
fn listed(alloc: Global, base: &Option<Origin>, map: &Origin) -> Result<ChangeList, Memory>
    ensures { IfOk result (λ list. list ≡ renewed (entries_of base.now) (map_of map.now)) }
{
    let clears = clears_in(alloc, base)?;
    let whole = map.whole(alloc)?;
    let list = clears.then(alloc, &whole)?;
    Ok(list)
}

impl Pending {
    /// These changes.
    pub(crate) fn listed(list: ChangeList) -> Pending
        ensures { result ≡ list }
    {
        Pending {
            form: Form::Listed(list),
        }
    }

    /// The changes from the one map to the other.
    pub(crate) fn between(base: Option<Origin>, map: Origin) -> Pending
        ensures { result ≡ renewed (entries_of base) (map_of map) }
    {
        Pending {
            form: Form::Between(base, map),
        }
    }

    /// `Set` of each entry of the work's map, listed where the work counts its keys. The one error is want of memory.
    pub(crate) fn whole(alloc: Global, work: &Work) -> Result<Pending, Memory>
        ensures { IfOk result (λ pending. pending ≡ whole (map_of work.now)) }
    {
        if !work.is_counted() {
            let origin = work.origin()?;
            return Ok(Pending::between(None, origin));
        }
        let list = work.whole(alloc)?;
        Ok(Pending::listed(list))
    }

    /// The list of the changes, in memory of its own. The one error is want of memory.
    pub fn list(&self, alloc: Global) -> Result<ChangeList, Memory>
        ensures list { IfOk result (λ list. list ≡ self.now) }
    {
        match &self.form {
            Form::Listed(list) => list.copy(alloc),
            Form::Between(base, map) => listed(alloc, base, map),
        }
    }

    /// Lists the changes, where they aren't yet. The one error is want of memory.
    pub(crate) fn make_list(&mut self, alloc: Global) -> Result<(), Memory>
        ensures same { self.new ≡ self.old }
    {
        if let Form::Between(base, map) = &self.form {
            let list = listed(alloc, base, map)?;
            self.form = Form::Listed(list);
        }
        Ok(())
    }

    /// The list of these changes and of later ones, which makes of each table what these make of it and then the later ones.
    /// The one error is want of memory.
    pub(crate) fn then(&self, alloc: Global, later: &ChangeList) -> Result<ChangeList, Memory>
        ensures leads { IfOk result (λ both.
            (table : PolicyMap) → changed both table ≡ changed later.now (changed self.now table)) }
    {
        match &self.form {
            Form::Listed(list) => list.then(alloc, later),
            Form::Between(base, map) => {
                let list = listed(alloc, base, map)?;
                list.then(alloc, later)
            }
        }
    }
}
