//! Where the keys of an identity stand, found without a hash.
ghost use Rattle.std.specs.Prelude.{◌≡◌, Some, IfSome, option_copied};
ghost use Rattle.std.specs.Map.{lookup};

use crate::key_set::KeySet;
use crate::root::Root;
use indexmap::IndexMap;
use pol_data::Memory;
use pol_ports::Direction;
use std::alloc::Global;

/// Places in the table of keys, each in the slot that the lowest bits of its identity's number give. The table may have
/// other keys there, so a look compares them with those that are sought.
#[derive(Drop)]
pub(crate) struct RootHints {
    places: Vec<u32>,
}

/// The slots of identity 0, one for each direction. They are the first, and no other identity has them.
const OF_ZERO: usize = 2;

/// The slot of a direction and an identity among so many. Identities that follow one another have slots of their own.
fn slot_of(root: Root, slots: usize) -> usize {
    let side = match root.dir {
        Direction::Ingress => 0,
        Direction::Egress => 1,
    };
    if root.id == 0 {
        return side;
    }
    let number = 2 * (root.id as usize) + side;
    OF_ZERO + (number & slots.wrapping_sub(OF_ZERO + 1))
}

impl RootHints {
    /// No hints. It takes no memory.
    pub(crate) fn new(alloc: Global) -> RootHints {
        RootHints {
            places: Vec::new(alloc),
        }
    }

    /// The keys of the direction and the identity, where their slot has their place.
    fn hinted<'a>(&self, roots: &'a IndexMap<Root, KeySet>, root: Root) -> Option<&'a KeySet>
        ensures { IfSome result (λ keys. lookup (⟦<Root as PartialEq>⟧.eq root) roots.now.entries ≡ Some keys.now) }
    {
        let place = *self.places.get(slot_of(root, self.places.len()))?;
        let (found, keys) = roots.get_index(place as usize)?;
        if *found == root { Some(keys) } else { None }
    }

    /// The keys of the direction and the identity.
    pub(crate) fn find<'a>(
        &self,
        roots: &'a IndexMap<Root, KeySet>,
        root: Root,
    ) -> Option<&'a KeySet>
        ensures { option_copied result ≡ lookup (⟦<Root as PartialEq>⟧.eq root) roots.now.entries }
    {
        match self.hinted(roots, root) {
            Some(keys) => Some(keys),
            None => roots.get(&root),
        }
    }

    /// Makes slots for twice as many, where there are fewer than two for each of the table's keys. Where there is no memory
    /// for them it goes on with those that there are.
    fn make_room(&mut self, alloc: Global, roots: &IndexMap<Root, KeySet>) {
        let slots = self.places.len().saturating_sub(OF_ZERO);
        if roots.len() <= slots / 2 {
            return;
        }
        let mut places = Vec::new(alloc);
        if places.resize(OF_ZERO + (2 * slots).max(16), 0).is_ok() {
            self.places = places;
            self.note_all(roots);
        }
    }

    fn note_all(&mut self, roots: &IndexMap<Root, KeySet>) {
        for place in 0..roots.len() {
            if let Some((root, _)) = roots.get_index(place) {
                self.put(*root, place);
            }
        }
    }

    /// Notes where the keys of a direction and an identity stand, if the table has some. It takes no memory.
    fn note(&mut self, roots: &IndexMap<Root, KeySet>, root: Root) {
        if let Some(place) = roots.get_index_of(&root) {
            self.put(root, place);
        }
    }

    /// Notes where new keys stand, where the table had fewer before.
    pub(crate) fn grown(
        &mut self,
        alloc: Global,
        roots: &IndexMap<Root, KeySet>,
        before: usize,
        root: Root,
    ) {
        if before < roots.len() {
            self.make_room(alloc, roots);
            self.note(roots, root);
        }
    }

    /// Notes where the keys that stood last stand now, where the table had more before. It takes no memory.
    pub(crate) fn shrunk(
        &mut self,
        roots: &IndexMap<Root, KeySet>,
        before: usize,
        last: Option<Root>,
    ) {
        match last {
            Some(root) if roots.len() < before => self.note(roots, root),
            _ => {}
        }
    }

    fn put(&mut self, root: Root, place: usize) {
        let slot = slot_of(root, self.places.len());
        let Ok(place) = u32::try_from(place) else {
            return;
        };
        if let Some(noted) = self.places.get_mut(slot) {
            *noted = place;
        }
    }

    /// The same hints once more. The one error is want of memory.
    pub(crate) fn copy(&self) -> Result<RootHints, Memory> {
        Ok(RootHints {
            places: self.places.clone()?,
        })
    }
}
