//! A set of identity numbers.
ghost use Rattle.std.specs.Prelude.{◌≡◌, ◌==◌, ◌↔◌, ◌++◌, ◌∷◌, IsTrue, IfOk, IfSome, IsSome, OnOk, [], length, nat_eq};
ghost use Rattle.std.specs.List.{list_any};
ghost use Rattle.std.specs.List.Sorted.{IsStrictlySortedBy};
ghost use Rattle.std.specs.Ordering.{nat_cmp};
ghost use Rattle.std.specs.Cmp.Lexicographic.{pointwise, nat_list_eq_equiv};
ghost use Rattle.std.specs.Cmp.{partial_equiv_from_equiv};
ghost use Rattle.pol_sets.specs.Blocks.{numbers_in};
ghost use Rattle.pol_sets.specs.Ids.{union, without};
ghost use Rattle.pol_sets.specs.IdSet.{IsIdSet};

use crate::SetIter;
use crate::block::{Block, MOST};
use crate::blocks::{count_in, has_in, moved_blocks, push_all, push_numbers};
use crate::stretches::moved_numbers;
use pol_data::{Items, Memory, TryCopy};
use std::alloc::Global;
use std::marker::Model;
use std::slice;

/// Where the numbers of a set are: one in the set itself, few in memory of their own, and many in blocks, which sets share.
#[derive(Debug, Drop)]
enum Ids {
    One(u32),
    Few(Items<u32>),
    Many(Items<Block>),
}

/// A set of identity numbers. A contract sees it as the list of its numbers, which ascend, each once.
/// So two sets with the same numbers are equal.
#[derive(Debug, Drop)]
pub struct IdSet {
    ids: Ids,
}

impl Model for IdSet {
    ghost use Rattle.std.specs.Prelude.{ℕ, List};
    ghost use Rattle.pol_sets.specs.IdSet.{IsIdSet};
    ghost use Rattle.pol_sets.specs.Inside.{ids_in};

    ghost Value = { List ℕ };

    ghost view = { λ set. ids_in set.ids };

    ghost invariant = { λ set. IsIdSet (ids_in set.ids) };
}

impl IdSet {
    /// The set with no number. It takes no memory.
    pub fn new(alloc: Global) -> IdSet
        ensures { result ≡ [] }
    {
        IdSet {
            ids: Ids::Few(Items::empty(alloc)),
        }
    }

    /// The set of this one number. It takes no memory.
    pub fn one(id: u32) -> IdSet
        ensures { result ≡ id ∷ [] }
    {
        IdSet { ids: Ids::One(id) }
    }

    /// The set of these numbers, each of which is less than those after it. It takes no memory.
    pub fn from_ascending(ids: Vec<u32>) -> IdSet
        requires ascending { IsStrictlySortedBy nat_cmp ids.items }
        ensures { result ≡ ids.items }
    {
        if let [id] = ids.as_slice() {
            return IdSet::one(*id);
        }
        IdSet {
            ids: Ids::Few(Items::from_vec(ids)),
        }
    }

    /// The same, in blocks where there are many: for a set that changes often. The one error is want of memory.
    pub fn in_blocks(alloc: Global, ids: Vec<u32>) -> Result<IdSet, Memory>
        requires ascending { IsStrictlySortedBy nat_cmp ids.items }
        ensures same { IfOk result (λ set. set ≡ ids.items) }
    {
        if ids.len() <= MOST {
            return Ok(IdSet::from_ascending(ids));
        }
        let mut blocks = Vec::new(alloc);
        push_numbers(alloc, &mut blocks, ids.as_slice())?;
        Ok(IdSet {
            ids: Ids::Many(Items::from_vec(blocks)),
        })
    }

    /// The numbers that stand in one piece, and the blocks of those after them.
    fn parts(&self) -> (&[u32], &[Block])
        ensures same { self.now ≡ result.0.now ++ numbers_in result.1.now }
        ensures set { IsIdSet self.now }
    {
        match &self.ids {
            Ids::One(id) => (slice::from_ref(id), &[]),
            Ids::Few(ids) => (ids.as_slice(), &[]),
            Ids::Many(blocks) => (&[], blocks.as_slice()),
        }
    }

    /// The numbers, which ascend, each once.
    pub fn iter(&self) -> SetIter<'_>
        ensures ids { result ≡ self.now }
        ensures set { IsIdSet self.now }
    {
        let (part, later) = self.parts();
        SetIter { part, later }
    }

    /// Puts the numbers behind those of the list. The one error is want of memory.
    pub fn push_to(&self, ids: &mut Vec<u32>) -> Result<(), Memory>
        ensures pushed { OnOk result (ids.new.items ≡ ids.old.items ++ self.now) }
        ensures set { IsIdSet self.now }
    {
        let (part, later) = self.parts();
        ids.extend_from_slice(part)?;
        push_all(ids, later)?;
        Ok(())
    }

    /// The numbers in a list. The one error is want of memory.
    pub fn to_vec(&self, alloc: Global) -> Result<Vec<u32>, Memory>
        ensures ids { IfOk result (λ ids. ids.items ≡ self.now) }
        ensures set { IsIdSet self.now }
    {
        let mut ids = Vec::new(alloc);
        self.push_to(&mut ids)?;
        Ok(ids)
    }

    /// How many numbers the set has.
    pub fn len(&self) -> usize
        ensures { result ≡ length self.now }
    {
        let (part, later) = self.parts();
        part.len() + count_in(later)
    }

    /// Whether the numbers stand in one piece, as few do: then it takes no longer than a moment to copy or compare them.
    pub fn is_in_one_piece(&self) -> bool {
        match &self.ids {
            Ids::One(_) | Ids::Few(_) => true,
            Ids::Many(_) => false,
        }
    }

    /// The number of a set that has one alone.
    pub fn only(&self) -> Option<u32>
        ensures only { IfSome result (λ id. self.now ≡ id ∷ []) }
        ensures is_one { IsSome result ↔ (length self.now ≡ 1) }
        ensures set { IsIdSet self.now }
    {
        let mut ids = self.iter();
        let first = ids.next()?;
        match ids.next() {
            None => Some(first),
            Some(_) => None,
        }
    }

    /// Whether the set has no number.
    pub fn is_empty(&self) -> bool
        ensures { IsTrue result ↔ (length self.now ≡ 0) }
    {
        self.iter().next().is_none()
    }

    /// Whether the set has the number, found by binary searches.
    pub fn contains(&self, id: u32) -> bool
        ensures { result ≡ list_any (λ own. own == id) self.now }
    {
        let (part, later) = self.parts();
        part.binary_search(&id).is_ok() || has_in(later, id)
    }

    /// The set without the numbers that it lost, and with those that it gained. Of many numbers those blocks alone are made
    /// anew that a number comes to or goes from, and both sets share the others. The one error is want of memory.
    pub fn moved(&self, alloc: Global, gained: &IdSet, lost: &IdSet) -> Result<IdSet, Memory>
        ensures moved { IfOk result (λ set. set ≡ union (without self.now lost.now) gained.now) }
        ensures set { IfOk result (λ set. IsIdSet set) }
    {
        let gained = gained.to_vec(alloc)?;
        let lost = lost.to_vec(alloc)?;
        match &self.ids {
            Ids::One(id) => IdSet::moved_few(alloc, slice::from_ref(id), &gained, &lost),
            Ids::Few(ids) => IdSet::moved_few(alloc, ids.as_slice(), &gained, &lost),
            Ids::Many(blocks) => IdSet::moved_many(alloc, blocks.as_slice(), &gained, &lost),
        }
    }

    /// The same of numbers that stand in one piece.
    fn moved_few(alloc: Global, ids: &[u32], gained: &[u32], lost: &[u32]) -> Result<IdSet, Memory>
        requires ids { IsIdSet ids.now }
        requires gained { IsIdSet gained.now }
        requires lost_ascend { IsStrictlySortedBy nat_cmp lost.now }
        ensures moved { IfOk result (λ set. set ≡ union (without ids.now lost.now) gained.now) }
    {
        let numbers = moved_numbers(alloc, ids, gained, lost)?;
        IdSet::in_blocks(alloc, numbers)
    }

    /// The same of numbers in blocks.
    fn moved_many(
        alloc: Global,
        blocks: &[Block],
        gained: &[u32],
        lost: &[u32],
    ) -> Result<IdSet, Memory>
        requires ids { IsIdSet (numbers_in blocks.now) }
        requires gained { IsIdSet gained.now }
        requires lost_ascend { IsStrictlySortedBy nat_cmp lost.now }
        ensures moved { IfOk result (λ set. set ≡ union (without (numbers_in blocks.now) lost.now) gained.now) }
    {
        let moved = moved_blocks(alloc, blocks, gained, lost)?;
        IdSet::of_blocks(alloc, moved)
    }

    /// The set of the numbers of these blocks, in one piece where there is one block alone.
    fn of_blocks(alloc: Global, blocks: Vec<Block>) -> Result<IdSet, Memory>
        requires set { IsIdSet (numbers_in blocks.items) }
        ensures same { IfOk result (λ set. set ≡ numbers_in blocks.items) }
    {
        if blocks.len() <= 1 {
            let mut numbers = Vec::new(alloc);
            push_all(&mut numbers, blocks.as_slice())?;
            return Ok(IdSet::from_ascending(numbers));
        }
        Ok(IdSet {
            ids: Ids::Many(Items::from_vec(blocks)),
        })
    }

    /// A set equal to this one, which shares its blocks. It takes no memory for one number, and the one error is want of
    /// memory.
    pub fn copy(&self, alloc: Global) -> Result<IdSet, Memory>
        ensures equal { IfOk result (λ copy. copy ≡ self.now) }
    {
        match &self.ids {
            Ids::One(id) => Ok(IdSet::one(*id)),
            Ids::Few(ids) => Ok(IdSet {
                ids: Ids::Few(ids.copy(alloc)?),
            }),
            Ids::Many(blocks) => Ok(IdSet {
                ids: Ids::Many(blocks.copy(alloc)?),
            }),
        }
    }
}

impl TryCopy for IdSet {
    fn try_copy(&self, alloc: Global) -> Result<IdSet, Memory> {
        self.copy(alloc)
    }
}

/// Two sets are equal where they have the same numbers.
impl PartialEq for IdSet {
    ghost eq = { pointwise nat_eq };

    ghost laws = { partial_equiv_from_equiv nat_list_eq_equiv };

    fn eq(&self, other: &IdSet) -> bool {
        self.iter().eq(other.iter())
    }
}

impl Eq for IdSet {
    ghost laws = { nat_list_eq_equiv };
}
