//! A list of values, seen as the list of what contracts see of each.
ghost use Rattle.std.specs.Prelude.{◌≡◌, IsTrue, ◌↔◌, [], ◌∷◌, length, IfOk};
ghost use Rattle.std.specs.Cmp.Lexicographic.{pointwise, lists_per, lists_equiv};
ghost use Rattle.std.specs.Hash as fed;
ghost use Rattle.std.specs.Hash.{items_Alike};

use crate::{Memory, TryCopy};
use std::alloc::Global;
use std::hash::{Hash, Hasher};
use std::marker::Model;

/// A list. A contract sees it as the list of its elements.
#[derive(Debug, Drop)]
pub struct Items<T> {
    inner: Vec<T>,
}

impl<T> Model for Items<T> {
    ghost use Rattle.std.specs.Prelude.{List};

    ghost Value = { List T };

    ghost view = { λ list. list.inner.items };
}

impl<T> Items<T> {
    /// The list of the elements of this vector. It takes no memory.
    pub fn from_vec(vector: Vec<T>) -> Items<T>
        ensures { result ≡ vector.items }
    {
        Items { inner: vector }
    }

    /// The list with no element. It takes no memory.
    pub fn empty(alloc: Global) -> Items<T>
        ensures { result ≡ [] }
    {
        Items {
            inner: Vec::new(alloc),
        }
    }

    /// The vector, given back. It takes no memory.
    pub fn into_vec(self) -> Vec<T>
        ensures { result.items ≡ self }
    {
        self.inner
    }

    /// The elements, in order.
    pub fn as_slice(&self) -> &[T]
        ensures { result.now ≡ self.now }
    {
        self.inner.as_slice()
    }

    /// How many elements there are.
    pub fn len(&self) -> usize
        ensures { result ≡ length self.now }
    {
        self.inner.len()
    }

    /// Whether there is no element.
    pub fn is_empty(&self) -> bool
        ensures { IsTrue result ↔ (length self.now ≡ 0) }
    {
        self.inner.is_empty()
    }
}

impl<T: Drop> Items<T> {
    /// The list of this one element. The one error is want of memory.
    pub fn one(alloc: Global, item: T) -> Result<Items<T>, Memory>
        ensures one { IfOk result (λ list. list ≡ item ∷ []) }
    {
        let mut inner = Vec::with_capacity(alloc, 1)?;
        inner.push(item)?;
        Ok(Items { inner })
    }
}

impl<T: TryCopy + Drop> Items<T> {
    /// A list equal to this one, in memory of its own. The one error is want of memory.
    pub fn copy(&self, alloc: Global) -> Result<Items<T>, Memory>
        ensures equal { IfOk result (λ copy. copy ≡ self.now) }
    {
        let mut copies = Vec::with_capacity(alloc, self.len())?;
        for item in self.as_slice() {
            copies.push(item.try_copy(alloc)?)?;
        }
        Ok(Items { inner: copies })
    }
}

impl<T: TryCopy + Drop> TryCopy for Items<T> {
    fn try_copy(&self, alloc: Global) -> Result<Items<T>, Memory> {
        self.copy(alloc)
    }
}

/// Two lists are equal where they are as long and each pair of elements is.
impl<T: PartialEq> PartialEq for Items<T> {
    ghost eq = { pointwise T.eq };

    ghost laws = { lists_per T.laws };

    fn eq(&self, other: &Items<T>) -> bool {
        self.inner == other.inner
    }
}

impl<T: Eq> Eq for Items<T> {
    ghost laws = { lists_equiv T.Eq.laws };
}

impl<T: Hash> Hash for Items<T> {
    ghost hash_input = { fed.slice T.hash_input };

    ghost respects_eq = { (items_Alike (record { fed = T.respects_eq })).fed };

    fn hash<H: Hasher>(&self, state: &mut H) {
        self.as_slice().hash(state);
    }
}
