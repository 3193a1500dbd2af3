//! Named identities, by name.
ghost use Rattle.std.specs.Prelude.{◌≡◌, ◌<◌, ◌++◌, ◌∷◌, [], None, length, OnOk};
ghost use Rattle.pol_model.specs.Endpoints.{without_named};
ghost use Rattle.pol_tables.specs.Tables.{SameNumbers, number_named};

use indexmap::IndexMap;
use pol_data::{Memory, Text};
use std::alloc::Global;
use std::marker::Model;

/// The identities that are held by a name ('profile'); no two have one name.
#[derive(Drop)]
pub struct Named {
    numbers: IndexMap<String, u32>,
}

impl Model for Named {
    ghost use Rattle.pol_tables.specs.Tables.{NamedTable};

    ghost Value = { NamedTable };

    ghost use Rattle.indexmap.specs.IndexMap.{spare};
    ghost use Rattle.pol_tables.specs.Tied.{named_in};

    ghost view = { λ n. record { list = named_in n.numbers.entries; room = spare n.numbers } };
}

impl Named {
    /// No name. It takes no memory.
    pub fn new(alloc: Global) -> Named
        ensures list { result.list ≡ [] }
    {
        Named {
            numbers: IndexMap::new(alloc),
        }
    }

    /// How many names there are.
    pub fn len(&self) -> usize
        ensures len { result ≡ length self.now.list }
    {
        self.numbers.len()
    }

    /// The number that the name holds. It takes no memory.
    pub fn find(&self, name: &str) -> Option<u32>
        ensures found { result ≡ number_named name.now self.now.list }
    {
        match self.numbers.get(name) {
            Some(number) => Some(*number),
            None => None,
        }
    }

    /// Room for one name more. The one error is want of memory.
    pub fn reserve(&mut self) -> Result<(), Memory>
        ensures list { self.new.list ≡ self.old.list }
        ensures room { OnOk result (0 < self.new.room) }
    {
        self.numbers.reserve(1)
    }

    /// A new name holds the number. It takes no memory.
    pub fn place(&mut self, name: Text, number: u32)
        requires room { 0 < self.old.room }
        requires new { number_named name self.old.list ≡ None }
        ensures list { self.new.list ≡ self.old.list ++ record { name = name; number = number } ∷ [] }
    {
        self.numbers.insert(name.into_string(), number).unwrap();
    }

    /// Takes out the name, and gives back the number that it held. The order of the others may change. It takes no
    /// memory.
    pub fn remove(&mut self, name: &str) -> Option<u32>
        ensures numbers { SameNumbers self.new.list (without_named name.now self.old.list) }
        ensures removed { result ≡ number_named name.now self.old.list }
    {
        self.numbers.swap_remove(name)
    }
}
