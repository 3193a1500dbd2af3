//! The policies in force, by key.
ghost use Rattle.std.specs.Prelude.{◌≡◌, ◌<◌, ◌++◌, [], ◌∷◌, length, remove, slice_get, Some, None, OnOk};
ghost use Rattle.std.specs.Option.{option_copied};
ghost use Rattle.pol_model.specs.Policies.{applied, is_of_key, policy_at, removed};
ghost use Rattle.pol_tables.specs.Numbered.{place_of};

use crate::arrivals::count_less;
use crate::queue::Queue;
use indexmap::IndexMap;
use pol_data::{Items, Memory, Text};
use pol_model::Stamped;
use pol_rule::{Policy, PolicyKey};
use std::alloc::{AllocError, Global};
use std::marker::Model;

/// The policies in force, in the order in which their keys came; no two have one key (Kubernetes, "Declarative
/// Management").
#[derive(Drop)]
pub struct Policies {
    alloc: Global,
    rows: Queue<Stamped>,
    // Beside each policy, the number that its key came with. These ascend, so a binary search gives the place of one.
    arrivals: Queue<u64>,
    by_key: IndexMap<PolicyKey, u64>,
    // The number of the key that comes next.
    next: u64,
}

impl Model for Policies {
    ghost use Rattle.pol_tables.specs.Tables.{PolicyTable};

    ghost Value = { PolicyTable };

    ghost use Rattle.indexmap.specs.IndexMap.{spare};
    ghost use Rattle.pol_tables.specs.Tied.{ArePolicies, policy_room};

    ghost view = { λ p.
        record { list = p.rows.list; room = policy_room p.rows.room p.arrivals.room (spare p.by_key) p.next } };

    ghost invariant = { λ p. ArePolicies p.rows.list p.arrivals.list p.next p.by_key.entries };
}

/// A policy that stands for nothing. It takes no memory.
fn no_policy(alloc: Global) -> Stamped {
    Stamped {
        policy: Policy {
            key: PolicyKey {
                cluster_wide: false,
                namespace: Text::empty(alloc),
                name: Text::empty(alloc),
            },
            rules: Items::empty(alloc),
        },
        stamp: 0,
    }
}

impl Policies {
    /// No policy. It takes no memory.
    pub fn new(alloc: Global) -> Policies
        ensures list { result.list ≡ [] }
    {
        Policies {
            alloc,
            rows: Queue::new(alloc),
            arrivals: Queue::new(alloc),
            by_key: IndexMap::new(alloc),
            next: 0,
        }
    }

    /// The policies, in their order. It takes no memory.
    pub fn as_slice(&self) -> &[Stamped]
        ensures list { result.now ≡ self.now.list }
    {
        self.rows.as_slice()
    }

    /// How many policies there are.
    pub fn len(&self) -> usize
        ensures len { result ≡ length self.now.list }
    {
        self.as_slice().len()
    }

    /// Where the policy of that key stands.
    fn place(&self, key: &PolicyKey) -> Option<usize>
        ensures place { result ≡ place_of (is_of_key key.now) self.now.list }
    {
        match self.by_key.get(key) {
            Some(number) => Some(count_less(self.arrivals.as_slice(), *number)),
            None => None,
        }
    }

    /// The policy at that place.
    fn at(&self, place: usize) -> &Stamped
        requires within { place < length self.now.list }
        ensures at { slice_get self.now.list place ≡ Some result.now }
    {
        &self.as_slice()[place]
    }

    /// The policy of that key. It takes no memory.
    pub fn find(&self, key: &PolicyKey) -> Option<&Stamped>
        ensures found { option_copied result ≡ policy_at key.now self.now.list }
    {
        match self.place(key) {
            Some(place) => Some(self.at(place)),
            None => None,
        }
    }

    /// Room for one policy more. The one error is want of memory, or the number of keys that came at the end of 64 bits.
    pub fn reserve(&mut self) -> Result<(), Memory>
        ensures list { self.new.list ≡ self.old.list }
        ensures room { OnOk result (0 < self.new.room) }
    {
        if self.next == u64::MAX {
            return Err(AllocError);
        }
        self.rows.reserve()?;
        self.arrivals.reserve()?;
        self.by_key.reserve(1)
    }

    /// Puts a policy last, whose key is new.
    fn push(&mut self, new: Stamped, key: PolicyKey)
        requires room { 0 < self.old.room }
        requires key { key ≡ new.policy.key }
        requires new { place_of (is_of_key new.policy.key) self.old.list ≡ None }
        ensures list { self.new.list ≡ self.old.list ++ new ∷ [] }
    {
        self.by_key.insert(key, self.next).unwrap();
        self.arrivals.push(self.next);
        self.rows.push(new);
        self.next += 1;
    }

    /// Puts a policy in place of one of the same key, and gives that back.
    fn replace(&mut self, place: usize, new: Stamped) -> Stamped
        requires place { place_of (is_of_key new.policy.key) self.old.list ≡ Some place }
        ensures list { self.new.list ≡ applied new self.old.list }
        ensures replaced { policy_at new.policy.key self.old.list ≡ Some result }
    {
        self.rows.replace(place, new)
    }

    /// Puts a policy in place of one of the same key, and else last. The key is the table's own copy. It gives back the
    /// policy that was replaced, and takes no memory.
    pub fn put(&mut self, new: Stamped, key: PolicyKey) -> Option<Stamped>
        requires room { 0 < self.old.room }
        requires key { key ≡ new.policy.key }
        ensures list { self.new.list ≡ applied new self.old.list }
        ensures replaced { result ≡ policy_at new.policy.key self.old.list }
    {
        match self.place(&key) {
            Some(place) => Some(self.replace(place, new)),
            None => {
                self.push(new, key);
                None
            }
        }
    }

    /// Takes out the policy of that key, which stands at that place.
    fn take(&mut self, place: usize, key: &PolicyKey) -> Stamped
        requires place { place_of (is_of_key key.now) self.old.list ≡ Some place }
        ensures list { self.new.list ≡ removed key.now self.old.list }
        ensures taken { policy_at key.now self.old.list ≡ Some result }
    {
        self.by_key.swap_remove(key);
        self.arrivals.take(place, 0);
        self.rows.take(place, no_policy(self.alloc))
    }

    /// Takes out the policy of that key, and gives it back. It takes no memory.
    pub fn remove(&mut self, key: &PolicyKey) -> Option<Stamped>
        ensures list { self.new.list ≡ removed key.now self.old.list }
        ensures removed { result ≡ policy_at key.now self.old.list }
    {
        match self.place(key) {
            Some(place) => Some(self.take(place, key)),
            None => None,
        }
    }
}
