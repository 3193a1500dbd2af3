//! The table: one trie for each family, seen as one finite map.
ghost use Rattle.std.specs.Prelude.{◌≡◌, ◌+◌, ◌*◌, ◌≤◌, ◌↔◌, OnOk, OnErr, IfOk, IfSome, IsNone};
ghost use Rattle.std.specs.FinMap as map;
ghost use Rattle.pol_prefix_table.specs.Table.{IsLongestMatch, NoneMatches, look_up};

use crate::family_table::FamilyTable;
use pol_addr::{Addr, Family, Prefix};
use std::alloc::{AllocError as Memory, Global};
use std::marker::Model;

/// A finite map from prefixes of both families to numbers, in which an address is looked up by the longest prefix that contains
/// it (longest-prefix match, RFC 4632, section 5.1).
#[derive(Drop)]
pub struct PrefixTable {
    v4: FamilyTable<u32>,
    v6: FamilyTable<u128>,
}

impl Model for PrefixTable {
    ghost use Rattle.pol_addr.specs.declared.family.Family.TheVariants.{Ipv4, Ipv6};
    ghost use Rattle.pol_prefix_table.specs.Table.{IsOf, PrefixMap, joined, table_code};

    ghost Value = { PrefixMap };

    ghost coded = { table_code };

    ghost view = { λ t. joined t.v4 t.v6 };

    ghost invariant = { λ t. IsOf Ipv4 t.v4 × IsOf Ipv6 t.v6 };
}

impl PrefixTable {
    /// A table without prefixes. It takes no memory yet.
    pub fn new(alloc: Global) -> PrefixTable
        ensures { result ≡ map.empty }
    {
        PrefixTable {
            v4: FamilyTable::new(alloc),
            v6: FamilyTable::new(alloc),
        }
    }

    /// Puts the number under the prefix, in place of the one that stood there. After want of memory the table is as
    /// before.
    pub fn insert(&mut self, prefix: Prefix, number: u32) -> Result<(), Memory>
        ensures ok { OnOk result (self.new ≡ map.insert self.old prefix number) }
        ensures err { OnErr result (self.new ≡ self.old) }
    {
        match prefix.network().family() {
            Family::Ipv4 => self.v4.insert(prefix, number),
            Family::Ipv6 => self.v6.insert(prefix, number),
        }
    }

    /// Takes the prefix out and gives its number: None exactly where it is not there. It takes no memory.
    pub fn remove(&mut self, prefix: Prefix) -> Option<u32>
        ensures value { result ≡ map.get self.old prefix }
        ensures rest { self.new ≡ map.remove self.old prefix }
    {
        match prefix.network().family() {
            Family::Ipv4 => self.v4.remove(prefix),
            Family::Ipv6 => self.v6.remove(prefix),
        }
    }

    /// The number of the longest prefix that contains the address: None exactly where none does. It takes no memory.
    #[inline(always)]
    pub fn find(&self, addr: Addr) -> Option<u32>
        ensures scan { result ≡ look_up self.now addr }
        ensures found { IfSome result (IsLongestMatch self.now addr) }
        ensures none { IsNone result ↔ NoneMatches self.now addr }
    {
        match addr {
            Addr::V4(bits) => self.v4.find(bits),
            Addr::V6(bits) => self.v6.find(bits),
        }
    }

    /// How many nodes it takes: each prefix has one, and there are at most twice as many and one more for each family. So what
    /// `remove` leaves empty is free again, and a copy takes no more.
    pub fn nodes(&self) -> usize
        ensures least { map.len self.now ≤ result }
        ensures most { result ≤ 2 * map.len self.now + 2 }
    {
        self.v4.nodes() + self.v6.nodes()
    }

    /// The same table once more. The one error is want of memory.
    pub fn copy(&self, alloc: Global) -> Result<PrefixTable, Memory>
        ensures { IfOk result (λ copy. copy ≡ self.now) }
    {
        Ok(PrefixTable {
            v4: self.v4.copy(alloc)?,
            v6: self.v6.copy(alloc)?,
        })
    }
}
