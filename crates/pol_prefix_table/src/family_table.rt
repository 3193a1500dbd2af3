//! The table of one family: a trie seen as a finite map.
ghost use Rattle.std.specs.Prelude.{◌≡◌, ◌+◌, ◌*◌, ◌≤◌, ◌<◌, ◌^◌, ◌↔◌, OnOk, OnErr, IfOk, IfSome, IsNone};
ghost use Rattle.std.specs.FinMap as map;
ghost use Rattle.pol_addr.specs.Address.{family_of};
ghost use Rattle.pol_prefix_table.specs.Table.{IsLongestMatch, NoneMatches};

use crate::bits::Bits;
use crate::family_trie::FamilyTrie;
use crate::put::put;
use crate::start::Start;
use crate::starts::{copied, grow, longest_over, renew};
use crate::take::take;
use pol_addr::Prefix;
use std::alloc::{AllocError as Memory, Global};
use std::marker::Model;

/// How many nodes there is room for, as a link to one has 32 bits.
const MOST_NODES: usize = 4_294_967_295;

/// A finite map from prefixes of one family to numbers.
#[derive(Drop)]
pub(crate) struct FamilyTable<B: Bits> {
    trie: FamilyTrie<B>,
    // In the order of their prefixes, which all have one length. None in a small table.
    starts: Vec<Start<B>>,
}

impl<B: Bits> Model for FamilyTable<B> {
    ghost use Rattle.pol_prefix_table.specs.Table.{PrefixMap, table_code};

    ghost Value = { PrefixMap };

    ghost coded = { table_code };

    ghost use Rattle.pol_prefix_table.specs.Trie.{map_of};
    ghost use Rattle.pol_prefix_table.specs.Sizes.{IsTight};
    ghost use Rattle.pol_prefix_table.specs.Starts.{AreStarts};

    ghost view = { λ t. map_of t.trie };

    ghost invariant = { λ t. AreStarts B.family t.trie t.starts.items × IsTight t.trie };
}

impl<B: Bits> FamilyTable<B> {
    /// A table without prefixes. It takes no memory yet.
    pub(crate) fn new(alloc: Global) -> FamilyTable<B>
        ensures { result ≡ map.empty }
    {
        FamilyTable {
            trie: FamilyTrie::new(alloc),
            starts: Vec::new(alloc),
        }
    }

    /// Puts the number under the prefix, in place of the one that stood there. After want of memory the table is as
    /// before.
    pub(crate) fn insert(&mut self, prefix: Prefix, number: u32) -> Result<(), Memory>
        requires { family_of prefix.addr ≡ B.family }
        ensures ok { OnOk result (self.new ≡ map.insert self.old prefix number) }
        ensures err { OnErr result (self.new ≡ self.old) }
    {
        self.trie.reserve(3)?;
        if self.trie.capacity() > MOST_NODES {
            return Err(Memory);
        }
        grow(&self.trie, &mut self.starts)?;
        let over = put(&mut self.trie, prefix, number);
        self.trie.fits_together();
        renew(&self.trie, &mut self.starts, &over);
        Ok(())
    }

    /// Takes the prefix out and gives its number: None exactly where it is not there. It takes no memory.
    pub(crate) fn remove(&mut self, prefix: Prefix) -> Option<u32>
        requires { family_of prefix.addr ≡ B.family }
        ensures value { result ≡ map.get self.old prefix }
        ensures rest { self.new ≡ map.remove self.old prefix }
    {
        self.trie.fits_together();
        let (number, over) = take(&mut self.trie, &prefix)?;
        self.trie.fits_together();
        renew(&self.trie, &mut self.starts, &over);
        Some(number)
    }

    /// The number of the longest prefix that contains the address with these bits: None exactly where none does.
    pub(crate) fn find(&self, bits: B) -> Option<u32>
        ensures found { IfSome result (IsLongestMatch self.now (B.seen bits)) }
        ensures none { IsNone result ↔ NoneMatches self.now (B.seen bits) }
    {
        self.trie.fits_together();
        longest_over(&self.trie, self.starts.as_slice(), bits)
    }

    /// How many nodes it takes.
    pub(crate) fn nodes(&self) -> usize
        ensures least { map.len self.now ≤ result }
        ensures most { result ≤ 2 * map.len self.now + 1 }
        ensures small { result < 2 ^ 32 }
    {
        self.trie.len()
    }

    /// The same table once more. The one error is want of memory.
    pub(crate) fn copy(&self, alloc: Global) -> Result<FamilyTable<B>, Memory>
        ensures { IfOk result (λ copy. copy ≡ self.now) }
    {
        Ok(FamilyTable {
            trie: self.trie.copy(alloc)?,
            starts: copied(alloc, self.starts.as_slice())?,
        })
    }
}
