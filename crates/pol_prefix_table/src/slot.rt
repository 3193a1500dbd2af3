//! What a key has: a node, or nothing, in 20 bytes for IPv4 and 32 for IPv6.
ghost use Rattle.std.specs.Prelude.{◌≡◌, ◌<◌, ◌^◌, None, Some, IsSome, is_some, option_map};
ghost use Rattle.slab.specs.declared.Entry.TheVariants.{Vacant, Occupied};
ghost use Rattle.pol_addr.specs.Address.{family_of};
ghost use Rattle.pol_addr.specs.Cidr.{IsPrefix};
ghost use Rattle.pol_prefix_table.specs.Slots.{entry_of, node_in, IsValid};

use crate::bits::Bits;
use crate::node::PrefixNode;
use pol_addr::Prefix;
use std::mem::size_of;

/// A slot with a node, or a free one with the key of the next free one. The node stands here in parts, the small ones first, so
/// that no byte but one is lost.
#[derive(Clone, Copy, Debug)]
pub(crate) enum NodeSlot<B> {
    Free(u32),
    Taken {
        len: u8,
        numbered: bool,
        low: u32,
        high: u32,
        /// The number, or 0 where there is none.
        number: u32,
        bits: B,
    },
}

const _: () = prove!(size_of::<NodeSlot<u32>>() == 20);

const _: () = prove!(size_of::<NodeSlot<u128>>() == 32);

impl<B: Bits> NodeSlot<B> {
    /// A free slot before this key in the list of free ones.
    pub(crate) fn free(next: usize) -> NodeSlot<B>
        requires small { next < 2 ^ 32 }
        ensures { entry_of B.seen result ≡ Vacant next }
    {
        NodeSlot::Free(next as u32)
    }

    /// The slot of this node.
    #[inline(always)]
    pub(crate) fn of(node: PrefixNode) -> NodeSlot<B>
        requires family { family_of node.prefix.addr ≡ B.family }
        ensures entry { entry_of B.seen result ≡ Occupied node }
        ensures valid { IsPrefix node.prefix }
    {
        NodeSlot::Taken {
            len: node.prefix.len(),
            numbered: node.number.is_some(),
            low: node.low,
            high: node.high,
            number: node.number.unwrap_or(0),
            bits: B::of(node.prefix.network()),
        }
    }

    /// The node that is here.
    #[inline(always)]
    pub(crate) fn node(&self) -> PrefixNode
        requires there { IsSome (node_in B.seen self.now) }
        requires valid { IsValid B.seen self.now }
        ensures entry { entry_of B.seen self.now ≡ Occupied result }
        ensures family { family_of result.prefix.addr ≡ B.family }
    {
        match *self {
            NodeSlot::Taken {
                len,
                numbered,
                low,
                high,
                number,
                bits,
            } => PrefixNode {
                prefix: Prefix::new(bits.addr(), len),
                number: if numbered { Some(number) } else { None },
                low,
                high,
            },
            NodeSlot::Free(_) => unreachable!(),
        }
    }

    /// The prefix of the node that is here.
    #[inline(always)]
    pub(crate) fn prefix(&self) -> Prefix
        requires there { IsSome (node_in B.seen self.now) }
        requires valid { IsValid B.seen self.now }
        ensures { option_map (λ n. n.prefix) (node_in B.seen self.now) ≡ Some result }
    {
        match *self {
            NodeSlot::Taken { len, bits, .. } => Prefix::new(bits.addr(), len),
            NodeSlot::Free(_) => unreachable!(),
        }
    }

    /// The number of the node that is here. Not inlined before it is optimised, or the walk takes a branch that can't be foretold.
    pub(crate) fn number(&self) -> Option<u32>
        requires { IsSome (node_in B.seen self.now) }
        ensures { option_map (λ n. n.number) (node_in B.seen self.now) ≡ Some result }
    {
        match *self {
            NodeSlot::Taken {
                numbered,
                number,
                ..
            } => { if numbered { Some(number) } else { None } }
            NodeSlot::Free(_) => unreachable!(),
        }
    }

    /// The key of the next free slot.
    pub(crate) fn next(&self) -> usize
        requires free { node_in B.seen self.now ≡ None }
        ensures { entry_of B.seen self.now ≡ Vacant result }
    {
        match *self {
            NodeSlot::Free(next) => next as usize,
            NodeSlot::Taken { .. } => unreachable!(),
        }
    }

    /// Whether it has a node.
    #[inline(always)]
    pub(crate) fn is_taken(&self) -> bool
        ensures { result ≡ is_some (node_in B.seen self.now) }
    {
        match self {
            NodeSlot::Free(_) => false,
            NodeSlot::Taken { .. } => true,
        }
    }
}
