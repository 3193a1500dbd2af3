//! The nodes of the trie.
ghost use Rattle.std.specs.Prelude.{◌≡◌, ◌+◌, ◌<◌, ◌≤◌, ◌^◌, ◌↔◌, IsTrue, IfSome, Some, None};
ghost use Rattle.pol_prefix_table.specs.Links.{key_of, link_of};

use pol_addr::Prefix;

/// A prefix with its number, if it has one, and the links to the nodes below it on either side. A link is the key and one, or 0
/// for none.
#[derive(Clone, Copy, Debug)]
pub(crate) struct PrefixNode {
    pub(crate) prefix: Prefix,
    pub(crate) number: Option<u32>,
    /// The node below whose next bit is 0.
    pub(crate) low: u32,
    /// The node below whose next bit is 1.
    pub(crate) high: u32,
}

/// The link to this key.
#[inline(always)]
fn link_of(key: Option<usize>) -> u32
    requires { IfSome key (λ k. k + 1 < 2 ^ 32) }
    ensures { result ≡ link_of key }
{
    match key {
        None => 0,
        Some(key) => key as u32 + 1,
    }
}

/// The key that a link has.
#[inline(always)]
fn key_of(link: u32) -> Option<usize>
    ensures key { result ≡ key_of link }
    ensures small { IfSome result (λ k. k + 1 < 2 ^ 32) }
{
    if link == 0 {
        None
    } else {
        Some(link as usize - 1)
    }
}

impl PrefixNode {
    ghost use Rattle.std.specs.Prelude.{false, true};
    ghost use Rattle.std.specs.Option.{option_or};
    ghost use Rattle.pol_addr.specs.Prefix.{bit_of};
    ghost use Rattle.pol_prefix_table.specs.Sizes.{weight};
    ghost use Rattle.pol_prefix_table.specs.Trie.{child, with_child};

    /// A node with nothing below it.
    pub(crate) fn leaf(prefix: Prefix, number: Option<u32>) -> PrefixNode
        ensures { result ≡ record { prefix = prefix; number = number; low = 0; high = 0 } }
    {
        PrefixNode {
            prefix,
            number,
            low: 0,
            high: 0,
        }
    }

    /// A node over another one, whose prefix and key these are.
    pub(crate) fn over(
        prefix: Prefix,
        number: Option<u32>,
        below: &Prefix,
        key: usize,
    ) -> PrefixNode
        requires longer { prefix.len < below.now.len }
        requires small { key + 1 < 2 ^ 32 }
        ensures { result ≡ with_child (record { prefix = prefix; number = number; low = 0; high = 0 })
            (bit_of below.now prefix.len) (Some key) }
    {
        let _ = below.len();
        PrefixNode::leaf(prefix, number).with_child(below.bit(prefix.len()), Some(key))
    }

    /// The node with this key below it on this side.
    #[inline(always)]
    pub(crate) fn with_child(self, high: bool, key: Option<usize>) -> PrefixNode
        requires small { IfSome key (λ k. k + 1 < 2 ^ 32) }
        ensures { result ≡ with_child self high key }
    {
        let mut node = self;
        if high {
            node.high = link_of(key);
        } else {
            node.low = link_of(key);
        }
        node
    }

    /// Whether it has a number or a node below it on each side.
    pub(crate) fn is_needed(&self) -> bool
        ensures { IsTrue result ↔ (2 ≤ weight self.now) }
    {
        self.number.is_some() || self.low != 0 && self.high != 0
    }

    /// The key of the node below on this side.
    #[inline(always)]
    pub(crate) fn child(&self, high: bool) -> Option<usize>
        ensures key { result ≡ child self.now high }
        ensures small { IfSome result (λ k. k + 1 < 2 ^ 32) }
    {
        key_of(if high { self.high } else { self.low })
    }

    /// The key of the node below on the side of 0, or else on the other.
    pub(crate) fn only(&self) -> Option<usize>
        ensures key { result ≡ option_or (child self.now false) (child self.now true) }
        ensures small { IfSome result (λ k. k + 1 < 2 ^ 32) }
    {
        self.child(false).or(self.child(true))
    }
}
