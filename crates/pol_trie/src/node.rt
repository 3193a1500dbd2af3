//! A node of a trie of port prefixes.
ghost use Rattle.std.specs.Prelude.{◌≡◌, ◌%◌, ◌^◌, ◌-◌, ◌≤◌, ◌||◌, ◌&&◌, is_some, true, Some, None};
ghost use Rattle.pol_trie.specs.PortNode.{held_of, index_of, kind_of, link_of, FitsLink};

use crate::halves::is_upper;
use pol_mapkey::Kind;
use pol_ports::PortPrefix;
use std::marker::Model;
use std::mem::size_of;

/// The kind of a node, if it has one, in one byte.
#[derive(Clone, Copy, PartialEq, Eq, Debug)]
pub(crate) enum Held {
    /// None.
    Nothing,
    /// It allows.
    Allow,
    /// It denies.
    Deny,
}

/// A prefix with its kind, if it has one, and the links to the nodes of its lower and its upper half: the index and one, or 0
/// for none. So a node takes 12 bytes, and the side on which a walk goes on is chosen without a branch.
#[derive(Clone, Copy, Debug)]
pub(crate) struct PortNode {
    bits: u16,
    len: u8,
    held: Held,
    low: u32,
    high: u32,
    ghost short: { len ≤ 16 },
    ghost clear: { bits % 2 ^ (16 - len) ≡ 0 },
}

const _: () = prove!(size_of::<PortNode>() == 12);

impl Model for PortNode {
    ghost use Rattle.std.specs.Prelude.{◌≡◌};
    ghost use Rattle.pol_trie.specs.PortNode.{Linked, held_of, index_of, kind_of, link_of, held_of-kind_of, index_of-link_of};

    ghost Value = { Linked };

    ghost view = { λ n. record {
      port = record { bits = n.bits; len = n.len; short = n.short; clear = n.clear };
      kind = kind_of n.held;
      low = link_of n.low;
      high = link_of n.high;
    } };

    ghost inverse = { λ n. record {
      bits = n.port.bits;
      len = n.port.len;
      held = held_of n.kind;
      low = index_of n.low;
      high = index_of n.high;
      short = n.port.short;
      clear = n.port.clear;
    } };

    ghost inverse_ok = { λ n h. λ i. record {
      bits = n.bits;
      len = n.len;
      held = held_of-kind_of n.held i;
      low = index_of-link_of n.low i;
      high = index_of-link_of n.high i;
      short = n.short;
      clear = n.clear;
    } };
}

/// The kind that a node holds.
fn kind_of(held: Held) -> Option<Kind>
    ensures { result ≡ kind_of held }
{
    match held {
        Held::Nothing => None,
        Held::Allow => Some(Kind::Allow),
        Held::Deny => Some(Kind::Deny),
    }
}

/// A kind as a node holds it.
fn held_of(kind: Option<Kind>) -> Held
    ensures { result ≡ held_of kind }
{
    match kind {
        None => Held::Nothing,
        Some(Kind::Allow) => Held::Allow,
        Some(Kind::Deny) => Held::Deny,
    }
}

/// The index that a link has.
#[tactic(auto, using(crate::proofs::Linking::link_of_some))]
fn link_of(link: u32) -> Option<u32>
    ensures { result ≡ link_of link }
{
    if link == 0 { None } else { Some(link - 1) }
}

/// The link to an index.
fn index_of(index: Option<u32>) -> u32
    requires { FitsLink index }
    ensures { result ≡ index_of index }
{
    match index {
        None => 0,
        Some(index) => index + 1,
    }
}

impl PortNode {
    ghost use Rattle.std.specs.Option.{option_or};
    ghost use Rattle.pol_ports.specs.PortPrefix.{same_prefix, prefix_contains, prefix_holds};
    ghost use Rattle.pol_trie.specs.Tree.{is_upper};
    ghost use Rattle.pol_trie.specs.Links.{child, with_child};

    /// A node with these nodes below it.
    #[tactic(auto, using(crate::proofs::Linking::linked_back, crate::proofs::Linking::held_back))]
    pub(crate) fn new(
        port: PortPrefix,
        kind: Option<Kind>,
        low: Option<u32>,
        high: Option<u32>,
    ) -> PortNode
        requires low { FitsLink low }
        requires high { FitsLink high }
        ensures { result ≡ record { port = port; kind = kind; low = low; high = high } }
    {
        PortNode {
            bits: port.bits,
            len: port.len,
            held: held_of(kind),
            low: index_of(low),
            high: index_of(high),
        }
    }

    /// The prefix.
    #[tactic(auto, using(crate::proofs::Linking::prefix_is))]
    pub(crate) fn port(&self) -> PortPrefix
        ensures { result ≡ self.now.port }
    {
        PortPrefix {
            bits: self.bits,
            len: self.len,
        }
    }

    /// The kind, if there is one.
    pub(crate) fn kind(&self) -> Option<Kind>
        ensures { result ≡ self.now.kind }
    {
        kind_of(self.held)
    }

    /// Whether the prefix is this one.
    pub(crate) fn same(&self, port: &PortPrefix) -> bool
        ensures { result ≡ same_prefix self.now.port port.now }
    {
        self.bits == port.bits && self.len == port.len
    }

    /// Whether the prefix contains the other.
    pub(crate) fn contains(&self, port: &PortPrefix) -> bool
        ensures { result ≡ prefix_contains self.now.port port.now }
    {
        self.port().contains(port)
    }

    /// Whether the prefix has the port.
    pub(crate) fn holds(&self, port: u16) -> bool
        ensures { result ≡ prefix_holds self.now.port port }
    {
        self.port().holds(port)
    }

    /// Whether the port lies past the prefix's lower half.
    pub(crate) fn is_upper(&self, port: u16) -> bool
        ensures { result ≡ is_upper self.now.port port }
    {
        is_upper(&self.port(), port)
    }

    /// Whether the node has a kind, or one below it on each side.
    pub(crate) fn is_needed(&self) -> bool
        ensures { result ≡ (is_some self.now.kind || (is_some self.now.low && is_some self.now.high)) }
    {
        self.held != Held::Nothing || self.low != 0 && self.high != 0
    }

    /// The node below on a side.
    pub(crate) fn child(&self, high: bool) -> Option<u32>
        ensures { result ≡ child self.now high }
    {
        link_of(if high { self.high } else { self.low })
    }

    /// The node below on the lower side, or else on the upper one.
    pub(crate) fn only(&self) -> Option<u32>
        ensures { result ≡ option_or self.now.low self.now.high }
    {
        link_of(self.low).or(link_of(self.high))
    }

    /// Gives the node this kind, or none.
    #[tactic(auto, using(crate::proofs::Linking::held_back))]
    pub(crate) fn set_kind(&mut self, kind: Option<Kind>)
        ensures { self.new ≡ record self.old { kind = kind } }
    {
        self.held = held_of(kind);
    }

    /// Links the node to another on a side.
    #[tactic(auto, using(crate::proofs::Linking::linked_back))]
    pub(crate) fn set_child(&mut self, high: bool, to: Option<u32>)
        requires { FitsLink to }
        ensures { self.new ≡ with_child self.old high to }
    {
        if high {
            self.high = index_of(to);
        } else {
            self.low = index_of(to);
        }
    }
}
