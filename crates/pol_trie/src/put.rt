//! A kind put under a prefix.
ghost use Rattle.std.specs.Prelude.{◌≡◌, ℕ, ◌+◌, ◌-◌, ◌≤◌, true, Some, None, if◌then◌else◌};
ghost use Rattle.pol_arena.specs.Pool.{node_at, nodes_in_use, Updates};
ghost use Rattle.pol_ports.specs.PortPrefix.{same_prefix, prefix_contains};
ghost use Rattle.pol_trie.specs.Tree.{Tree, Parts, Takes, both_low, both_high, kind_in, node_count};
ghost use Rattle.pol_trie.specs.Links.{node_of};
ghost use Rattle.pol_trie.specs.PortNode.{FitsLink};
ghost use Rattle.pol_trie.specs.Standing.{Holds, HasRoom, IsBelow, Becomes};

use crate::halves::{first_port, is_upper, middle};
use crate::links::{fits, link, link_fits, set_kind};
use crate::node::PortNode;
use pol_arena::Pool;
use pol_mapkey::Kind;
use pol_ports::PortPrefix;

/// Whether both end by the prefix's middle.
fn both_low(port: &PortPrefix, a: &PortPrefix, b: &PortPrefix) -> bool
    ensures { result ≡ both_low port.now a.now b.now }
{
    let half = middle(port);
    a.end() <= half && b.end() <= half
}

/// Whether both begin from the prefix's middle on.
fn both_high(port: &PortPrefix, a: &PortPrefix, b: &PortPrefix) -> bool
    ensures { result ≡ both_high port.now a.now b.now }
{
    let half = middle(port);
    half <= u32::from(a.bits) && half <= u32::from(b.bits)
}

/// The longest prefix that contains both, of those that this one contains. Neither contains the other.
fn common(port: PortPrefix, a: &PortPrefix, b: &PortPrefix) -> PortPrefix
    requires around_a { prefix_contains port a.now ≡ true }
    requires around_b { prefix_contains port b.now ≡ true }
    requires not_a { prefix_contains a.now b.now ≡ true → ⊥ }
    requires not_b { prefix_contains b.now a.now ≡ true → ⊥ }
    ensures { Parts result a.now b.now }
{
    let len = port.len + 1;
    if both_low(&port, a, b) {
        let low = PortPrefix {
            bits: port.bits,
            len,
        };
        return common(low, a, b);
    }
    if both_high(&port, a, b) {
        let _ = first_port(a);
        let high = PortPrefix {
            bits: middle(&port) as u16,
            len,
        };
        return common(high, a, b);
    }
    port
}

/// The prefix of all ports, which contains any two.
fn around(a: &PortPrefix, b: &PortPrefix) -> PortPrefix
    ensures a { prefix_contains result a.now ≡ true }
    ensures b { prefix_contains result b.now ≡ true }
{
    let _ = (first_port(a), first_port(b));
    PortPrefix { bits: 0, len: 0 }
}

/// A new node, with one node below it on this side and another on the other.
pub(crate) fn add(
    nodes: &mut Pool<PortNode>,
    port: PortPrefix,
    kind: Option<Kind>,
    high: bool,
    below: Option<u32>,
    other: Option<u32>,
) -> u32
    requires spare { 1 ≤ nodes.old.spare }
    requires below { FitsLink below }
    requires other { FitsLink other }
    ensures was_free { node_at nodes.old result ≡ None }
    ensures updates { Updates nodes.old nodes.new result (Some (node_of port kind high below other)) }
    ensures count { nodes_in_use nodes.new ≡ nodes_in_use nodes.old + 1 }
    ensures spare { nodes.new.spare ≡ nodes.old.spare - 1 }
{
    let (low, high) = if high { (other, below) } else { (below, other) };
    nodes.put(PortNode::new(port, kind, low, high))
}

/// Puts the kind under a prefix that the prefix of this node doesn't contain, below the same link. Gives the node there.
fn put_over(
    nodes: &mut Pool<PortNode>,
    at: u32,
    below: &PortPrefix,
    port: PortPrefix,
    kind: Kind,
) -> u32
    requires below { IsBelow nodes.old at below.now port }
    ensures { (t : Tree) (lo hi len : ℕ)
        → Holds nodes.old (Some at) t lo hi len → Takes lo hi len port → Becomes nodes.old nodes.new (Some result) (λ q.
        if same_prefix port q then Some kind else kind_in t q) (node_count t) lo hi len }
{
    fits(nodes, at);
    if port.contains(below) {
        let high = is_upper(&port, below.bits);
        return add(nodes, port, Some(kind), high, Some(at), None);
    }
    let fork = common(around(below, &port), below, &port);
    let leaf = add(nodes, port, Some(kind), false, None, None);
    fits(nodes, leaf);
    let high = is_upper(&fork, below.bits);
    add(nodes, fork, None, high, Some(at), Some(leaf))
}

/// Puts the kind under the prefix, below a link. Gives the node that stands there then, and the kind that the prefix had.
pub(crate) fn put(
    nodes: &mut Pool<PortNode>,
    at: Option<u32>,
    port: PortPrefix,
    kind: Kind,
) -> (u32, Option<Kind>)
    requires { HasRoom nodes.old at port }
    ensures put { (t : Tree) (lo hi len : ℕ)
        → Holds nodes.old at t lo hi len → Takes lo hi len port → Becomes nodes.old nodes.new (Some result.0) (λ q.
        if same_prefix port q then Some kind else kind_in t q) (node_count t) lo hi len }
    ensures had { (t : Tree) (lo hi len : ℕ) → Holds nodes.old at t lo hi len → result.1 ≡ kind_in t port }
{
    let Some(i) = at else {
        return (add(nodes, port, Some(kind), false, None, None), None);
    };
    let node = *nodes.get(i);
    if node.same(&port) {
        set_kind(nodes, i, Some(kind));
        return (i, node.kind());
    }
    if !node.contains(&port) {
        return (put_over(nodes, i, &node.port(), port, kind), None);
    }
    let high = node.is_upper(port.bits);
    let (below, had) = put(nodes, node.child(high), port, kind);
    link_fits(nodes, Some(below));
    link(nodes, i, high, Some(below));
    (i, had)
}
