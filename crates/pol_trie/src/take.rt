//! A prefix taken out.
ghost use Rattle.std.specs.Prelude.{◌≡◌, ℕ, Some, None, if◌then◌else◌};
ghost use Rattle.pol_ports.specs.PortPrefix.{same_prefix};
ghost use Rattle.pol_trie.specs.Tree.{Tree, Inside, kind_in, node_count};
ghost use Rattle.pol_trie.specs.Standing.{Holds, IsWell, IsLoose, LooselyHolds, Becomes};

use crate::links::{link, link_fits, set_kind};
use crate::node::PortNode;
use pol_arena::Pool;
use pol_ports::PortPrefix;

/// Takes a node out where it has no kind and at most one node below it. Gives what stands in its place.
fn settle(nodes: &mut Pool<PortNode>, at: u32) -> Option<u32>
    requires { IsLoose nodes.old at }
    ensures { (t : Tree) (lo hi len : ℕ) → LooselyHolds nodes.old at t lo hi len
        → Becomes nodes.old nodes.new result (kind_in t) (node_count t) lo hi len }
{
    let node = *nodes.get(at);
    if node.is_needed() {
        return Some(at);
    }
    nodes.take(at);
    node.only()
}

/// Takes the prefix out, below a link. Gives the node that stands there then.
pub(crate) fn take(nodes: &mut Pool<PortNode>, at: Option<u32>, port: &PortPrefix) -> Option<u32>
    requires { IsWell nodes.old at }
    ensures { (t : Tree) (lo hi len : ℕ) → Holds nodes.old at t lo hi len → Becomes nodes.old nodes.new result (λ q.
        if same_prefix port.now q then None else kind_in t q) (node_count t) lo hi len }
{
    let i = at?;
    let node = *nodes.get(i);
    if node.same(port) {
        set_kind(nodes, i, None);
        return settle(nodes, i);
    }
    if !node.contains(port) {
        return at;
    }
    let high = node.is_upper(port.bits);
    let below = take(nodes, node.child(high), port);
    link_fits(nodes, below);
    link(nodes, i, high, below);
    settle(nodes, i)
}
