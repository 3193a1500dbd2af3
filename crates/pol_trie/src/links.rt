//! The nodes of a trie by their indices.
ghost use Rattle.std.specs.Prelude.{◌≡◌, Some};
ghost use Rattle.pol_arena.specs.Pool.{node_at, IsInUse, nodes_in_use, Updates};
ghost use Rattle.pol_trie.specs.Standing.{IsWell};
ghost use Rattle.pol_trie.specs.Links.{with_child};
ghost use Rattle.pol_trie.specs.PortNode.{FitsLink};
ghost use Rattle.pol_trie.specs.declared.node.PortNode.{PortNode as TheNode};

use crate::node::PortNode;
use pol_arena::Pool;
use pol_mapkey::Kind;

/// Links a node to another on a side.
pub(crate) fn link(nodes: &mut Pool<PortNode>, at: u32, high: bool, to: Option<u32>)
    requires in_use { IsInUse nodes.old at }
    requires fits { FitsLink to }
    ensures updates { (n : TheNode) → node_at nodes.old at ≡ Some n
        → Updates nodes.old nodes.new at (Some (with_child n high to)) }
    ensures count { nodes_in_use nodes.new ≡ nodes_in_use nodes.old }
{
    nodes.get_mut(at).set_child(high, to);
}

/// Gives a node this kind, or none.
pub(crate) fn set_kind(nodes: &mut Pool<PortNode>, at: u32, kind: Option<Kind>)
    requires in_use { IsInUse nodes.old at }
    ensures updates { (n : TheNode) → node_at nodes.old at ≡ Some n
        → Updates nodes.old nodes.new at (Some (record n { kind = kind })) }
    ensures count { nodes_in_use nodes.new ≡ nodes_in_use nodes.old }
{
    nodes.get_mut(at).set_kind(kind);
}

/// The index of a node in use has a link.
#[tactic(auto, using(crate::proofs::Linking::small_index))]
pub(crate) fn fits(nodes: &Pool<PortNode>, at: u32)
    requires in_use { IsInUse nodes.now at }
    ensures { FitsLink (Some at) }
{
    let _ = nodes.get(at);
}

/// The same below a link, where a tree stands.
pub(crate) fn link_fits(nodes: &Pool<PortNode>, link: Option<u32>)
    requires { IsWell nodes.now link }
    ensures { FitsLink link }
{
    if let Some(at) = link {
        fits(nodes, at);
    }
}
