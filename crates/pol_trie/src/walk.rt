//! Walks from a root down.
ghost use Rattle.std.specs.Prelude.{◌≡◌, ◌+◌, ℕ, None};
ghost use Rattle.pol_trie.specs.Tree.{Tree, kind_in, walk, visits};
ghost use Rattle.pol_trie.specs.Standing.{Holds, IsWell};

use crate::node::PortNode;
use pol_arena::Pool;
use pol_data::Steps;
use pol_mapkey::Kind;
use pol_ports::PortPrefix;
use std::sync::ledger::Ledger;

/// The kind of a prefix below a link.
pub(crate) fn kind_at(nodes: &Pool<PortNode>, root: Option<u32>, port: &PortPrefix) -> Option<Kind>
    requires { IsWell nodes.now root }
    ensures { (t : Tree) (lo hi len : ℕ) → Holds nodes.now root t lo hi len → result ≡ kind_in t port.now }
{
    let mut at = root;
    while let Some(i) = at {
        let node = nodes.get(i);
        if node.same(port) {
            return node.kind();
        }
        at = node.child(node.is_upper(port.bits));
    }
    None
}

/// The kind of the longest prefix below a link that has the port. Each node that is visited is one step.
pub(crate) fn longest<L: Ledger>(
    nodes: &Pool<PortNode>,
    root: Option<u32>,
    port: u16,
    steps: &mut Steps<L>,
) -> Option<Kind>
    requires { IsWell nodes.now root }
    ensures kind { (t : Tree) (lo hi len : ℕ) → Holds nodes.now root t lo hi len → result ≡ walk t port None }
    ensures cost { (t : Tree) (lo hi len : ℕ)
        → Holds nodes.now root t lo hi len → steps.new ≡ steps.old + visits t port }
{
    let mut at = root;
    let mut best = None;
    while let Some(i) = at {
        steps.tick();
        let node = nodes.get(i);
        if !node.holds(port) {
            return best;
        }
        best = node.kind().or(best);
        at = node.child(node.is_upper(port));
    }
    best
}
