//! A trie copied to another pool.
ghost use Rattle.std.specs.Prelude.{◌≡◌, ℕ};
ghost use Rattle.pol_trie.specs.Tree.{Tree};
ghost use Rattle.pol_trie.specs.Standing.{Holds, FitsInto, Copies};

use crate::links::link_fits;
use crate::node::PortNode;
use crate::put::add;
use pol_arena::Pool;

/// Puts the nodes below a link into another pool, each behind those below it. Gives the link to the first of them there.
pub(crate) fn copied(from: &Pool<PortNode>, at: Option<u32>, to: &mut Pool<PortNode>) -> Option<u32>
    requires { FitsInto from.now at to.old }
    ensures { (t : Tree) (lo hi len : ℕ) → Holds from.now at t lo hi len → Copies to.old to.new result t }
{
    let i = at?;
    let node = from.get(i);
    let low = copied(from, node.child(false), to);
    let high = copied(from, node.child(true), to);
    link_fits(to, low);
    link_fits(to, high);
    Some(add(to, node.port(), node.kind(), false, low, high))
}
