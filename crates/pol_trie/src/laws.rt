//! Laws of the walk through a trie of port prefixes.
ghost use Rattle.std.specs.Prelude.{◌≡◌, ℕ, ◌-◌, ◌≤◌, None, filter};
ghost use Rattle.pol_ports.specs.PortPrefix.{prefix_holds};
ghost use Rattle.pol_trie.specs.Tree.{Tree, Fits, Ascends, listed, met, last_of, walk, visits};

/// A walk toward a port meets exactly the prefixes with a kind that have the port, each longer than those before, and
/// gives the kind of the last. It visits at most one prefix of each length from 0 to 16.
pub fn a_walk_meets_the_prefixes_that_have_the_port()
    ensures exactly { (t : Tree) (lo hi len port : ℕ)
        → Fits t lo hi len → met t port ≡ filter (λ e. prefix_holds e.0 port) (listed t) }
    ensures longest_last { (t : Tree) (lo hi len port : ℕ) → Fits t lo hi len → Ascends len (met t port) }
    ensures last { (t : Tree) (port : ℕ) → walk t port None ≡ last_of None (met t port) }
    ensures visits { (t : Tree) (lo hi len port : ℕ) → Fits t lo hi len → len ≤ 17 → visits t port ≤ 17 - len }
{}
