//! Laws of pools and twins, over the definitions alone.
ghost use Rattle.pol_arena.specs.PoolRuns.{PoolsAreSound, NodesInUseStay, FreeNodesAreEmpty, NextNodeIsFree, WriteChangesOneNode};
ghost use Rattle.pol_arena.specs.TwinRuns.{MergesChains, PushLengthensOneChain, DropShortensOneChain, PushKeepsNodes, DropKeepsNodes, NodesInUseStay as UndroppedNodesStay, WalksChains};

/// After any operations that are allowed in their order a sound pool is sound: its free list has each index that was
/// used and has no value, once, and nothing else. Every call tells that the pool is sound, `new` too, and `get_mut`
/// before the write.
pub fn pools_are_sound<T>()
    ensures { PoolsAreSound T }
{}

/// A node in use keeps its value until it is taken or written.
pub fn nodes_in_use_stay<T>()
    ensures { NodesInUseStay T }
{}

/// The free list of a sound pool has just the indices that were used and have no value.
pub fn free_nodes_are_empty<T>()
    ensures { FreeNodesAreEmpty T }
{}

/// The node that a put gives is not in use.
pub fn the_next_node_is_free<T>()
    ensures { NextNodeIsFree T }
{}

/// A write through `get_mut` gives one node in use that value. Every other node keeps what it had, as many are in use,
/// and the pool is sound.
pub fn a_write_changes_one_node<T>()
    ensures { WriteChangesOneNode T }
{}

/// After any operations that are allowed in their order a sound twin is sound, and the list by age of a sound twin has
/// exactly the nodes of its chains, each once, those of one chain in the order of the chain. Every call tells that the
/// twin is sound, `new` too.
pub fn twins_merge_their_chains<T>()
    ensures { MergesChains T }
{}

/// A push lengthens the list of exactly one chain, at its new end.
pub fn a_push_lengthens_one_chain<T>()
    ensures { PushLengthensOneChain T }
{}

/// Dropping the oldest node shortens the list of exactly one chain, at its old end.
pub fn a_drop_shortens_one_chain<T>()
    ensures { DropShortensOneChain T }
{}

/// A push changes no node that is in use.
pub fn a_push_keeps_nodes<T>()
    ensures { PushKeepsNodes T }
{}

/// A drop changes no node but the oldest, which is in use no more.
pub fn a_drop_keeps_nodes<T>()
    ensures { DropKeepsNodes T }
{}

/// Through any operations that are allowed in their order a node in use stays as it is until it is dropped itself.
pub fn undropped_nodes_stay<T>()
    ensures { UndroppedNodesStay T }
{}

/// A walk from `newest` by `older` goes along the list of the chain.
pub fn a_walk_goes_along_the_chain<T>()
    ensures { WalksChains T }
{}
