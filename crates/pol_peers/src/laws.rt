//! Laws of references, over the definitions alone. Each function does nothing: its contract is the law.
ghost use Rattle.std.specs.Prelude.{◌≡◌, ◌++◌, List};
ghost use Rattle.pol_rule.specs.declared.policy.Peer.{Peer};
ghost use Rattle.pol_selcache.specs.Live.{Live};
ghost use Rattle.pol_peers.specs.References.{HasRefs, IsMoreBy, RefsOf, times_in};

/// Who keeps one reference for each of some peers, keeps one for each of more of them after a hold, and of fewer after a
/// drop, which may be made.
pub fn references_are_counted()
    ensures held { (peers held : List Peer) (old new : List Live)
        → RefsOf held old → IsMoreBy peers old new → RefsOf (peers ++ held) new }
    ensures may_drop { (peers held : List Peer) (live : List Live) → RefsOf (peers ++ held) live → HasRefs peers live }
    ensures dropped { (peers held : List Peer) (old new : List Live)
        → RefsOf (peers ++ held) old → IsMoreBy peers new old → RefsOf held new }
    ensures any_order { (held others : List Peer) (live : List Live)
        → ((p : Peer) → times_in p held ≡ times_in p others) → RefsOf held live → RefsOf others live }
{}
