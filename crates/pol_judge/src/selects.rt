//! Whether a peer selects the identity of a number, and an entry covers a packet from or to it.
ghost use Rattle.std.specs.Prelude.{◌≡◌};
ghost use Rattle.std.specs.List.{list_any};
ghost use Rattle.pol_rule.specs.Covers.{entry_covers, peers_take};
ghost use Rattle.pol_model.specs.Selects.{selects_number};

use pol_ident::Identities;
use pol_model::selects_every_number;
use pol_ports::Proto;
use pol_rule::{Entry, Peer, Peers};

/// Whether the peer selects the number. One that isn't held is selected by the entity `all` alone.
#[tactic(auto, using(crate::proofs::Numbered::selects_number_is))]
fn selects_number(identities: &Identities, number: u32, peer: &Peer) -> bool
    ensures { result ≡ selects_number identities.now number peer.now }
{
    selects_every_number(peer) || identities.is_selected(number, peer)
}

fn some_peer_selects(peers: &[Peer], identities: &Identities, number: u32) -> bool
    ensures { result ≡ list_any (selects_number identities.now number) peers.now }
{
    peers
        .iter()
        .any(|peer| selects_number(identities, number, peer))
}

fn takes_number(peers: &Peers, identities: &Identities, number: u32) -> bool
    ensures { result ≡ peers_take (selects_number identities.now number) peers.now }
{
    match peers {
        Peers::Every => true,
        Peers::Listed(list) => some_peer_selects(list.as_slice(), identities, number),
    }
}

/// Whether the entry covers a packet from or to the identity of that number.
pub(crate) fn covers_packet(
    entry: &Entry,
    identities: &Identities,
    number: u32,
    proto: Proto,
    port: u16,
) -> bool
    ensures { result ≡ entry_covers (selects_number identities.now number) proto port entry.now }
{
    entry.takes_effect()
        && takes_number(&entry.peers, identities, number)
        && entry.covers_port(proto, port)
}
