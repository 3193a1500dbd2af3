//! Whether a filter gives a key. It takes no memory.
ghost use Rattle.std.specs.Prelude.{◌≡◌, ◌-◌, ◌==◌, ◌^◌, ◌<◌, ◌≤◌};
ghost use Rattle.std.specs.List.{list_any};
ghost use Rattle.pol_ports.specs.PortPrefix.{parent_of, prefix_at, same_prefix};
ghost use Rattle.pol_ports.specs.Split.{is_part, lies_in, split_of};
ghost use Rattle.pol_mapkey.specs.MapKey.{every_key};
ghost use Rattle.pol_model.specs.PolicyMap.{peer_numbers, peers_numbers};
ghost use Rattle.pol_sets.specs.Sets.{set_given};
ghost use Rattle.pol_filters.specs.FilterParts.{entry_of};
ghost use Rattle.pol_rule.specs.Covers.{has_effect};
ghost use Rattle.pol_kept_map.specs.Givers.{gives};
ghost use Rattle.pol_kept_map.specs.Giving.{ports_have, proto_fits, spec_has};

use pol_filters::Filter;
use pol_mapkey::{KeyProto, MapKey};
use pol_model::selects_every_number;
use pol_ports::{Direction, PortPrefix, PortRange, Proto};
use pol_rule::{Peer, Peers, PortSpec};
use pol_sets::SetRow;

/// How many ports a prefix of that length has.
fn port_count(len: u8) -> u32
    requires { len ≤ 16 }
    ensures { result ≡ 2 ^ (16 - len) }
{
    1 << (16 - len)
}

/// The prefix of that length that has the port.
#[tactic(auto, using(pol_distill::proofs::Lookups::prefix_made))]
fn prefix_at(port: u16, len: u8) -> PortPrefix
    requires { len ≤ 16 }
    ensures { result ≡ prefix_at port len }
{
    let size = port_count(len);
    PortPrefix {
        bits: (u32::from(port) / size * size) as u16,
        len,
    }
}

/// Whether every port of the prefix is in the range.
fn lies_in(range: PortRange, prefix: PortPrefix) -> bool
    ensures { result ≡ lies_in range prefix }
{
    range.first <= prefix.bits && prefix.end() <= u32::from(range.last) + 1
}

/// The prefix that is one bit shorter.
fn parent_of(prefix: PortPrefix) -> PortPrefix
    requires { 0 < prefix.len }
    ensures { result ≡ parent_of prefix }
{
    prefix_at(prefix.bits, prefix.len - 1)
}

/// Whether the prefix is one of the split of the range.
fn is_part(range: PortRange, prefix: PortPrefix) -> bool
    ensures { result ≡ is_part range prefix }
{
    lies_in(range, prefix) && (prefix.len == 0 || !lies_in(range, parent_of(prefix)))
}

/// Whether the split of the range has the prefix.
fn in_split(range: PortRange, prefix: PortPrefix) -> bool
    ensures { result ≡ list_any (λ own. same_prefix own prefix) (split_of range) }
{
    is_part(range, prefix)
}

/// Whether the protocol of a port, of which none stands for each, is the key's.
fn proto_fits(proto: Option<Proto>, key: KeyProto) -> bool
    ensures { result ≡ proto_fits proto key }
{
    match proto {
        None => key != KeyProto::Every,
        Some(own) => KeyProto::from(own) == key,
    }
}

/// Whether a port gives the key.
fn spec_has(spec: &PortSpec, key: &MapKey) -> bool
    ensures { result ≡ spec_has key.now spec.now }
{
    proto_fits(spec.proto, key.proto) && in_split(spec.range, key.port)
}

/// The key of an identity for every protocol and port.
#[tactic(auto, using(pol_distill::proofs::RawLists::every_key_is))]
fn every_key(dir: Direction, id: u32) -> MapKey
    ensures { result ≡ every_key dir id }
{
    MapKey {
        dir,
        id,
        proto: KeyProto::Every,
        port: PortPrefix { bits: 0, len: 0 },
    }
}

fn specs_have(specs: &[PortSpec], key: &MapKey) -> bool
    ensures { result ≡ list_any (spec_has key.now) specs.now }
{
    specs.iter().any(|spec| spec_has(spec, key))
}

/// Whether ports give the key.
#[tactic(auto, using(crate::proofs::Given::have_or_every))]
fn ports_have(ports: &[PortSpec], key: &MapKey) -> bool
    ensures { result ≡ ports_have key.now ports.now }
{
    if ports.is_empty() {
        every_key(key.dir, key.id) == *key
    } else {
        specs_have(ports, key)
    }
}

/// Whether the set that a peer's first row gives it has the number.
#[tactic(auto, using(crate::proofs::Given::first_row, crate::proofs::Given::later_row))]
fn set_has(peer: &Peer, id: u32, rows: &[SetRow]) -> bool
    ensures { result ≡ list_any (λ own. own == id) (set_given rows.now peer.now) }
{
    for i in 0..rows.len() {
        let row = &rows[i];
        if *row.peer.peer() == *peer {
            return row.set.contains(id);
        }
    }
    false
}

fn peer_has(peer: &Peer, id: u32, rows: &[SetRow]) -> bool
    ensures { result ≡ list_any (λ own. own == id) (peer_numbers (set_given rows.now) peer.now) }
{
    if selects_every_number(peer) {
        id == 0
    } else {
        set_has(peer, id, rows)
    }
}

fn list_has(peers: &[Peer], id: u32, rows: &[SetRow]) -> bool
    ensures { result ≡ list_any (λ p. list_any (λ own. own == id) (peer_numbers (set_given rows.now) p)) peers.now }
{
    peers.iter().any(|peer| peer_has(peer, id, rows))
}

/// Whether peers give entries for the number.
fn peers_have(peers: &Peers, id: u32, rows: &[SetRow]) -> bool
    ensures { result ≡ list_any (λ own. own == id) (peers_numbers (set_given rows.now) peers.now) }
{
    match peers {
        Peers::Every => id == 0,
        Peers::Listed(list) => list_has(list.as_slice(), id, rows),
    }
}

/// Whether the filter covers something.
fn has_effect(one: &Filter) -> bool
    ensures { result ≡ has_effect (entry_of one.now) }
{
    matches!(one.peers, Peers::Listed(_)) || !one.ports.is_empty()
}

/// Whether a filter of the direction gives the key.
#[tactic(auto, using(crate::proofs::Given::gives_is))]
pub(crate) fn gives(one: &Filter, dir: Direction, key: &MapKey, rows: &[SetRow]) -> bool
    ensures { result ≡ gives (set_given rows.now) dir key.now one.now }
{
    dir == key.dir
        && has_effect(one)
        && peers_have(&one.peers, key.id, rows)
        && ports_have(one.ports.as_slice(), key)
}
