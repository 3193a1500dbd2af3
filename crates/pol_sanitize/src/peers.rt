//! The peers of an entry.
ghost use Rattle.std.specs.Prelude.{◌≡◌, ◌++◌, ◌∷◌, [], nat_lt, count_by, filter_map, IfOk, OnOk};
ghost use Rattle.std.specs.List.{cons_option};
ghost use Rattle.pol_rule.specs.declared.cause.RuleCause.TheVariants as rule;
ghost use Rattle.pol_sanitize.specs.Answers.{Finds};
ghost use Rattle.pol_sanitize.specs.Faults.{first_cause, found, located, peer_causes, set_causes};
ghost use Rattle.pol_sanitize.specs.Peers.{cidr_peer, combines_kinds, endpoint_peer, entity_of, entity_peer, exceptions_of, has_no_peer_member, has_outside_exception, is_bad_cidr, is_bad_set, is_unknown_entity, kind_lengths, leaves, listed, listed_peers, peers_of, set_peer};
ghost use Rattle.pol_sanitize.specs.Selectors.{is_bad_selector};

use crate::SanitizeError;
use crate::fault::Location;
use crate::kind::{PartKind, push_each};
use crate::selectors::peer_selector;
use pol_addr::Prefix;
use pol_data::{Items, Text};
use pol_rule::{
    Entity, Peer, PeerList, Peers, PolicyKey, Prefixes, RawCidrSet, RawEntry, RawSelector,
    RuleCause,
};
use std::alloc::Global;

/// Selectors of endpoints.
struct Endpoints;

impl PartKind for Endpoints {
    type Raw = RawSelector;

    type Part = Peer;

    ghost cause = { rule.BadSelector };

    ghost bad = { is_bad_selector };

    ghost part = { endpoint_peer };

    fn read(
        alloc: Global,
        key: &PolicyKey,
        location: Location,
        selector: &RawSelector,
    ) -> Result<Option<Peer>, SanitizeError> {
        let selector = peer_selector(alloc, key, location, selector)?;
        Ok(Some(Peer::Labels(selector)))
    }
}

/// Prefixes.
struct Cidrs;

impl PartKind for Cidrs {
    type Raw = Text;

    type Part = Peer;

    ghost cause = { rule.BadCidr };

    ghost bad = { is_bad_cidr };

    ghost part = { λ _ text. cidr_peer text };

    fn read(
        alloc: Global,
        _key: &PolicyKey,
        location: Location,
        text: &Text,
    ) -> Result<Option<Peer>, SanitizeError> {
        let Some(prefix) = Prefix::parse(text.as_str()) else {
            return Err(location.fault(RuleCause::BadCidr));
        };
        Ok(Some(Peer::Cidr {
            prefix,
            except: Items::from_vec(Vec::new(alloc)),
        }))
    }
}

/// Exceptions of a prefix.
struct Exceptions;

impl PartKind for Exceptions {
    ghost use Rattle.pol_addr.specs.Prefix.{read_prefix};

    type Raw = Text;

    type Part = Prefix;

    ghost cause = { rule.BadCidr };

    ghost bad = { is_bad_cidr };

    ghost part = { λ _ text. read_prefix text };

    fn read(
        _alloc: Global,
        _key: &PolicyKey,
        location: Location,
        text: &Text,
    ) -> Result<Option<Prefix>, SanitizeError> {
        match Prefix::parse(text.as_str()) {
            Some(prefix) => Ok(Some(prefix)),
            None => Err(location.fault(RuleCause::BadCidr)),
        }
    }
}

fn entity_of(text: &str) -> Option<Entity>
    ensures { result ≡ entity_of text.now }
{
    match text {
        "all" => Some(Entity::All),
        "world" => Some(Entity::World),
        "world-ipv4" => Some(Entity::WorldIpv4),
        "world-ipv6" => Some(Entity::WorldIpv6),
        "host" => Some(Entity::Host),
        "remote-node" => Some(Entity::RemoteNode),
        "kube-apiserver" => Some(Entity::KubeApiserver),
        "ingress" => Some(Entity::Ingress),
        "init" => Some(Entity::Init),
        "health" => Some(Entity::Health),
        "unmanaged" => Some(Entity::Unmanaged),
        "cluster" => Some(Entity::Cluster),
        _ => None,
    }
}

/// Names of entities.
struct Entities;

impl PartKind for Entities {
    type Raw = Text;

    type Part = Peer;

    ghost cause = { rule.UnknownEntity };

    ghost bad = { is_unknown_entity };

    ghost part = { λ _ text. entity_peer text };

    fn read(
        _alloc: Global,
        _key: &PolicyKey,
        location: Location,
        text: &Text,
    ) -> Result<Option<Peer>, SanitizeError> {
        match entity_of(text.as_str()) {
            Some(entity) => Ok(Some(Peer::Entity(entity))),
            None => Err(location.fault(RuleCause::UnknownEntity)),
        }
    }
}

// ---- prefixes with exceptions

/// Whether an exception isn't inside the prefix.
fn leaves(exceptions: &[Prefix], prefix: Prefix) -> bool
    ensures { result ≡ leaves exceptions.now prefix }
{
    exceptions.iter().any(|exception| !prefix.covers(exception))
}

/// Appends the peer of a CIDR set item, and says whether an exception is outside.
fn push_set(
    alloc: Global,
    key: &PolicyKey,
    location: Location,
    set: &RawCidrSet,
    peers: &mut Vec<Peer>,
) -> Result<bool, SanitizeError>
    ensures fault { Finds (located location (found rule.BadCidr (is_bad_set set.now))) result }
    ensures outside { IfOk result (λ outside. outside ≡ has_outside_exception set.now) }
    ensures peers { OnOk result (peers.new.items ≡ peers.old.items ++ cons_option (set_peer set.now) []) }
{
    let Some(prefix) = Prefix::parse(set.cidr.as_str()) else {
        return Err(location.fault(RuleCause::BadCidr));
    };
    let mut except = Vec::new(alloc);
    push_each::<Exceptions>(alloc, key, location, set.except.as_slice(), &mut except)?;
    let outside = leaves(except.as_slice(), prefix);
    peers.push(Peer::Cidr {
        prefix,
        except: Items::from_vec(except),
    })?;
    Ok(outside)
}

/// Appends the peers of CIDR set items. That a text is bad comes before an exception outside, also where
/// its item comes later.
fn push_sets(
    alloc: Global,
    key: &PolicyKey,
    location: Location,
    sets: &[RawCidrSet],
    peers: &mut Vec<Peer>,
) -> Result<(), SanitizeError>
    ensures fault { Finds (located location (first_cause (set_causes sets.now))) result }
    ensures peers { OnOk result (peers.new.items ≡ peers.old.items ++ filter_map set_peer sets.now) }
{
    let mut outside = false;
    for set in sets {
        let found = push_set(alloc, key, location, set, peers)?;
        outside = outside || found;
    }
    if outside {
        return Err(location.fault(RuleCause::ExceptOutside));
    }
    Ok(())
}

// ---- all peers of an entry

/// The items of a list that may be absent.
fn listed<T>(list: &Option<Items<T>>) -> &[T]
    ensures { result.now ≡ listed list.now }
{
    match list {
        None => &[],
        Some(items) => items.as_slice(),
    }
}

fn kind_lengths(entry: &RawEntry) -> [usize; 4]
    ensures { result ≡ kind_lengths entry.now }
{
    [
        listed(&entry.endpoints).len(),
        listed(&entry.cidrs).len(),
        listed(&entry.cidr_sets).len(),
        listed(&entry.entities).len(),
    ]
}

/// Whether more than one of the lists has items.
fn has_several(lengths: &[usize]) -> bool
    ensures { result ≡ nat_lt 1 (count_by (nat_lt 0) lengths.now) }
{
    lengths.iter().filter(|length| **length > 0).count() > 1
}

/// Whether the entry has peers of more than one kind.
pub(crate) fn combines_kinds(entry: &RawEntry) -> bool
    ensures { result ≡ combines_kinds entry.now }
{
    has_several(&kind_lengths(entry))
}

fn has_no_peer_member(entry: &RawEntry) -> bool
    ensures { result ≡ has_no_peer_member entry.now }
{
    entry.endpoints.is_none()
        && entry.cidrs.is_none()
        && entry.cidr_sets.is_none()
        && entry.entities.is_none()
}

fn listed_peers(
    alloc: Global,
    key: &PolicyKey,
    location: Location,
    entry: &RawEntry,
) -> Result<PeerList, SanitizeError>
    ensures fault { Finds (located location (first_cause (peer_causes entry.now))) result }
    ensures peers { IfOk result (λ peers. peers ≡ listed_peers key.now entry.now) }
{
    let mut peers = Vec::new(alloc);
    push_each::<Endpoints>(alloc, key, location, listed(&entry.endpoints), &mut peers)?;
    push_each::<Cidrs>(alloc, key, location, listed(&entry.cidrs), &mut peers)?;
    push_sets(alloc, key, location, listed(&entry.cidr_sets), &mut peers)?;
    push_each::<Entities>(alloc, key, location, listed(&entry.entities), &mut peers)?;
    Ok(Items::from_vec(peers))
}

/// The peers of an entry: every one where it has no peer member.
pub(crate) fn peers_of(
    alloc: Global,
    key: &PolicyKey,
    location: Location,
    entry: &RawEntry,
) -> Result<Peers, SanitizeError>
    ensures fault { Finds (located location (first_cause (peer_causes entry.now))) result }
    ensures peers { IfOk result (λ peers. peers ≡ peers_of key.now entry.now) }
{
    let peers = listed_peers(alloc, key, location, entry)?;
    if has_no_peer_member(entry) {
        return Ok(Peers::Every);
    }
    Ok(Peers::Listed(peers))
}
