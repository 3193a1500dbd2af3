//! An endpoint, and a policy that lets it reach a prefix but for a part of it, and a prefix of the other family.
ghost use Rattle.std.specs.Prelude.{◌≡◌, None, IfSome};

use pol_addr::{Addr, Prefix};
use pol_data::{Items, Steps, Text};
use pol_labels::{Label, LabelSet, Selector};
use pol_model::Request;
use pol_repo::Repo;
use pol_rule::{
    DefaultDeny, Entries, Entry, Peer, PeerList, Peers, Policy, PolicyKey, PortSpecs, Prefixes,
    Rule, Rules,
};
use std::alloc::Global;
use std::sync::ledger::Ledger;

fn labels(alloc: Global) -> Option<LabelSet> {
    let label = Label::parse(alloc, "k8s:io.kubernetes.pod.namespace=default").ok()?;
    let labels = Items::one(alloc, label).ok()?;
    LabelSet::from_labels(alloc, labels.into_vec()).ok()
}

/// An endpoint `web` of the namespace `default`, with the address 192.168.0.1.
pub(crate) fn endpoint(alloc: Global) -> Option<Request> {
    let name = Text::from_str(alloc, "web").ok()?;
    Some(Request::AddEndpoint {
        name,
        labels: labels(alloc)?,
        address: Addr::from_octets(192, 168, 0, 1),
    })
}

/// 10.0.0.0/8 without 10.1.0.0/16.
fn ipv4(alloc: Global) -> Option<Peer> {
    let except = Prefix::new(Addr::from_octets(10, 1, 0, 0), 16);
    Some(Peer::Cidr {
        prefix: Prefix::new(Addr::from_octets(10, 0, 0, 0), 8),
        except: Prefixes::one(alloc, except).ok()?,
    })
}

/// 2001:db8::/32.
fn ipv6(alloc: Global) -> Peer {
    let documentation = Addr::from_groups([0x2001, 0xdb8, 0, 0, 0, 0, 0, 0]);
    Peer::Cidr {
        prefix: Prefix::new(documentation, 32),
        except: Prefixes::empty(alloc),
    }
}

fn peers(alloc: Global) -> Option<Peers> {
    let peers = vec![in alloc; ipv4(alloc)?, ipv6(alloc)].ok()?;
    Some(Peers::Listed(PeerList::from_vec(peers)))
}

fn entries(alloc: Global) -> Option<Entries> {
    let entry = Entry {
        peers: peers(alloc)?,
        ports: PortSpecs::empty(alloc),
    };
    Entries::one(alloc, entry).ok()
}

/// A rule of what these endpoints may reach.
fn rule(alloc: Global, subject: Selector, egress: Entries) -> Rule {
    Rule {
        subject,
        ingress: Entries::empty(alloc),
        ingress_deny: Entries::empty(alloc),
        egress,
        egress_deny: Entries::empty(alloc),
        default_deny: DefaultDeny::nothing_said(),
    }
}

fn rules(alloc: Global) -> Option<Rules> {
    let everyone = Selector::from_requirements(alloc, Vec::new(alloc)).ok()?;
    let egress = entries(alloc)?;
    Rules::one(alloc, rule(alloc, everyone, egress)).ok()
}

fn key(alloc: Global) -> Option<PolicyKey> {
    Some(PolicyKey {
        cluster_wide: true,
        namespace: Text::empty(alloc),
        name: Text::from_str(alloc, "p").ok()?,
    })
}

/// The policy of one rule that lets every endpoint reach those prefixes.
pub(crate) fn policy(alloc: Global) -> Option<Request> {
    Some(Request::Apply(Policy {
        key: key(alloc)?,
        rules: rules(alloc)?,
    }))
}

/// That the policy goes.
pub(crate) fn no_policy(alloc: Global) -> Option<Request> {
    Some(Request::Remove(key(alloc)?))
}

/// Commits the request.
pub(crate) fn commit<L: Ledger>(
    repo: &mut Repo,
    request: Request,
    steps: &mut Steps<L>,
) -> Option<()>
    requires idle { repo.old.prepared ≡ None }
    ensures idle { IfSome result (λ _. repo.new.prepared ≡ None) }
{
    if !request.is_short() {
        return None;
    }
    let _done = repo.commit(request, steps).ok()?;
    Some(())
}
