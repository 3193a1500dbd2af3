//! A policy whose map has 16,384 entries, and one whose map has one more.
ghost use Rattle.std.specs.Prelude.{◌≡◌};

use crate::policy::{no_labels, policy};
use pol_addr::{Addr, Prefix};
use pol_data::{Items, Memory, Steps};
use pol_distill::{distill, have_sets};
use pol_filters::{Filters, Mode, resolve};
use pol_ident::Identities;
use pol_rule::Peer;
use pol_selcache::SelectorCache;
use pol_sets::{SetRow, Sets, SharedPeer};
use std::alloc::Global;
use std::marker::Brand;
use std::sync::ledger::{Blank, Ledger};
use std::test::Fail;

/// The peer of all addresses in 10.0.0.0/8.
fn block(alloc: Global) -> Peer {
    Peer::Cidr {
        prefix: Prefix::new(Addr::from_octets(10, 0, 0, 0), 8),
        except: Items::empty(alloc),
    }
}

/// The identities of so many addresses, from 10.0.0.0 on.
fn identities(alloc: Global, count: u16) -> Option<Identities> {
    let mut identities = Identities::new(alloc).ok()?;
    for i in 0..count {
        let address = Addr::V4(0x0A00_0000 + u32::from(i));
        identities.acquire_prefix(Prefix::host(address)).ok()?;
    }
    Some(identities)
}

/// The set that the block has of them.
fn sets_over<L: Ledger>(blank: Blank, alloc: Global, identities: &Identities) -> Option<Sets>
    requires name { blank.name ≡ L.name }
    requires parts { blank.parts ≡ L.parts }
    requires some { blank.parts ≡ 1 }
{
    let mut steps = Steps::<L>::new(blank);
    let peer = block(alloc);
    let mut cache = SelectorCache::new(alloc);
    let selector = cache.add(&peer, identities, &mut steps).ok()?;
    let set = cache.set_at_now(selector).ok()?;
    let row = SetRow {
        peer: SharedPeer::new(alloc, peer).ok()?,
        selector,
        set,
    };
    let rows = Items::one(alloc, row).ok()?.into_vec();
    Sets::from_vec(alloc, rows).ok()
}

/// The same for a caller that counts no steps.
fn sets(alloc: Global, identities: &Identities) -> Option<Sets> {
    sets_over::<Brand>(Blank::new(1), alloc, identities)
}

/// The filters of a policy that lets the block in.
fn filters(alloc: Global) -> Result<Filters, Memory> {
    let labels = no_labels(alloc)?;
    let mut policies = Vec::with_capacity(alloc, 1)?;
    policies.push(policy(alloc, block(alloc))?)?;
    resolve(alloc, policies.as_slice(), &labels, Mode::Default, true)
}

/// How many entries the map of these filters and sets has.
fn size(alloc: Global, filters: &Filters, sets: &Sets) -> Option<u64> {
    if have_sets(filters, sets) {
        Some(distill(alloc, filters, sets).ok()?.count())
    } else {
        None
    }
}

/// How many entries the map of that policy has, where so many addresses have identities.
fn size_with(alloc: Global, addresses: u16) -> Option<u64> {
    let identities = identities(alloc, addresses)?;
    let sets = sets(alloc, &identities)?;
    size(alloc, &filters(alloc).ok()?, &sets)
}

#[test]
fn a_map_has_an_entry_for_each_identity(rt: HostRuntime) -> Result<(), Fail> {
    // with the local host's entry and that of egress, which isn't enforced
    assert!(rt; size_with(rt.alloc(), 16_382) == Some(16_384));
    assert!(rt; size_with(rt.alloc(), 16_383) == Some(16_385));
    Ok(())
}
