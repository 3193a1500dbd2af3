//! What a caller sees of filters: those of a policy that lets everybody in, and `--allow-localhost`.

use crate::policy::{no_labels, policy};
use pol_data::Memory;
use pol_filters::{Mode, resolve};
use pol_rule::{Entity, Peer};
use std::alloc::Global;
use std::test::Fail;

/// Whether the policy gives one filter, which lets in, and enforces what comes in alone.
fn gives_one_filter(alloc: Global) -> Result<bool, Memory> {
    let labels = no_labels(alloc)?;
    let mut policies = Vec::with_capacity(alloc, 1)?;
    policies.push(policy(alloc, Peer::Entity(Entity::All))?)?;
    let filters = resolve(alloc, policies.as_slice(), &labels, Mode::Default, true)?;
    let enforced = filters.ingress_enforced && !filters.egress_enforced;
    match filters.ingress.as_slice() {
        [one] => Ok(enforced && !one.deny && one.stamp == 7 && one.place.entry == 0),
        _ => Ok(false),
    }
}

#[test]
fn a_policy_gives_its_filter(rt: HostRuntime) -> Result<(), Fail> {
    assert!(rt; gives_one_filter(rt.alloc())?);
    Ok(())
}

fn localhost_of(alloc: Global, localhost: bool) -> Result<bool, Memory> {
    let labels = no_labels(alloc)?;
    let filters = resolve(alloc, &[], &labels, Mode::Default, localhost)?;
    Ok(filters.localhost)
}

#[test]
fn the_local_host_may_come_in_where_it_always_may(rt: HostRuntime) -> Result<(), Fail> {
    assert!(rt; localhost_of(rt.alloc(), true)?);
    assert!(rt;
        !localhost_of(rt.alloc(), false)?,
        "with --allow-localhost policy"
    );
    Ok(())
}
