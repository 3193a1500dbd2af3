//! Numbers run out, are given back and are taken again.

use pol_addr::{Addr, Family, Prefix};
use pol_data::Text;
use pol_headings::HeadingRef;
use pol_ident::{IdentError, Identities};
use pol_labels::{Label, LabelSet};
use pol_model::has_reserved;
use std::alloc::Global;
use std::test::Fail;

/// The prefix of one address.
fn address(bits: u32) -> Prefix {
    Prefix::host(Addr::V4(bits))
}

/// The set of the one label `k8s:app=N`.
fn app(alloc: Global, number: u32) -> Option<LabelSet> {
    let value = format!(in alloc; "{number}").ok()?;
    let mut labels = Vec::new(alloc);
    labels
        .push(Label {
            source: Text::from_str(alloc, "k8s").ok()?,
            key: Text::from_str(alloc, "app").ok()?,
            value: Text::from_str(alloc, value.as_str()).ok()?,
        })
        .ok()?;
    LabelSet::from_labels(alloc, labels).ok()
}

/// The number that the set takes, where its labels may be held.
fn number_of(identities: &mut Identities, labels: &LabelSet) -> Result<u32, IdentError> {
    if has_reserved(labels) {
        return Err(IdentError::Memory);
    }
    identities.acquire(labels)
}

fn give_back(identities: &mut Identities, number: u32) -> bool {
    let held = identities.held(number);
    if held {
        identities.release(number);
    }
    held
}

fn prefixes_take(identities: &mut Identities) -> bool {
    for i in 0..65_535u32 {
        if identities.acquire_prefix(address(i)) != Ok(16_777_217 + i) {
            return false;
        }
    }
    true
}

fn prefixes_run_out(identities: &mut Identities) -> bool {
    let one_more = address(65_535);
    prefixes_take(identities)
        && identities.acquire_prefix(one_more) == Err(IdentError::Exhausted)
        && give_back(identities, 16_777_217)
        && identities.acquire_prefix(one_more) == Ok(16_777_217)
}

fn sets_take(alloc: Global, identities: &mut Identities) -> Option<bool> {
    for i in 0..65_280u32 {
        let labels = app(alloc, i)?;
        if number_of(identities, &labels) != Ok(256 + i) {
            return Some(false);
        }
    }
    Some(true)
}

fn sets_run_out(alloc: Global, identities: &mut Identities) -> Option<bool> {
    let taken = sets_take(alloc, identities)?;
    let one_more = app(alloc, 65_280)?;
    Some(
        taken
            && number_of(identities, &one_more) == Err(IdentError::Exhausted)
            && give_back(identities, 300)
            && give_back(identities, 256)
            && number_of(identities, &one_more) == Ok(256)
            && number_of(identities, &one_more) == Ok(256),
    )
}

/// Whether these are the numbers under the heading.
fn are_under(
    alloc: Global,
    identities: &Identities,
    heading: &HeadingRef<'_>,
    numbers: &[u32],
) -> bool {
    match identities.numbers_under(alloc, heading) {
        Ok(found) => found.as_slice() == numbers,
        Err(_) => false,
    }
}

/// The same of a label's heading.
fn have_label(
    alloc: Global,
    identities: &Identities,
    key: &str,
    value: &str,
    numbers: &[u32],
) -> bool {
    let heading = HeadingRef::Label { key, value };
    are_under(alloc, identities, &heading, numbers)
}

/// Whether these are the numbers under the prefix of length 0 of a family, and under the name of its world.
fn stand_outside(
    alloc: Global,
    identities: &Identities,
    family: Family,
    name: &str,
    numbers: &[u32],
) -> bool {
    let world = HeadingRef::Prefix(Prefix::world(family));
    are_under(alloc, identities, &world, numbers)
        && have_label(alloc, identities, name, "", numbers)
}

/// Whether the world of a family has this number, also after it was given back.
fn keeps_its_number(identities: &mut Identities, family: Family, number: u32) -> bool {
    identities.acquire_prefix(Prefix::world(family)) == Ok(number)
        && give_back(identities, number)
        && give_back(identities, number)
        && identities.holders_of(number) == Some(1)
}

#[test]
fn prefixes_are_refused_and_taken_again(rt: HostRuntime) -> Result<(), Fail> {
    let mut identities = Identities::new(rt.alloc())?;
    assert!(rt; prefixes_run_out(&mut identities));
    Ok(())
}

#[test]
fn label_sets_are_refused_and_taken_again(rt: HostRuntime) -> Result<(), Fail> {
    let mut identities = Identities::new(rt.alloc())?;
    assert!(rt; sets_run_out(rt.alloc(), &mut identities) == Some(true));
    Ok(())
}

#[test]
fn worlds_keep_their_numbers(rt: HostRuntime) -> Result<(), Fail> {
    let mut identities = Identities::new(rt.alloc())?;
    assert!(rt; keeps_its_number(&mut identities, Family::Ipv4, 9));
    assert!(rt; keeps_its_number(&mut identities, Family::Ipv6, 10));
    Ok(())
}

#[test]
fn numbers_stand_under_headings(rt: HostRuntime) -> Result<(), Fail> {
    let mut identities = Identities::new(rt.alloc())?;
    assert!(rt; identities.acquire_prefix(address(7)) == Ok(16_777_217));
    assert!(rt; identities.acquire_prefix(Prefix::host(Addr::V6(7))) == Ok(16_777_218));
    let labels = app(rt.alloc(), 1).ok_or("no memory")?;
    assert!(rt; number_of(&mut identities, &labels) == Ok(256));
    let all = [1, 2, 3, 4, 5, 6, 7, 8, 9, 10, 256, 16_777_217, 16_777_218];
    assert!(rt; have_label(rt.alloc(), &identities, "app", "1", [256].as_slice()));
    assert!(rt; have_label(rt.alloc(), &identities, "world", "", [2].as_slice()));
    assert!(rt;
        stand_outside(
            rt.alloc(),
            &identities,
            Family::Ipv4,
            "world-ipv4",
            [9, 16_777_217].as_slice()
        )
    );
    assert!(rt;
        stand_outside(
            rt.alloc(),
            &identities,
            Family::Ipv6,
            "world-ipv6",
            [10, 16_777_218].as_slice()
        )
    );
    assert!(rt; are_under(rt.alloc(), &identities, &HeadingRef::Any, all.as_slice()));
    Ok(())
}
