//! What selectors ask for, and what takes a number.

use crate::holder::{Holder, label_set};
use anyhow::Result;
use pol_addr::{Addr, Prefix};
use pol_data::{Items, Memory, Text};
use pol_labels::{Operator, Requirement, Selector};
use pol_rule::{Peer, Prefixes};
use std::alloc::Global;

/// What the selectors ask for.
#[derive(Clone, Copy)]
pub(crate) enum Ask {
    /// Each for another value of the key `app`: one takes the identity.
    OwnValue,
    /// All for the value that the identity has, and each that it hasn't another: all take it.
    SameValue,
    /// Each that the identity hasn't another value: all take it, and none is filed under a value.
    NoValue,
    /// Each for another prefix of 24 bits: one takes the identity.
    OwnPrefix,
}

/// That the key `app` has the value `web-NUMBER`, or hasn't.
fn requirement(alloc: Global, op: Operator, number: u32) -> Result<Requirement, Memory> {
    let value = format!(in alloc; "web-{number}")?;
    Ok(Requirement {
        any_source: true,
        source: Text::empty(alloc),
        key: Text::from_str(alloc, "app")?,
        op,
        values: Items::one(alloc, Text::from_string(value))?,
    })
}

/// What the selector of a number asks.
fn requirements(alloc: Global, ask: Ask, number: u32) -> Result<Vec<Requirement>, Memory> {
    let mut list = Vec::with_capacity(alloc, 2)?;
    match ask {
        Ask::OwnValue => list.push(requirement(alloc, Operator::OneOf, number)?)?,
        Ask::SameValue => {
            list.push(requirement(alloc, Operator::OneOf, 0)?)?;
            list.push(requirement(alloc, Operator::NoneOf, number.wrapping_add(1))?)?;
        }
        Ask::NoValue => list.push(requirement(alloc, Operator::NoneOf, number.wrapping_add(1))?)?,
        Ask::OwnPrefix => {}
    }
    Ok(list)
}

/// The prefix of 24 bits of a number.
fn prefix(number: u32) -> Prefix {
    let bits = number.wrapping_mul(1 << 8).wrapping_add(0x1400_0000);
    Prefix::new(Addr::V4(bits), 24)
}

/// The peer of the selector of a number.
fn peer(alloc: Global, ask: Ask, number: u32) -> Result<Peer> {
    match ask {
        Ask::OwnPrefix => Ok(Peer::Cidr {
            prefix: prefix(number),
            except: Prefixes::empty(alloc),
        }),
        _ => {
            let list = requirements(alloc, ask, number)?;
            Ok(Peer::Labels(Selector::from_requirements(alloc, list)?))
        }
    }
}

/// The peers of so many selectors, from a number on.
pub(crate) fn peers(alloc: Global, ask: Ask, first: u32, count: u32) -> Result<Vec<Peer>> {
    let mut all = Vec::new(alloc);
    for i in 0..count {
        all.push(peer(alloc, ask, first.wrapping_add(i))?)?;
    }
    Ok(all)
}

/// What takes a number, and is taken by the selector of the number 0.
pub(crate) fn holder_for(alloc: Global, ask: Ask) -> Result<Holder> {
    match ask {
        Ask::OwnPrefix => Ok(Holder::Prefix(prefix(0))),
        _ => Ok(Holder::Labels(label_set(alloc, 0)?)),
    }
}
