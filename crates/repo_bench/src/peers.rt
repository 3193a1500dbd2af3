//! The other sides that policies name.
ghost use Rattle.std.specs.Prelude.{◌≤◌};

use crate::pods::{all_but, pods, with_account};
use pol_addr::{Addr, Prefix};
use pol_data::Memory;
use pol_rule::{Peer, Prefixes};
use std::alloc::Global;

/// What the entries of a policy name as the other side.
#[derive(Clone, Copy)]
pub(crate) enum PeersOf {
    /// The pods of one application: these the repository is filled with.
    Pods,
    /// The same pods by another selector.
    OtherPods,
    /// All pods but those of one application.
    AllBut,
    /// Prefixes of 24 bits: these the repository is filled with. All lie in 20.0.0.0/10.
    Prefixes,
    /// Others of 24 bits, all in 20.128.0.0/16.
    OtherPrefixes,
    /// Prefixes of 15 bits beside those, all in 20.0.0.0/8.
    Wide,
}

fn cidr(alloc: Global, bits: u32, len: u8) -> Peer
    requires { len ≤ 32 }
{
    Peer::Cidr {
        prefix: Prefix::new(Addr::V4(bits), len),
        except: Prefixes::empty(alloc),
    }
}

/// The other side of that number.
pub(crate) fn peer(alloc: Global, named: PeersOf, number: u32) -> Result<Peer, Memory> {
    Ok(match named {
        PeersOf::Pods => Peer::Labels(pods(alloc, number)?),
        PeersOf::OtherPods => Peer::Labels(with_account(alloc, number)?),
        PeersOf::AllBut => Peer::Labels(all_but(alloc, number)?),
        PeersOf::Prefixes => cidr(
            alloc,
            number.wrapping_mul(1 << 8).wrapping_add(0x1400_0000),
            24,
        ),
        PeersOf::OtherPrefixes => cidr(
            alloc,
            number.wrapping_mul(1 << 8).wrapping_add(0x1480_0000),
            24,
        ),
        PeersOf::Wide => cidr(
            alloc,
            number.wrapping_mul(1 << 17).wrapping_add(0x1440_0000),
            15,
        ),
    })
}
