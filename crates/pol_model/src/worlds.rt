//! The worlds: what lies outside the cluster, by the family of its address.
ghost use Rattle.std.specs.Prelude.{◌≡◌};
ghost use Rattle.pol_model.specs.Worlds.{either_world, world_in, world_of};

use crate::limits::{WORLD_IPV4_IDENTITY, WORLD_IPV6_IDENTITY};
use pol_addr::{Addr, Family};

/// The number of the family's world: that of its prefix of length 0 (Cilium, Terminology, "Special Identities").
pub fn world_identity(family: Family) -> u32
    ensures identity { result ≡ (world_in family).identity }
{
    match family {
        Family::Ipv4 => WORLD_IPV4_IDENTITY,
        Family::Ipv6 => WORLD_IPV6_IDENTITY,
    }
}

/// The number of an address that no endpoint and no held prefix has: that of its family's world (Cilium, Terminology, "Special
/// Identities").
pub fn world_identity_of(address: Addr) -> u32
    ensures identity { result ≡ (world_of address).identity }
{
    world_identity(address.family())
}

/// The name in the reserved label of the family's world.
pub(crate) fn world_name(family: Family) -> &'static str
    ensures { result.now ≡ (world_in family).name }
{
    match family {
        Family::Ipv4 => "world-ipv4",
        Family::Ipv6 => "world-ipv6",
    }
}

/// The name in the reserved label of what lies outside the cluster, whatever its family.
pub(crate) fn either_world_name() -> &'static str
    ensures { result.now ≡ either_world.1 }
{
    "world"
}
