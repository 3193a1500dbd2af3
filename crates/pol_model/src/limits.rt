//! Limits and special numbers; definitions cite them.

/// How many endpoints may be live ('profile').
pub const ENDPOINTS_MAX: u32 = 256;

/// The first number of the cluster's identities (Cilium, Terminology, "Identity").
pub const CLUSTER_FIRST: u32 = 256;

/// The last number of the cluster's identities (Cilium, Terminology, "Identity").
pub const CLUSTER_LAST: u32 = 65_535;

/// How many numbers the cluster's identities have.
pub const CLUSTER_IDENTITIES: u32 = 65_280;

/// The first number of the identities of prefixes (Cilium, Terminology, "Identity", local identities).
pub const LOCAL_FIRST: u32 = 16_777_217;

/// The last number of the identities of prefixes ('profile').
pub const LOCAL_LAST: u32 = 16_842_751;

/// How many numbers the identities of prefixes have ('profile').
pub const LOCAL_IDENTITIES: u32 = 65_535;

/// The last reserved number: 1 to this are allocated from the start and for ever.
pub const RESERVED_LAST: u32 = 10;

/// The identity of the local host (Cilium, Terminology, "Special Identities").
pub const HOST_IDENTITY: u32 = 1;

/// The identity `world`, of what lies outside the cluster whatever its family; no address has it (Cilium, Terminology, "Special
/// Identities"; that no address has it is 'profile').
pub const WORLD_IDENTITY: u32 = 2;

/// The identity of IPv4 addresses outside the cluster (Cilium, Terminology, "Special Identities").
pub const WORLD_IPV4_IDENTITY: u32 = 9;

/// The identity of IPv6 addresses outside the cluster (Cilium, Terminology, "Special Identities").
pub const WORLD_IPV6_IDENTITY: u32 = 10;

/// The identity of endpoints that have no labels yet (Cilium, Terminology, "Special Identities").
pub const INIT_IDENTITY: u32 = 5;

/// The number that stands for every identity in a policy map; it is never allocated ('profile').
pub const EVERY_IDENTITY: u32 = 0;

const _: () = prove!(CLUSTER_LAST - CLUSTER_FIRST + 1 == CLUSTER_IDENTITIES);

const _: () = prove!(LOCAL_LAST - LOCAL_FIRST + 1 == LOCAL_IDENTITIES);
