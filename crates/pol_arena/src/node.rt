//! A node of a twin.

/// A value on a chain.
#[derive(Drop)]
pub(crate) struct ChainNode<T> {
    pub(crate) value: T,
    pub(crate) chain: u64,
    /// How many nodes lie between this one and the older one of its chain. Where that one was dropped, or never was,
    /// the gap is at least the number of nodes that are older than this one.
    pub(crate) gap: u32,
}
