//! Groups of packets.
use pol_ports::{Direction, Proto};

/// The packets of one direction, number and protocol.
#[derive(Clone, Copy)]
pub(crate) struct Group {
    pub dir: Direction,
    pub id: u32,
    pub proto: Proto,
}
