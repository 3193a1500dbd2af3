//! What an audit finds.
use pol_mapkey::Word;
use pol_ports::{Direction, Proto};

/// A packet on which two tables differ.
#[derive(Clone, Copy, PartialEq, Eq, Hash, Debug)]
pub struct Packet {
    /// The direction of the packet.
    pub dir: Direction,
    /// The remote number.
    pub id: u32,
    /// The protocol.
    pub proto: Proto,
    /// The port.
    pub port: u16,
    /// What the left table says of it.
    pub left: Word,
    /// What the right table says of it.
    pub right: Word,
}

/// What an audit finds.
#[derive(Clone, Copy, PartialEq, Eq, Hash, Debug)]
pub enum Audit {
    /// The tables give one word for every direction, number, protocol and port.
    Same,
    /// The least packet on which they differ, by direction, number, protocol and port.
    Differs(Packet),
}
