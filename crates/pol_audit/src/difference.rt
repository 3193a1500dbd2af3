//! Ranges of packets on which two tables differ.
use pol_data::Items;
use pol_mapkey::Word;
use pol_ports::{Direction, Proto};

/// The numbers of a range.
#[derive(Clone, Copy, PartialEq, Eq, Hash, Debug)]
pub enum Numbers {
    /// 0 and every number that stands in neither table in the range's direction: they all read as 0 does.
    EveryOther,
    /// This number alone, which stands in one of the tables and isn't 0.
    One(u32),
}

/// A range of packets on which two tables differ: those of one direction, of these numbers, of one protocol, with ports from
/// `first` to `last`, both included.
#[derive(Clone, Copy, PartialEq, Eq, Hash, Debug)]
pub struct Difference {
    /// The direction of the packets.
    pub dir: Direction,
    /// The remote numbers of the packets.
    pub numbers: Numbers,
    /// The protocol of the packets.
    pub proto: Proto,
    /// The least port.
    pub first: u16,
    /// The greatest port, at least `first`.
    pub last: u16,
    /// What the left table says of each of them.
    pub left: Word,
    /// What the right table says of each of them, which is another word.
    pub right: Word,
}

/// A list of ranges.
pub type Differences = Items<Difference>;
