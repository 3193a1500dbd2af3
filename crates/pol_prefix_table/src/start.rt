//! A start as it is kept, in 16 bytes.
ghost use Rattle.std.specs.Prelude.{◌≡◌, ◌<◌, ◌≤◌, ◌^◌, nat_lt, IsTrue, true};
ghost use Rattle.pol_addr.specs.Address.{bits_of, family_of};
ghost use Rattle.pol_addr.specs.Prefix.{covers, host_prefix};
ghost use Rattle.pol_prefix_table.specs.Starts.{beginning};

use crate::bits::Bits;
use crate::starts::START_BITS;
use crate::walk::Reached;
use pol_addr::Prefix;
use std::marker::{Model, PhantomData};
use std::mem::size_of;

/// How far a walk has come towards a prefix of one family, which is kept as its length and its bits. Contracts see the walk.
#[derive(Drop)]
pub(crate) struct Start<B: Bits> {
    at: u32,
    /// The number, or 0 where there is none.
    number: u32,
    place: u32,
    numbered: bool,
    len: u8,
    visits: u8,
    of: PhantomData<B>,
}

const _: () = prove!(size_of::<Start<u32>>() == 16);

const _: () = prove!(size_of::<Start<u128>>() == 16);

impl<B: Bits> Model for Start<B> {
    ghost use Rattle.std.specs.Prelude.{◌<◌, ◌≤◌, ◌^◌, Some, None, if◌then◌else◌};
    ghost use Rattle.pol_prefix_table.specs.Starts.{beginning};
    ghost use Rattle.pol_prefix_table.specs.declared.starts.TheConstants.{START_BITS};
    ghost use Rattle.pol_prefix_table.specs.declared.walk.Reached.{Reached};

    ghost Value = { Reached };

    ghost view = { λ s. record {
      to = beginning B.family s.len s.place;
      at = s.at;
      number = if s.numbered then Some s.number else None;
      visits = s.visits;
    } };

    ghost invariant = { λ s. (0 < s.len) × (s.len ≤ START_BITS) × (s.place < 2 ^ s.len) };
}

/// The prefix of this length that begins with the bits of a place.
#[inline(always)]
pub(crate) fn prefix_at<B: Bits>(place: u32, bits: u8) -> Prefix
    requires some { 0 < bits }
    requires few { bits ≤ START_BITS }
    requires small { place < 2 ^ bits }
    ensures value { result ≡ beginning B.family bits place }
    ensures family { family_of result.addr ≡ B.family }
{
    Prefix::new(B::beginning(place, bits), bits)
}

impl<B: Bits> Start<B> {
    /// The start of this walk towards the prefix of a length that begins with the bits of a place.
    #[inline(always)]
    pub(crate) fn of(place: u32, bits: u8, walk: Reached) -> Start<B>
        requires some { 0 < bits }
        requires few { bits ≤ START_BITS }
        requires small { place < 2 ^ bits }
        requires to { walk.to ≡ beginning B.family bits place }
        requires key { walk.at < 2 ^ 32 }
        ensures { result ≡ walk }
    {
        Start {
            at: walk.at as u32,
            number: walk.number.unwrap_or(0),
            place,
            numbered: walk.number.is_some(),
            len: bits,
            visits: walk.visits,
            of: PhantomData,
        }
    }

    /// The start of another walk towards its prefix.
    #[inline(always)]
    pub(crate) fn renewed(&self, walk: Reached) -> Start<B>
        requires to { walk.to ≡ self.now.to }
        requires key { walk.at < 2 ^ 32 }
        ensures { result ≡ walk }
    {
        Start::of(self.place, self.len, walk)
    }

    /// The prefix that it is of.
    #[inline(always)]
    pub(crate) fn to(&self) -> Prefix
        ensures value { result ≡ self.now.to }
        ensures family { family_of result.addr ≡ B.family }
    {
        prefix_at::<B>(self.place, self.len)
    }

    /// Whether the address lies in its prefix.
    #[inline(always)]
    pub(crate) fn contains(&self, bits: B) -> bool
        ensures { IsTrue result → covers self.now.to (host_prefix (B.seen bits)) ≡ true }
    {
        bits.high() >> (32 - self.len) == self.place
    }

    /// Whether its prefix begins before this address.
    #[inline(always)]
    pub(crate) fn is_below(&self, bits: B) -> bool
        ensures { result ≡ nat_lt (bits_of self.now.to.addr) (bits_of (B.seen bits)) }
    {
        B::of(self.to().network()).is_below(bits)
    }

    /// The walk that begins here.
    #[inline(always)]
    pub(crate) fn reached(&self) -> Reached
        ensures walk { result ≡ self.now }
        ensures family { family_of result.to.addr ≡ B.family }
        ensures key { result.at < 2 ^ 32 }
    {
        Reached {
            to: prefix_at::<B>(self.place, self.len),
            at: self.at as usize,
            number: if self.numbered {
                Some(self.number)
            } else {
                None
            },
            visits: self.visits,
        }
    }
}
