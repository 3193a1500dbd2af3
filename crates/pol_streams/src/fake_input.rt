//! A source in memory.
ghost use Rattle.std.specs.Prelude.{◌≡◌, ◌<◌, ◌≤◌, ◌+◌, ◌++◌, ◌↔◌, Contains, IfOk, IsErr, OnErr, Some, [], drop, length, min, take};
ghost use Rattle.pol_streams.specs.Faults.{Rose, next_count};

use crate::fake::{is_failing, raised};
use crate::{Failed, Source};
use std::marker::Model;

/// A source whose bytes are in memory, and which fails at the calls that it is told to (profile).
///
/// A contract sees the bytes that are left, the most that a read gives, the numbers of the reads that fail, and
/// how many reads there were and how many of them failed.
#[derive(Drop)]
pub struct MemSource {
    bytes: Vec<u8>,
    at: usize,
    piece: usize,
    fails: Vec<u64>,
    calls: u64,
    faults: u64,
}

impl Model for MemSource {
    ghost use Rattle.std.specs.Prelude.{◌<◌, ◌≤◌, drop, length};
    ghost use Rattle.pol_streams.specs.Fakes.{SourceState};

    ghost Value = { SourceState };

    ghost view = { λ s. record {
      left = drop s.at s.bytes.items;
      piece = s.piece;
      fails = s.fails.items;
      calls = s.calls;
      faults = s.faults;
    } };

    ghost invariant = { λ s. (s.at ≤ length s.bytes.items) × (0 < s.piece) };
}

impl MemSource {
    /// A source of these bytes. A read gives at most `piece` of them, and read number c, from 1, fails exactly
    /// where `fails` holds c.
    pub fn new(bytes: Vec<u8>, piece: usize, fails: Vec<u64>) -> MemSource
        requires { 0 < piece }
        ensures { result ≡ record {
          left = bytes.items;
          piece = piece;
          fails = fails.items;
          calls = 0;
          faults = 0;
        } }
    {
        MemSource {
            bytes,
            at: 0,
            piece,
            fails,
            calls: 0,
            faults: 0,
        }
    }

    /// The bytes that are left.
    pub fn left(&self) -> &[u8]
        ensures { result.now ≡ self.now.left }
    {
        &self.bytes[self.at..]
    }

    /// How many reads there were. It stands still at the end of a `u64`.
    pub fn calls(&self) -> u64
        ensures { result ≡ self.now.calls }
    {
        self.calls
    }
}

impl Source for MemSource {
    ghost left = { λ s. Some s.left };

    ghost faults = { λ s. s.faults };

    /// Read number c fails exactly where c is listed, and then only the counts change. Any other gives as many
    /// bytes as its piece, the room in `into` and the bytes that are left allow.
    fn read(&mut self, into: &mut [u8]) -> Result<usize, Failed>
        requires { 0 < length into.old }
        ensures fails { IsErr result ↔ Contains self.old.fails (self.old.calls + 1) }
        ensures count { IfOk result (λ n.
            n ≡ min self.old.piece (min (length into.old) (length self.old.left))) }
        ensures bytes { IfOk result (λ n. into.new ≡ take n self.old.left ++ drop n into.old) }
        ensures after { IfOk result (λ n. self.new ≡ record self.old {
          left = drop n self.old.left;
          calls = next_count self.old.calls;
        }) }
        ensures failed { OnErr result (self.new ≡ record self.old {
          calls = next_count self.old.calls;
          faults = next_count self.old.faults;
        }) }

        // As every source.
        ensures end { IfOk result (λ n. n ≡ 0 → self.new.left ≡ []) }
        ensures risen { IsErr result → Rose self.old.faults self.new.faults }
        ensures never_falls { self.old.faults ≤ self.new.faults }
    {
        let fails = is_failing(&self.fails, self.calls);
        self.calls = raised(self.calls);
        if fails {
            self.faults = raised(self.faults);
            return Err(Failed);
        }
        let count = self.piece.min(into.len()).min(self.bytes.len() - self.at);
        into[..count].copy_from_slice(&self.bytes[self.at..self.at + count]);
        self.at += count;
        Ok(count)
    }
}
