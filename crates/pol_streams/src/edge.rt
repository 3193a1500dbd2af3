//! The real input and output. No contract can say what they give or take, so these two tell no bytes. That they
//! read, write and flush is shown by tests.
ghost use Rattle.std.specs.Prelude.{◌≡◌, ◌<◌, ◌≤◌, IfOk, IsErr, None, OnErr, OnOk, length, take};
ghost use Rattle.std.specs.Io.KnownBytes.{Appends, ReadConsumes};
ghost use Rattle.pol_streams.specs.Faults.{Rose, next_count};

use crate::fake::raised;
use crate::{Failed, Sink, Source};
use std::io::{Read, Write};
use std::marker::Model;

/// Reads from a reader of std, such as standard input (profile). A contract sees the reader and the count of its
/// faults: each error of the reader is one, and so is a read that was interrupted.
#[derive(Drop)]
pub struct IoSource<R: Read> {
    inner: R,
    faults: u64,
}

impl<R: Read> Model for IoSource<R> {
    ghost use Rattle.pol_streams.specs.Edge.{Adapter};

    ghost Value = { Adapter R };

    ghost view = { λ s. record { inner = s.inner; faults = s.faults } };
}

impl<R: Read> IoSource<R> {
    /// A source that reads from `inner`, with no fault so far.
    pub fn new(inner: R) -> IoSource<R>
        ensures { result ≡ record { inner = inner; faults = 0 } }
    {
        IoSource { inner, faults: 0 }
    }
}

impl<R: Read> Source for IoSource<R> {
    ghost left = { λ _. None };

    ghost faults = { λ s. s.faults };

    /// One read of the reader.
    fn read(&mut self, into: &mut [u8]) -> Result<usize, Failed>
        requires { 0 < length into.old }
        ensures passed_on { ReadConsumes
            (R.remaining self.old.inner) (R.remaining self.new.inner) result into.new }
        ensures same { OnOk result (self.new.faults ≡ self.old.faults) }
        ensures failed { OnErr result (self.new.faults ≡ next_count self.old.faults) }

        // As every source.
        ensures bound { IfOk result (λ n. n ≤ length into.new) }
        ensures risen { IsErr result → Rose self.old.faults self.new.faults }
        ensures never_falls { self.old.faults ≤ self.new.faults }
    {
        match self.inner.read(into) {
            Ok(count) => Ok(count),
            Err(_) => {
                self.faults = raised(self.faults);
                Err(Failed)
            }
        }
    }
}

/// Writes to a writer of std, such as standard output, and flushes it after each write (profile). A contract sees
/// the writer and the count of its faults: each error of the writer is one, and so is a write that takes nothing.
#[derive(Drop)]
pub struct IoSink<W: Write> {
    inner: W,
    faults: u64,
}

impl<W: Write> Model for IoSink<W> {
    ghost use Rattle.pol_streams.specs.Edge.{Adapter};

    ghost Value = { Adapter W };

    ghost view = { λ s. record { inner = s.inner; faults = s.faults } };
}

impl<W: Write> IoSink<W> {
    /// A sink that writes to `inner`, with no fault so far.
    pub fn new(inner: W) -> IoSink<W>
        ensures { result ≡ record { inner = inner; faults = 0 } }
    {
        IoSink { inner, faults: 0 }
    }
}

impl<W: Write> Sink for IoSink<W> {
    ghost written = { λ _. None };

    ghost faults = { λ s. s.faults };

    /// One write of the writer, which is then flushed.
    fn write(&mut self, bytes: &[u8]) -> Result<usize, Failed>
        requires { 0 < length bytes.now }
        ensures passed_on { IfOk result (λ n.
            Appends (W.contents self.old.inner) (W.contents self.new.inner) (take n bytes.now)) }
        ensures same { OnOk result (self.new.faults ≡ self.old.faults) }
        ensures failed { OnErr result (self.new.faults ≡ next_count self.old.faults) }

        // As every sink.
        ensures some { IfOk result (λ n. 0 < n) }
        ensures bound { IfOk result (λ n. n ≤ length bytes.now) }
        ensures risen { IsErr result → Rose self.old.faults self.new.faults }
        ensures never_falls { self.old.faults ≤ self.new.faults }
    {
        match self.inner.write(bytes) {
            Ok(count) if count > 0 && self.inner.flush().is_ok() => Ok(count),
            _ => {
                self.faults = raised(self.faults);
                Err(Failed)
            }
        }
    }
}
