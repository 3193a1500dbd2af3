//! The file, with a disk in memory beside it.
ghost use Rattle.std.specs.Prelude.{◌≡◌, ◌+◌, ◌^◌, ◌<◌, ◌≤◌, ℕ, List, drop, length, take, IfOk, IsErr, IsOk, OnOk};
ghost use Rattle.pol_streams.specs.Faults.{Rose, next_count};
ghost use Rattle.pol_disk.specs.Images.{CutShort, Elapses, Follows, Only, Torn, overwritten};
ghost use Rattle.pol_disk.specs.MemDisk.{bytes_in};
ghost use Rattle.pol_disk.specs.Past.{left_now, none_later};
ghost use Rattle.pol_disk.specs.Record.{IsImage, LeftSince, held};
ghost use Rattle.pol_file_disk.specs.FileDisk.{Does, Fails};
ghost use Rattle.std.proofs.Common.{inl, refl};

use pol_disk::{Disk, MemDisk};
use pol_streams::Failed;
use std::fs::File;
use std::marker::Model;
use std::os::unix::fs::FileExt;

/// A file of the system, with a disk in memory that does each of its calls (profile). Reads are answered from memory.
///
/// A contract sees the disk in memory, and the counts of calls and of faults: each error of the file is one, and after the first each
/// call fails. No contract of std tells
/// what a file holds, so that the file keeps to what is done beside it is to be read in this code.
#[derive(Drop)]
pub struct FileDisk {
    file: File,
    mirror: MemDisk,
    calls: u64,
    faults: u64,
}

impl Model for FileDisk {
    ghost use Rattle.pol_file_disk.specs.FileDisk.{FileState};

    ghost Value = { FileState };

    ghost view = { λ d. record { mirror = d.mirror; calls = d.calls; faults = d.faults } };
}

impl FileDisk {
    /// The file, and what it holds, all of which is on the disk.
    pub(crate) fn over(file: File, mirror: MemDisk) -> FileDisk
        ensures { result ≡ record { mirror = mirror; calls = 0; faults = 0 } }
    {
        FileDisk {
            file,
            mirror,
            calls: 0,
            faults: 0,
        }
    }

    /// Whether a call has failed. The file may not hold then what is in memory, and a sync of the system may have dropped what it
    /// couldn't write, so nothing more is done.
    fn has_failed(&self) -> bool {
        self.faults > 0
    }

    /// A call that did what it should.
    fn passed(&mut self) -> Result<(), Failed>
        ensures ok { IsOk result }
        ensures new { self.new
            ≡ record { mirror = self.old.mirror; calls = next_count self.old.calls; faults = self.old.faults } }
    {
        self.calls = self.calls.saturating_add(1);
        Ok(())
    }

    /// One that failed.
    fn failed(&mut self) -> Result<(), Failed>
        ensures err { IsErr result }
        ensures mirror { self.new.mirror ≡ self.old.mirror }
        ensures calls { self.new.calls ≡ next_count self.old.calls }
        ensures rose { Rose self.old.faults self.new.faults }
        ensures never_falls { self.old.faults ≤ self.new.faults }
    {
        self.calls = self.calls.saturating_add(1);
        self.faults = self.faults.saturating_add(1);
        Err(Failed)
    }
}

impl Disk for FileDisk {
    ghost seen = { λ d. bytes_in d.mirror };

    ghost may_leave = { λ d. IsImage (held d.mirror.past) };

    ghost moment = { λ d. length d.mirror.past };

    ghost left_since = { λ d. LeftSince d.mirror.past };

    ghost clock = { λ d. d.calls };

    ghost faults = { λ d. d.faults };

    ghost does = { Does };

    ghost fails = { Fails };

    ghost seen_may_stay = { λ d. inl refl };

    ghost counts_now = { λ d. left_now d.mirror.past };

    ghost only_now = { λ d. none_later d.mirror.past };

    fn len(&self) -> u64 {
        self.mirror.len()
    }

    /// What was written to the file is read from memory.
    fn read(&mut self, at: u64, into: &mut [u8]) -> Result<(), Failed> {
        if self.has_failed() {
            return self.failed();
        }
        match self.mirror.read(at, into) {
            Err(Failed) => self.failed(),
            Ok(()) => self.passed(),
        }
    }

    /// Written in memory, and then to the file.
    fn write_at(&mut self, at: u64, bytes: &[u8]) -> Result<(), Failed> {
        if self.has_failed() {
            return self.failed();
        }
        match self.mirror.write_at(at, bytes) {
            Err(Failed) => self.failed(),
            Ok(()) => match self.file.write_all_at(bytes, at) {
                Err(_) => self.failed(),
                Ok(()) => self.passed(),
            },
        }
    }

    /// Cut in memory, and then the file.
    fn cut(&mut self, len: u64) -> Result<(), Failed> {
        if self.has_failed() {
            return self.failed();
        }
        match self.mirror.cut(len) {
            Err(Failed) => self.failed(),
            Ok(()) => match self.file.set_len(len) {
                Err(_) => self.failed(),
                Ok(()) => self.passed(),
            },
        }
    }

    /// The file is synced (`fdatasync`), and then what is in memory.
    fn sync(&mut self) -> Result<(), Failed> {
        if self.has_failed() {
            return self.failed();
        }
        match self.file.sync_data() {
            Err(_) => self.failed(),
            Ok(()) => match self.mirror.sync() {
                Err(Failed) => self.failed(),
                Ok(()) => self.passed(),
            },
        }
    }
}
