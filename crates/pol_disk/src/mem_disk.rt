//! A disk in memory.
ghost use Rattle.std.specs.Prelude.{◌≡◌, ◌↔◌, ◌+◌, ◌^◌, ◌<◌, ◌≤◌, ℕ, List, [], drop, false, true, length, take, IfOk, IsErr, IsTrue, None, OnErr, OnOk, ◌||◌, ◌&&◌};
ghost use Rattle.pol_streams.specs.Faults.{Rose, next_count};
ghost use Rattle.pol_disk.specs.declared.call.DiskCall.TheVariants as called;
ghost use Rattle.pol_disk.specs.Images.{CutShort, Elapses, Follows, Only, Torn, overwritten};
ghost use Rattle.pol_disk.specs.MemDisk.{Does, Fails, bytes_in, counted, did, failed, fails_at, is_stopped, is_too_far};
ghost use Rattle.pol_disk.specs.Past.{left_now, none_later};
ghost use Rattle.pol_disk.specs.Record.{IsImage, IsSettled, LeftSince, held, kept_bytes};
ghost use Rattle.std.proofs.Common.{inl, refl};

use crate::parts::{copy_tail, make_bytes_room, make_equal, make_room, overwrite, write_call};
use crate::{Disk, DiskCall};
use pol_streams::{Failed, Memory};
use std::alloc::Global;
use std::marker::Model;

/// A disk whose bytes are in memory, which keeps a record of what was done, fails from a chosen call on, and can be made to
/// crash (profile).
///
/// A contract sees the record, which tells the bytes and the images (`specs/Record`), the number of the call from which on all
/// fail, how many calls there were, how many of them failed, and whether one failed for want of memory.
#[derive(Drop)]
pub struct MemDisk {
    alloc: Global,
    bytes: Vec<u8>,
    // What the last sync put on the disk.
    synced: Vec<u8>,
    // Up to this place both are alike.
    alike: usize,
    // Whether something was done since the last sync.
    dirty: bool,
    past: Vec<DiskCall>,
    fails_from: Option<u64>,
    calls: u64,
    faults: u64,
    starved: bool,
}

impl Model for MemDisk {
    ghost use Rattle.std.specs.Prelude.{◌<◌, ◌≤◌, IsTrue, length, vec_capacity, vec_len};
    ghost use Rattle.pol_disk.specs.MemDisk.{DiskState};
    ghost use Rattle.pol_disk.specs.Kept.{Keeps};

    ghost Value = { DiskState };

    ghost view = { λ d. record {
      past = d.past.items;
      fails_from = d.fails_from;
      calls = d.calls;
      faults = d.faults;
      starved = d.starved;
    } };

    ghost invariant = { λ d. Keeps d.past.items d.bytes.items d.synced.items d.alike d.dirty
        × (IsTrue d.dirty → vec_len d.past < vec_capacity d.past)
        × (length d.bytes.items ≤ vec_capacity d.synced)
        × (length d.synced.items ≤ vec_capacity d.bytes) };
}

/// Whether the call after these fails by its number.
fn is_stopped(fails_from: Option<u64>, calls: u64) -> bool
    ensures { result ≡ fails_at fails_from (calls + 1) }
{
    match fails_from {
        None => false,
        Some(first) => first <= calls.saturating_add(1),
    }
}

impl MemDisk {
    /// An empty disk. Each call of `read`, `write_at`, `cut` and `sync` from number `fails_from` on, counted from 1, fails with
    /// nothing done; where it is None no call fails by its number. The one error is want of memory.
    pub fn new(alloc: Global, fails_from: Option<u64>) -> Result<MemDisk, Memory>
        ensures { IfOk result (λ disk. disk ≡ record {
          past = [];
          fails_from = fails_from;
          calls = 0;
          faults = 0;
          starved = false;
        }) }
    {
        Ok(MemDisk {
            alloc,
            bytes: Vec::new(alloc),
            synced: Vec::new(alloc),
            alike: 0,
            dirty: false,
            past: Vec::with_capacity(alloc, 2)?,
            fails_from,
            calls: 0,
            faults: 0,
            starved: false,
        })
    }

    /// Whether a call failed for want of memory: one below the number from which on all fail that was no write past byte 2^63.
    pub fn starved(&self) -> bool
        ensures { result ≡ self.now.starved }
    {
        self.starved
    }

    /// How many calls of `read`, `write_at`, `cut` and `sync` there were. It stands still at the end of a `u64`.
    pub fn calls(&self) -> u64
        ensures { result ≡ self.now.calls }
    {
        self.calls
    }

    /// The disk after a crash that kept all that was written, or only what a sync had put on it. No call of it fails by its
    /// number, and its counts begin anew. It takes no memory.
    pub fn crash(mut self, keep: bool) -> MemDisk
        ensures image { IsImage (held self.past) (bytes_in result) }
        ensures kept { IsSettled (kept_bytes keep (held self.past)) result.past }
        ensures fails { result.fails_from ≡ None }
        ensures counts { (result.calls ≡ 0) × (result.faults ≡ 0) × (result.starved ≡ false) }
    {
        self.end(keep);
        self.fails_from = None;
        self.calls = 0;
        self.faults = 0;
        self.starved = false;
        self
    }

    /// One image stays.
    fn end(&mut self, keep: bool)
        ensures image { IsImage (held self.old.past) (bytes_in self.new) }
        ensures kept { IsSettled (kept_bytes keep (held self.old.past)) self.new.past }
    {
        if self.dirty {
            make_equal(keep, &mut self.bytes, &mut self.synced, self.alike);
            self.alike = self.bytes.len();
            self.past.push_reserved(DiskCall::Crash { keep });
            self.dirty = false;
        }
    }

    /// The call failed.
    fn fail(&mut self, has_reason: bool)
        ensures { self.new ≡ failed has_reason self.old }
    {
        self.calls = self.calls.saturating_add(1);
        self.faults = self.faults.saturating_add(1);
        self.starved = self.starved || !has_reason;
    }

    /// The write, where memory is there for it.
    fn try_write(&mut self, at: u64, bytes: &[u8]) -> Result<(), Memory>
        requires place { at ≤ length (bytes_in self.old) }
        ensures ok { OnOk result (self.new ≡ did (called.Write at bytes.now) self.old) }
        ensures err { OnErr result (self.new ≡ self.old) }
    {
        let call = write_call(self.alloc, at, bytes)?;
        let place = at as usize;
        make_room(&mut self.past)?;
        make_bytes_room(&mut self.bytes, &mut self.synced, place + bytes.len())?;
        overwrite(&mut self.bytes, place, bytes);
        self.past.push_reserved(call);
        self.alike = self.alike.min(place);
        self.dirty = true;
        self.calls = self.calls.saturating_add(1);
        Ok(())
    }

    /// The cut, where memory is there for it.
    fn try_cut(&mut self, len: u64) -> Result<(), Memory>
        requires { len ≤ length (bytes_in self.old) }
        ensures ok { OnOk result (self.new ≡ did (called.Cut len) self.old) }
        ensures err { OnErr result (self.new ≡ self.old) }
    {
        make_room(&mut self.past)?;
        let len_left = len as usize;
        self.bytes.truncate(len_left);
        self.past.push_reserved(DiskCall::Cut { len });
        self.alike = self.alike.min(len_left);
        self.dirty = true;
        self.calls = self.calls.saturating_add(1);
        Ok(())
    }

    /// The sync, where memory is there for it.
    fn try_sync(&mut self) -> Result<(), Memory>
        ensures ok { OnOk result (self.new ≡ did called.Sync self.old) }
        ensures err { OnErr result (self.new ≡ self.old) }
    {
        make_room(&mut self.past)?;
        copy_tail(&mut self.synced, &self.bytes, self.alike);
        self.past.push_reserved(DiskCall::Sync);
        self.alike = self.bytes.len();
        self.dirty = false;
        self.calls = self.calls.saturating_add(1);
        Ok(())
    }
}

impl Disk for MemDisk {
    ghost seen = { bytes_in };

    ghost may_leave = { λ d. IsImage (held d.past) };

    ghost moment = { λ d. length d.past };

    ghost left_since = { λ d. LeftSince d.past };

    ghost clock = { λ d. d.calls };

    ghost faults = { λ d. d.faults };

    ghost does = { Does };

    ghost fails = { Fails };

    ghost seen_may_stay = { λ d. inl refl };

    ghost counts_now = { λ d. left_now d.past };

    ghost only_now = { λ d. none_later d.past };

    fn len(&self) -> u64 {
        self.bytes.len() as u64
    }

    /// It fails exactly by its number.
    fn read(&mut self, at: u64, into: &mut [u8]) -> Result<(), Failed>
        requires { at + length into.old ≤ length (bytes_in self.old) }
        ensures read { OnOk result (into.new ≡ take (length into.old) (drop at (bytes_in self.old))) }
        ensures fails { IsErr result ↔ IsTrue (is_stopped self.old) }
        ensures ok { OnOk result (self.new ≡ counted self.old) }
        ensures err { OnErr result (self.new ≡ failed true self.old) }

        // As every disk.
        ensures crash { (c : List ℕ) → IsImage (held self.new.past) c → IsImage (held self.old.past) c }
        ensures time { Elapses (length self.old.past)
            (length self.new.past) (LeftSince self.old.past) (LeftSince self.new.past) (IsImage (held self.new.past)) }
        ensures failed { IsErr result → Rose self.old.faults self.new.faults }
        ensures never_falls { self.old.faults ≤ self.new.faults }
    {
        if is_stopped(self.fails_from, self.calls) {
            self.fail(true);
            return Err(Failed);
        }
        let from = at as usize;
        into.copy_from_slice(&self.bytes[from..from + into.len()]);
        self.calls = self.calls.saturating_add(1);
        Ok(())
    }

    /// It fails by its number, where it would end past byte 2^63, and for want of memory.
    fn write_at(&mut self, at: u64, bytes: &[u8]) -> Result<(), Failed>
        requires place { at ≤ length (bytes_in self.old) }
        requires some { 0 < length bytes.now }
        ensures stopped { IsTrue (is_stopped self.old) → IsErr result }
        ensures too_far { IsTrue (is_too_far at (length bytes.now)) → IsErr result }
        ensures ok { OnOk result (self.new ≡ did (called.Write at bytes.now) self.old) }
        ensures err { OnErr result (self.new
            ≡ failed (is_stopped self.old || is_too_far at (length bytes.now)) self.old) }

        // As every disk.
        ensures written { OnOk result (bytes_in self.new ≡ overwritten (bytes_in self.old) at bytes.now) }
        ensures crash { Follows (Torn at (length bytes.now))
            (IsImage (held self.old.past)) (IsImage (held self.new.past)) }
        ensures time { Elapses (length self.old.past)
            (length self.new.past) (LeftSince self.old.past) (LeftSince self.new.past) (IsImage (held self.new.past)) }
        ensures failed { IsErr result → Rose self.old.faults self.new.faults }
        ensures never_falls { self.old.faults ≤ self.new.faults }
    {
        let has_reason = is_stopped(self.fails_from, self.calls)
            || bytes.len() as u64 > (1 << 63) - at;
        if has_reason || self.try_write(at, bytes).is_err() {
            self.fail(has_reason);
            return Err(Failed);
        }
        Ok(())
    }

    /// It fails by its number, and for want of memory.
    fn cut(&mut self, len: u64) -> Result<(), Failed>
        requires { len ≤ length (bytes_in self.old) }
        ensures stopped { IsTrue (is_stopped self.old) → IsErr result }
        ensures ok { OnOk result (self.new ≡ did (called.Cut len) self.old) }
        ensures err { OnErr result (self.new ≡ failed (is_stopped self.old) self.old) }

        // As every disk.
        ensures cut { OnOk result (bytes_in self.new ≡ take len (bytes_in self.old)) }
        ensures crash { Follows (CutShort len) (IsImage (held self.old.past)) (IsImage (held self.new.past)) }
        ensures time { Elapses (length self.old.past)
            (length self.new.past) (LeftSince self.old.past) (LeftSince self.new.past) (IsImage (held self.new.past)) }
        ensures failed { IsErr result → Rose self.old.faults self.new.faults }
        ensures never_falls { self.old.faults ≤ self.new.faults }
    {
        let has_reason = is_stopped(self.fails_from, self.calls);
        if has_reason || self.try_cut(len).is_err() {
            self.fail(has_reason);
            return Err(Failed);
        }
        Ok(())
    }

    /// It fails by its number, and for want of memory.
    fn sync(&mut self) -> Result<(), Failed>
        ensures stopped { IsTrue (is_stopped self.old) → IsErr result }
        ensures ok { OnOk result (self.new ≡ did called.Sync self.old) }
        ensures err { OnErr result (self.new ≡ failed (is_stopped self.old) self.old) }

        // As every disk.
        ensures same { OnOk result (bytes_in self.new ≡ bytes_in self.old) }
        ensures durable { OnOk result (Only (bytes_in self.new) (IsImage (held self.new.past))) }
        ensures crash { (c : List ℕ) → IsImage (held self.new.past) c → IsImage (held self.old.past) c }
        ensures time { Elapses (length self.old.past)
            (length self.new.past) (LeftSince self.old.past) (LeftSince self.new.past) (IsImage (held self.new.past)) }
        ensures failed { IsErr result → Rose self.old.faults self.new.faults }
        ensures never_falls { self.old.faults ≤ self.new.faults }
    {
        let has_reason = is_stopped(self.fails_from, self.calls);
        if has_reason || self.try_sync().is_err() {
            self.fail(has_reason);
            return Err(Failed);
        }
        Ok(())
    }
}
