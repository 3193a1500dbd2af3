//! A file is opened as a disk.
ghost use Rattle.std.specs.Prelude.{◌≡◌, [], IfOk, OnOk};
ghost use Rattle.pol_disk.specs.Images.{Only};
ghost use Rattle.pol_disk.specs.MemDisk.{bytes_in};
ghost use Rattle.pol_disk.specs.Record.{IsImage, held};

use crate::file_disk::FileDisk;
use pol_disk::{Disk, MemDisk};
use pol_streams::{Failed, Memory};
use std::alloc::{AllocError, Global};
use std::fs::{File, OpenOptions, TryLockError};
use std::os::unix::fs::FileExt;
use std::path::Path;
use std::rt::Files;
use thiserror::Error;

/// Why a file isn't a disk.
#[derive(Clone, Copy, Debug, PartialEq, Eq, Error)]
pub enum OpenFileError {
    /// It can't be opened for reading and writing, nor made, or it isn't a regular file.
    #[error("the file can't be opened")]
    NotOpened,
    /// Another process has it open as a disk.
    #[error("another process holds the file")]
    Held,
    /// Its bytes can't be read, or the system refuses to put them on the disk.
    #[error("a call of the file failed")]
    Failed,
    /// Memory was refused.
    #[error("out of memory")]
    Memory,
}

/// These bytes are written to an empty disk in memory.
fn fill(mirror: &mut MemDisk, bytes: &[u8]) -> Result<(), Memory>
    requires { bytes_in mirror.old ≡ [] }
    ensures { OnOk result (bytes_in mirror.new ≡ bytes.now) }
{
    if bytes.is_empty() {
        return Ok(());
    }
    match mirror.write_at(0, bytes) {
        Ok(()) => Ok(()),
        Err(Failed) => Err(AllocError),
    }
}

/// A disk in memory that holds these bytes, all of them synced.
fn mirror_of(alloc: Global, bytes: &[u8]) -> Result<MemDisk, Memory>
    ensures bytes { IfOk result (λ mirror. bytes_in mirror ≡ bytes.now) }
    ensures only { IfOk result (λ mirror. Only (bytes_in mirror) (IsImage (held mirror.past))) }
{
    let mut mirror = MemDisk::new(alloc, None)?;
    fill(&mut mirror, bytes)?;
    match mirror.sync() {
        Ok(()) => Ok(mirror),
        Err(Failed) => Err(AllocError),
    }
}

/// The file of that name, which is made where it is missing.
fn open_or_make<R: Files<File = File>>(rt: &R, path: &str) -> Result<File, OpenFileError> {
    match OpenOptions::new()
        .read(true)
        .write(true)
        .create(true)
        .open(rt, path)
    {
        Ok(file) => Ok(file),
        Err(_) => Err(OpenFileError::NotOpened),
    }
}

/// The folder of a file is synced, so that the file's name is on the disk.
fn sync_folder<R: Files<File = File>>(rt: &R, path: &str) -> Result<(), OpenFileError> {
    let folder = match Path::new(path).parent() {
        Some(parent) if !parent.to_string_lossy().is_empty() => parent.to_string_lossy(),
        _ => ".",
    };
    match File::open(rt, folder) {
        Ok(folder) => match folder.sync_all() {
            Ok(()) => Ok(()),
            Err(_) => Err(OpenFileError::Failed),
        },
        Err(_) => Err(OpenFileError::Failed),
    }
}

/// All bytes of a file.
fn bytes_of(alloc: Global, file: &File, len: u64) -> Result<Vec<u8>, OpenFileError> {
    let Ok(mut bytes) = vec![in alloc; 0; len as usize] else {
        return Err(OpenFileError::Memory);
    };
    match file.read_exact_at(bytes.as_mut_slice(), 0) {
        Ok(()) => Ok(bytes),
        Err(_) => Err(OpenFileError::Failed),
    }
}

/// The length of a regular file that no other process holds, which is held from then on.
fn held_len(file: &File) -> Result<u64, OpenFileError> {
    let Ok(found) = file.metadata() else {
        return Err(OpenFileError::Failed);
    };
    if !found.is_file() {
        return Err(OpenFileError::NotOpened);
    }
    match file.try_lock() {
        Ok(()) => {}
        Err(TryLockError::WouldBlock) => return Err(OpenFileError::Held),
        Err(TryLockError::Error(_)) => return Err(OpenFileError::Failed),
    }
    // Another process may have written before it let go.
    match file.metadata() {
        Ok(found) => Ok(found.len()),
        Err(_) => Err(OpenFileError::Failed),
    }
}

/// Opens a file as a disk, and makes it where it is missing, with the mode 0666 less the umask. It is locked (`flock`) until the disk is
/// dropped, put on the disk as it is, and read whole ('profile').
///
/// `NotOpened` comes where it can't be opened for reading and writing, nor made, or isn't a regular file; `Held` where another process
/// holds it; `Failed` where another call of the system fails; and `Memory` is want of memory.
pub fn open_file<R: Files<File = File>>(
    rt: &R,
    alloc: Global,
    path: &str,
) -> Result<FileDisk, OpenFileError>
    ensures only { IfOk result (λ disk. Only (bytes_in disk.mirror) (IsImage (held disk.mirror.past))) }
    ensures counts { IfOk result (λ disk. (disk.calls ≡ 0) × (disk.faults ≡ 0)) }
{
    let file = open_or_make(rt, path)?;
    let len = held_len(&file)?;
    if file.sync_all().is_err() {
        return Err(OpenFileError::Failed);
    }
    // Whoever made the file may have died before its name was on the disk.
    sync_folder(rt, path)?;
    let bytes = bytes_of(alloc, &file, len)?;
    match mirror_of(alloc, bytes.as_slice()) {
        Ok(mirror) => Ok(FileDisk::over(file, mirror)),
        Err(_) => Err(OpenFileError::Memory),
    }
}
