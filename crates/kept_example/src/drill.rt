//! One disk that fails from a call on, and what is there after a crash.
use anyhow::Result;
use pol_data::Steps;
use pol_disk::{Disk, MemDisk};
use pol_journal::read_commit;
use pol_kept::{Kept, KeptConfig, KeptError};
use pol_model::Mode;
use std::alloc::Global;
use std::sync::ledger::Ledger;

/// What is asked, the third of which has a fault.
const LINES: [&[u8]; 4] = [
    b"{\"op\":\"mode\",\"enable\":\"always\"}",
    b"{\"op\":\"identity\",\"name\":\"db\",\"labels\":[\"k8s:app=db\"]}",
    b"{\"op\":\"identity\",\"name\":\"db\",\"labels\":[\"k8s:app=db\"]}",
    b"{\"op\":\"remove-identity\",\"name\":\"db\"}",
];

pub(crate) const CONFIG: KeptConfig = KeptConfig {
    mode: Mode::Default,
    localhost: true,
    map_max: 16_384,
};

/// How a commit ended.
pub(crate) enum Told {
    Kept(u64),
    Refused,
    NoMemory,
    Lost,
}

pub(crate) fn ask<L: Ledger>(
    alloc: Global,
    kept: &mut Kept<MemDisk>,
    line: &[u8],
    steps: &mut Steps<L>,
) -> Told {
    if kept.lost() {
        return Told::Lost;
    }
    let Ok(Some(request)) = read_commit(alloc, line) else {
        return Told::NoMemory;
    };
    match kept.commit(line, request, steps) {
        Ok(done) => Told::Kept(done.revision),
        Err(KeptError::Refused(_)) => Told::Refused,
        Err(KeptError::Memory) => Told::NoMemory,
        Err(KeptError::Disk) => Told::Lost,
    }
}

pub(crate) fn tell<R: Print>(rt: &R, told: Told) -> Result<()> {
    match told {
        Told::Kept(revision) => print!(rt; " {revision}")?,
        Told::Refused => print!(rt; " refused")?,
        Told::NoMemory => print!(rt; " memory")?,
        Told::Lost => print!(rt; " lost")?,
    }
    Ok(())
}

/// What stands in the journal.
pub(crate) fn restart<R: Print + AllocGlobal>(rt: &R, disk: MemDisk) -> Result<()> {
    match Kept::open(rt.alloc(), disk, CONFIG) {
        Ok(kept) => {
            println!(rt; ", then {} requests", kept.repo().revision())?;
            let _disk = kept.close();
        }
        Err(closed) => {
            println!(rt; ", {}", closed.why)?;
        }
    }
    Ok(())
}

/// A disk that fails from this call on.
pub(crate) fn failing<R: Print + AllocGlobal, L: Ledger>(
    rt: &R,
    first: u64,
    steps: &mut Steps<L>,
) -> Result<()> {
    let alloc = rt.alloc();
    let disk = MemDisk::new(alloc, Some(first))?;
    print!(rt; "fails from {first}:")?;
    match Kept::open(alloc, disk, CONFIG) {
        Ok(mut kept) => {
            for line in LINES {
                tell(rt, ask(alloc, &mut kept, line, steps))?;
            }
            restart(rt, kept.close().crash(first % 2 == 1))
        }
        Err(closed) => {
            print!(rt; " {}", closed.why)?;
            restart(rt, closed.disk.crash(first % 2 == 1))
        }
    }
}

/// A disk with an open gate and nothing behind it but a byte.
pub(crate) fn damaged<R: Print + AllocGlobal>(rt: &R) -> Result<()> {
    let mut disk = MemDisk::new(rt.alloc(), None)?;
    match disk.write_at(0, &[1, 0]) {
        Ok(()) => print!(rt; "bytes 1 and 0")?,
        Err(_) => print!(rt; "no bytes")?,
    }
    restart(rt, disk)
}
