//! What commits nothing: a take, a sync, and why a packet is allowed.

use crate::drill::{CONFIG, ask, restart, tell};
use anyhow::Result;
use pol_data::{Steps, Text};
use pol_disk::MemDisk;
use pol_kept::Kept;
use pol_machine::{Asked, Event, Reply, SerialAnswer};
use pol_model::{Query, Remote};
use pol_ports::{Direction, Proto};
use std::sync::ledger::Ledger;

const ENDPOINT: &[u8] =
    b"{\"op\":\"endpoint\",\"name\":\"web\",\"labels\":[\"k8s:app=web\"],\"address\":\"10.0.0.1\"}";

/// A take of the first slot.
fn take<R: Print, L: Ledger>(rt: &R, kept: &mut Kept<MemDisk>, steps: &mut Steps<L>) -> Result<()> {
    if kept.lost() {
        return Ok(());
    }
    match kept.other(Event::Take(0), steps) {
        Ok(Reply::Took(revision)) => print!(rt; ", took at {revision}")?,
        Ok(_) => print!(rt; ", not taken")?,
        Err(_) => print!(rt; ", memory")?,
    }
    Ok(())
}

fn sync<R: Print, L: Ledger>(rt: &R, kept: &mut Kept<MemDisk>, steps: &mut Steps<L>) -> Result<()> {
    if kept.lost() {
        return Ok(());
    }
    match kept.answer(Asked::Sync, steps) {
        Ok(SerialAnswer::Synced { revision, full: _ }) => print!(rt; ", synced {revision}")?,
        Ok(_) => print!(rt; ", another answer")?,
        Err(_) => print!(rt; ", memory")?,
    }
    Ok(())
}

fn trace<R: Print + AllocGlobal>(rt: &R, kept: &Kept<MemDisk>) -> Result<()> {
    let query = Query {
        endpoint: Text::from_str(rt.alloc(), "web")?,
        dir: Direction::Ingress,
        remote: Remote::Identity(2),
        proto: Proto::Tcp,
        port: 80,
    };
    match kept.trace(rt.alloc(), &query) {
        Ok(trace) => print!(rt; ", traced for {}", trace.remote)?,
        Err(why) => print!(rt; ", {why}")?,
    }
    Ok(())
}

/// One endpoint, asked about, and its journal opened again.
pub(crate) fn show<R: Print + AllocGlobal, L: Ledger>(rt: &R, steps: &mut Steps<L>) -> Result<()> {
    let alloc = rt.alloc();
    let disk = MemDisk::new(alloc, None)?;
    print!(rt; "fails never:")?;
    match Kept::open(alloc, disk, CONFIG) {
        Ok(mut kept) => {
            tell(rt, ask(alloc, &mut kept, ENDPOINT, steps))?;
            take(rt, &mut kept, steps)?;
            sync(rt, &mut kept, steps)?;
            trace(rt, &kept)?;
            restart(rt, kept.close().crash(false))
        }
        Err(closed) => restart(rt, closed.disk),
    }
}
