//! What no clause says: that memory is there, and so that a call that fails has its own status. A whole run is the
//! program's stored one.
use super::play::play_connections;
use super::status::RunEnd;
use pol_streams::{MemSink, MemSource};
use std::alloc::Global;
use std::test::Fail;

// Two scripts, each with a name that the other lacks.
const INPUT: &[u8] = b"{\"op\":\"identity\",\"name\":\"x\",\"labels\":[\"k8s:x=1\"]}\n\
--\n\
{\"op\":\"identity\",\"name\":\"y\",\"labels\":[\"k8s:y=1\"]}\n\
";

const OUTPUT: &[u8] = b"{\"side\":\"before\",\"end\":{\"identity\":\"x\"}}\n\
{\"side\":\"after\",\"end\":{\"identity\":\"y\"}}\n\
";

// How many reads the input takes in pieces of 20 bytes, with the one that finds the end.
const READS: u64 = 7;

// How many writes the output takes in pieces of 10 bytes.
const WRITES: u64 = 9;

fn input(alloc: Global, fails: Vec<u64>) -> Result<MemSource, Fail> {
    Ok(MemSource::new(INPUT.to_vec(alloc)?, 20, fails))
}

#[test]
fn each_read_that_fails_ends_the_run(rt: HostRuntime) -> Result<(), Fail> {
    let alloc = rt.alloc();
    for read in 1..=READS {
        let mut source = input(alloc, vec![in alloc; read]?)?;
        let mut sink = MemSink::new(alloc, 1000, 10, Vec::new(alloc))?;
        assert_eq!(rt;
            play_connections(alloc, &[], &mut source, &mut sink),
            RunEnd::Read
        );
        assert_eq!(rt; sink.calls(), 0);
    }
    Ok(())
}

#[test]
fn each_write_that_fails_leaves_a_prefix(rt: HostRuntime) -> Result<(), Fail> {
    let alloc = rt.alloc();
    for write in 1..=WRITES {
        let mut source = input(alloc, Vec::new(alloc))?;
        let mut sink = MemSink::new(alloc, 1000, 10, vec![in alloc; write]?)?;
        assert_eq!(rt;
            play_connections(alloc, &[], &mut source, &mut sink),
            RunEnd::Write
        );
        assert!(rt; OUTPUT.starts_with(sink.written()));
        assert_eq!(rt; sink.written().len() as u64, (write - 1) * 10);
    }
    Ok(())
}
