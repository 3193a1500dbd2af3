//! What no clause says: that memory is there, and so that a call that fails has its own status. A whole run is the
//! program's stored one.
use super::play::play;
use super::status::Status;
use pol_streams::{MemSink, MemSource};
use std::alloc::Global;
use std::test::Fail;

// The demo of Cilium's documentation: one endpoint is reached from its own organisation alone, and on one port.
pub const SCRIPT: &[u8] =
    b"{\"op\":\"endpoint\",\"name\":\"deathstar\",\"labels\":[\"k8s:class=deathstar\",\"k8s:org=empire\",\"k8s:io.kubernetes.pod.namespace=default\"],\"address\":\"10.0.0.1\"}\n\
{\"op\":\"endpoint\",\"name\":\"tiefighter\",\"labels\":[\"k8s:class=tiefighter\",\"k8s:org=empire\",\"k8s:io.kubernetes.pod.namespace=default\"],\"address\":\"10.0.0.2\"}\n\
{\"op\":\"endpoint\",\"name\":\"xwing\",\"labels\":[\"k8s:class=xwing\",\"k8s:org=alliance\",\"k8s:io.kubernetes.pod.namespace=default\"],\"address\":\"10.0.0.3\"}\n\
{\"op\":\"apply\",\"policy\":{\"apiVersion\":\"cilium.io/v2\",\"kind\":\"CiliumNetworkPolicy\",\"metadata\":{\"name\":\"rule1\"},\"spec\":{\"description\":\"L3-L4 policy\",\"endpointSelector\":{\"matchLabels\":{\"org\":\"empire\",\"class\":\"deathstar\"}},\"ingress\":[{\"fromEndpoints\":[{\"matchLabels\":{\"org\":\"empire\"}}],\"toPorts\":[{\"ports\":[{\"port\":\"80\",\"protocol\":\"TCP\"}]}]}]}}}\n\
{\"op\":\"sync\"}\n\
{\"op\":\"verdict\",\"endpoint\":\"deathstar\",\"direction\":\"ingress\",\"address\":\"10.0.0.2\",\"protocol\":\"TCP\",\"port\":80}\n\
{\"op\":\"verdict\",\"endpoint\":\"deathstar\",\"direction\":\"ingress\",\"address\":\"10.0.0.3\",\"protocol\":\"TCP\",\"port\":80}\n\
{\"op\":\"verdict\",\"endpoint\":\"deathstar\",\"direction\":\"ingress\",\"address\":\"10.0.0.2\",\"protocol\":\"TCP\",\"port\":443}\n\
";

pub const ANSWERS: &[u8] = b"ok 1 identity 256\n\
ok 2 identity 257\n\
ok 3 identity 258\n\
ok 4\n\
synced 4\n\
allowed at 4\n\
denied-by-default at 4\n\
denied-by-default at 4\n\
";

// How many reads the script takes in pieces of 100 bytes, with the one that finds the end.
const READS: u64 = 13;

// How many writes the answers take in pieces of 10 bytes.
const WRITES: u64 = 13;

fn script(alloc: Global, fails: Vec<u64>) -> Result<MemSource, Fail> {
    Ok(MemSource::new(SCRIPT.to_vec(alloc)?, 100, fails))
}

#[test]
fn each_read_that_fails_ends_the_run(rt: HostRuntime) -> Result<(), Fail> {
    let alloc = rt.alloc();
    for read in 1..=READS {
        let mut source = script(alloc, vec![in alloc; read]?)?;
        let mut sink = MemSink::new(alloc, 1000, 10, Vec::new(alloc))?;
        assert_eq!(rt;
            play(&rt, alloc, &[], &mut source, &mut sink).status,
            Status::Read
        );
        assert_eq!(rt; sink.calls(), 0);
    }
    Ok(())
}

#[test]
fn each_write_that_fails_leaves_a_prefix(rt: HostRuntime) -> Result<(), Fail> {
    let alloc = rt.alloc();
    for write in 1..=WRITES {
        let mut source = script(alloc, Vec::new(alloc))?;
        let mut sink = MemSink::new(alloc, 1000, 10, vec![in alloc; write]?)?;
        assert_eq!(rt;
            play(&rt, alloc, &[], &mut source, &mut sink).status,
            Status::Write
        );
        assert!(rt; ANSWERS.starts_with(sink.written()));
        assert_eq!(rt; sink.written().len() as u64, (write - 1) * 10);
    }
    Ok(())
}
