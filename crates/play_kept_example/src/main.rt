//! Scripts that are played over a disk, one after another: the second finds what the first was told is accepted. What it prints is
//! stored, and each gate compares it.
#![tactic(auto)]

use anyhow::Result;
use pol_disk::{Disk, MemDisk};
use pol_play_kept::play_kept;
use pol_streams::{MemSink, MemSource};
use std::alloc::Global;

const FIRST: &[u8] =
    b"{\"op\":\"endpoint\",\"name\":\"deathstar\",\"labels\":[\"k8s:class=deathstar\",\"k8s:org=empire\",\"k8s:io.kubernetes.pod.namespace=default\"],\"address\":\"10.0.0.1\"}\n\
{\"op\":\"endpoint\",\"name\":\"tiefighter\",\"labels\":[\"k8s:class=tiefighter\",\"k8s:org=empire\",\"k8s:io.kubernetes.pod.namespace=default\"],\"address\":\"10.0.0.2\"}\n\
{\"op\":\"endpoint\",\"name\":\"xwing\",\"labels\":[\"k8s:class=xwing\",\"k8s:org=alliance\",\"k8s:io.kubernetes.pod.namespace=default\"],\"address\":\"10.0.0.3\"}\n\
{\"op\":\"apply\",\"policy\":{\"apiVersion\":\"cilium.io/v2\",\"kind\":\"CiliumNetworkPolicy\",\"metadata\":{\"name\":\"rule1\"},\"spec\":{\"description\":\"L3-L4 policy\",\"endpointSelector\":{\"matchLabels\":{\"org\":\"empire\",\"class\":\"deathstar\"}},\"ingress\":[{\"fromEndpoints\":[{\"matchLabels\":{\"org\":\"empire\"}}],\"toPorts\":[{\"ports\":[{\"port\":\"80\",\"protocol\":\"TCP\"}]}]}]}}}\n\
";

const LATER: &[u8] =
    b"{\"op\":\"verdict\",\"endpoint\":\"deathstar\",\"direction\":\"ingress\",\"address\":\"10.0.0.2\",\"protocol\":\"TCP\",\"port\":80}\n\
{\"op\":\"sync\"}\n\
{\"op\":\"verdict\",\"endpoint\":\"deathstar\",\"direction\":\"ingress\",\"address\":\"10.0.0.2\",\"protocol\":\"TCP\",\"port\":80}\n\
{\"op\":\"trace\",\"endpoint\":\"deathstar\",\"direction\":\"ingress\",\"address\":\"10.0.0.2\",\"protocol\":\"TCP\",\"port\":80}\n\
";

/// The words, where there is one.
fn words_of(alloc: Global, word: &str) -> Result<Vec<String>> {
    let mut words = Vec::new(alloc);
    if !word.is_empty() {
        words.push(String::from_str(alloc, word)?)?;
    }
    Ok(words)
}

/// Plays a script over the disk, and prints its answers and its status.
fn show<R: Print + AllocGlobal, D: Disk>(
    rt: &R,
    name: &str,
    word: &str,
    script: &[u8],
    disk: &mut D,
) -> Result<()> {
    let alloc = rt.alloc();
    let words = words_of(alloc, word)?;
    let mut source = MemSource::new(script.to_vec(alloc)?, 100, Vec::new(alloc));
    let mut sink = MemSink::new(alloc, 4096, 100, Vec::new(alloc))?;
    let status = play_kept(alloc, words.as_slice(), &mut source, &mut sink, disk);
    println!(rt; "{name}: {status:?}")?;
    print!(rt; "{}", std::str::from_utf8(sink.written())?)?;
    Ok(())
}

fn main(rt: HostRuntime) -> Result<()> {
    let mut disk = MemDisk::new(rt.alloc(), None)?;
    show(&rt, "requests", "", FIRST, &mut disk)?;
    show(&rt, "the same disk", "", LATER, &mut disk)?;
    show(&rt, "the same requests", "", FIRST, &mut disk)?;
    show(&rt, "another word", "--audit", LATER, &mut disk)?;
    let mut failing = MemDisk::new(rt.alloc(), Some(9))?;
    show(
        &rt,
        "a disk that fails from call 9 on",
        "",
        FIRST,
        &mut failing,
    )?;
    let mut damaged = MemDisk::new(rt.alloc(), None)?;
    if damaged.write_at(0, &[1, 0]).is_ok() {
        show(&rt, "a damaged disk", "", LATER, &mut damaged)?;
    }
    Ok(())
}
