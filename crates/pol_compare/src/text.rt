//! The line that tells what is found.
#![tactic(auto, using(std::proofs::Common::append_assoc))]

ghost use Rattle.std.specs.Prelude.{◌≡◌, ◌++◌, codes, IfOk, OnOk};
ghost use Rattle.std.specs.String.{string_bytes};
ghost use Rattle.pol_audit.specs.Text.{direction_word, proto_word};
ghost use Rattle.pol_mapkey.specs.KeyProto.{key_proto};
ghost use Rattle.pol_compare.specs.Text.{finding_text, finding_words, packet_text, word_text};

use crate::finding::Finding;
use pol_audit::{Audit, Packet};
use pol_data::Memory;
use pol_mapkey::Word;
use pol_ports::{Direction, Proto};
use std::alloc::Global;

/// The word of a direction.
fn direction_word(dir: Direction) -> &'static str
    ensures { result.now ≡ direction_word dir }
{
    match dir {
        Direction::Ingress => "ingress",
        Direction::Egress => "egress",
    }
}

/// The word of a protocol.
fn proto_word(proto: Proto) -> &'static str
    ensures { result.now ≡ proto_word (key_proto proto) }
{
    match proto {
        Proto::Tcp => "TCP",
        Proto::Udp => "UDP",
        Proto::Sctp => "SCTP",
    }
}

/// A verdict, in words.
fn word_text(word: Word) -> &'static str
    ensures { result.now ≡ word_text word }
{
    match word {
        Word::Allowed => "allowed",
        Word::DeniedByRule => "denied-by-rule",
        Word::DeniedByDefault => "denied-by-default",
    }
}

/// Appends the packet on which two tables differ, with the word of each.
fn push_packet(out: &mut String, packet: &Packet) -> Result<(), Memory>
    ensures { OnOk result (string_bytes out.new ≡ string_bytes out.old ++ packet_text packet.now) }
{
    let dir = direction_word(packet.dir);
    let id = packet.id;
    let proto = proto_word(packet.proto);
    let port = packet.port;
    let left = word_text(packet.left);
    let right = word_text(packet.right);
    write!(out, "{dir} {id} {proto} {port} {left} {right}")
}

/// Appends what is found, in words.
fn push_finding(out: &mut String, finding: &Finding) -> Result<(), Memory>
    ensures { OnOk result (string_bytes out.new ≡ string_bytes out.old ++ finding_words finding.now) }
{
    match finding {
        Finding::BadTable(line) => write!(out, "refused 60 bad-table {line}"),
        Finding::NoDivider => out.push_str("refused 61 no-divider"),
        Finding::Compared(Audit::Same) => out.push_str("same"),
        Finding::Compared(Audit::Differs(packet)) => {
            out.push_str("differs ")?;
            push_packet(out, packet)
        }
    }
}

fn push_newline(out: &mut String) -> Result<(), Memory>
    ensures { OnOk result (string_bytes out.new ≡ string_bytes out.old ++ codes "\n") }
{
    out.push('\n')
}

/// The line that tells what is found, with its newline byte ('profile'). The one error is want of memory.
pub fn finding_text(alloc: Global, finding: &Finding) -> Result<Vec<u8>, Memory>
    ensures { IfOk result (λ text. text.items ≡ finding_text finding.now) }
{
    let mut out = String::new(alloc);
    push_finding(&mut out, finding)?;
    push_newline(&mut out)?;
    Ok(out.into_bytes())
}
