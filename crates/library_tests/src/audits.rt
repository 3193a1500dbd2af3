//! In what the three maps of a deny that comes and goes differ.
ghost use Rattle.std.specs.Prelude.{◌≡◌};

use pol_audit::{Difference, Differences, Entries, Numbers, differences, read_table};
use pol_data::{Memory, Steps};
use pol_mapkey::Word;
use pol_ports::{Direction, Proto};
use std::alloc::Global;
use std::marker::Brand;
use std::sync::ledger::{Blank, Ledger};
use std::test::Fail;

/// Before the deny came, and once it has gone: 257 may come in on port 80.
const ALLOWED: &str =
    "ingress 1 every 0/0 allow\ningress 257 TCP 80/16 allow\negress 0 every 0/0 allow\n";

/// In between nothing of 257 may.
const DENIED: &str =
    "ingress 1 every 0/0 allow\ningress 257 every 0/0 deny\negress 0 every 0/0 allow\n";

/// One table in which every number has an entry, 257 another one.
const EVERY: &str = "ingress 0 TCP 80/16 allow\ningress 257 TCP 80/16 deny\n";

fn table(alloc: Global, text: &str) -> Option<Entries> {
    let bytes = text.as_bytes();
    if bytes.len() > 1_000_000 {
        return None;
    }
    read_table(alloc, bytes).ok()
}

fn differences_over<L: Ledger>(
    blank: Blank,
    alloc: Global,
    left: &Entries,
    right: &Entries,
) -> Result<Differences, Memory>
    requires name { blank.name ≡ L.name }
    requires parts { blank.parts ≡ L.parts }
    requires some { blank.parts ≡ 1 }
{
    let mut steps = Steps::<L>::new(blank);
    differences(alloc, left, right, &mut steps)
}

/// The difference of the tables that the texts write.
fn difference(alloc: Global, left: &str, right: &str) -> Option<Differences> {
    let left = table(alloc, left)?;
    let right = table(alloc, right)?;
    differences_over::<Brand>(Blank::new(1), alloc, &left, &right).ok()
}

/// Ports of a number that come in, and what the two tables say of them.
fn range(numbers: Numbers, proto: Proto, ports: (u16, u16), words: (Word, Word)) -> Difference {
    Difference {
        dir: Direction::Ingress,
        numbers,
        proto,
        first: ports.0,
        last: ports.1,
        left: words.0,
        right: words.1,
    }
}

fn are(found: &Option<Differences>, wanted: &[Difference]) -> bool {
    matches!(found, Some(list) if list.as_slice() == wanted)
}

#[test]
fn a_deny_that_comes_and_goes_is_told(rt: HostRuntime) -> Result<(), Fail> {
    let one = Numbers::One(257);
    let unspoken = (Word::DeniedByDefault, Word::DeniedByRule);
    let came = difference(rt.alloc(), ALLOWED, DENIED);
    let wanted = [
        range(one, Proto::Tcp, (0, 79), unspoken),
        range(
            one,
            Proto::Tcp,
            (80, 80),
            (Word::Allowed, Word::DeniedByRule),
        ),
        range(one, Proto::Tcp, (81, 65535), unspoken),
        range(one, Proto::Udp, (0, 65535), unspoken),
        range(one, Proto::Sctp, (0, 65535), unspoken),
    ];
    assert!(rt; are(&came, &wanted));
    assert!(rt; are(&difference(rt.alloc(), ALLOWED, ALLOWED), &[]));
    Ok(())
}

#[test]
fn a_deny_that_goes_is_told(rt: HostRuntime) -> Result<(), Fail> {
    let one = Numbers::One(257);
    let unspoken = (Word::DeniedByRule, Word::DeniedByDefault);
    let went = difference(rt.alloc(), DENIED, ALLOWED);
    let wanted = [
        range(one, Proto::Tcp, (0, 79), unspoken),
        range(
            one,
            Proto::Tcp,
            (80, 80),
            (Word::DeniedByRule, Word::Allowed),
        ),
        range(one, Proto::Tcp, (81, 65535), unspoken),
        range(one, Proto::Udp, (0, 65535), unspoken),
        range(one, Proto::Sctp, (0, 65535), unspoken),
    ];
    assert!(rt; are(&went, &wanted));
    Ok(())
}

#[test]
fn every_other_number_is_one_range(rt: HostRuntime) -> Result<(), Fail> {
    let came = difference(rt.alloc(), "", EVERY);
    let wanted = [
        range(
            Numbers::EveryOther,
            Proto::Tcp,
            (80, 80),
            (Word::DeniedByDefault, Word::Allowed),
        ),
        range(
            Numbers::One(257),
            Proto::Tcp,
            (80, 80),
            (Word::DeniedByDefault, Word::DeniedByRule),
        ),
    ];
    assert!(rt; are(&came, &wanted));
    Ok(())
}
