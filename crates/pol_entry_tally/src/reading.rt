//! What the map says of a key, by the counts of its group.
ghost use Rattle.std.specs.Prelude.{◌≡◌, ◌||◌, IsTrue};
ghost use Rattle.pol_ports.specs.PortPrefix.{prefix_at};
ghost use Rattle.pol_mapkey.specs.MapKey.{every_key, port_key};
ghost use Rattle.pol_mapkey.specs.declared.Kind.TheVariants.{Deny as deny};
ghost use Rattle.pol_mapkey.specs.declared.MapKey.{MapKey as OneKey};
ghost use Rattle.pol_entry_tally.specs.Counts.{Ascend, held};
ghost use Rattle.pol_entry_tally.specs.Times.{any_below, is_given, is_under, kind_by, kind_of};

use crate::counts::{Count, times_at};
use crate::keys::{every_key, packets_of, port_key, prefix_at};
use crate::numbers::{ALLOWS, place_of};
use pol_mapkey::{Kind, MapKey};
use pol_ports::Proto;

/// Whether the key is given the kind.
fn is_given(counts: &[Count], kind: Kind, key: &MapKey) -> bool
    requires { Ascend counts.now }
    ensures { result ≡ is_given (held counts.now) kind key.now }
{
    0 < times_at(counts, place_of(key, kind))
}

/// Whether the first of the counts, and so each, is no deny's.
pub(crate) fn denies_nothing(counts: &[Count]) -> bool
    requires { Ascend counts.now }
    ensures { IsTrue result → (q : OneKey) → held counts.now q deny ≡ 0 }
{
    match counts.first() {
        None => true,
        Some(count) => ALLOWS <= count.place,
    }
}

/// Whether one of the two is so.
fn either(one: bool, other: bool) -> bool
    ensures { result ≡ (one || other) }
{
    one || other
}

/// Whether a key of the protocol with fewer bits of the port is denied.
fn is_under_ports(counts: &[Count], key: &MapKey, proto: Proto) -> bool
    requires { Ascend counts.now }
    ensures { result ≡ any_below (λ len. is_given (held counts.now) deny
        (port_key key.now.dir key.now.id proto (prefix_at key.now.port.bits len))) key.now.port.len }
{
    let mut under = false;
    for len in 0..key.port.len {
        let wide = port_key(key.dir, key.id, proto, prefix_at(key.port.bits, len));
        under = either(is_given(counts, Kind::Deny, &wide), under);
    }
    under
}

/// Whether a key of the protocol with fewer bits of the port is denied, or the key of every protocol, which is looked for
/// first.
fn is_under_one(counts: &[Count], key: &MapKey, proto: Proto) -> bool
    requires { Ascend counts.now }
    ensures { result ≡ (any_below (λ len. is_given (held counts.now) deny
        (port_key key.now.dir key.now.id proto (prefix_at key.now.port.bits len))) key.now.port.len
        || is_given (held counts.now) deny (every_key key.now.dir key.now.id)) }
{
    if is_given(counts, Kind::Deny, &every_key(key.dir, key.id)) {
        true
    } else {
        is_under_ports(counts, key, proto)
    }
}

/// Whether the key lies strictly under a deny. Where nothing is denied nothing is looked for.
fn is_under(counts: &[Count], key: &MapKey) -> bool
    requires { Ascend counts.now }
    ensures { result ≡ is_under (held counts.now) key.now }
{
    if denies_nothing(counts) {
        return false;
    }
    match packets_of(key.proto) {
        None => false,
        Some(proto) => is_under_one(counts, key, proto),
    }
}

/// What a map says of a key: nothing under a deny, and else a deny before an allow.
fn kind_by(under: bool, denied: bool, allowed: bool) -> Option<Kind>
    ensures { result ≡ kind_by under denied allowed }
{
    if under {
        None
    } else if denied {
        Some(Kind::Deny)
    } else if allowed {
        Some(Kind::Allow)
    } else {
        None
    }
}

/// What the map says of a key whose group has these counts.
pub(crate) fn kind_in(counts: &[Count], key: &MapKey) -> Option<Kind>
    requires { Ascend counts.now }
    ensures { result ≡ kind_of (held counts.now) key.now }
{
    kind_by(
        is_under(counts, key),
        is_given(counts, Kind::Deny, key),
        is_given(counts, Kind::Allow, key),
    )
}
