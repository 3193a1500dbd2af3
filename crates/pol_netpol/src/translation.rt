//! The policy that a NetworkPolicy is translated to.
ghost use Rattle.std.specs.Prelude.{◌≡◌, map, Ok, IfOk, IfErr};
ghost use Rattle.std.specs.List.{list_any};
ghost use Rattle.std.specs.Str.{bytes_eq};
ghost use Rattle.pol_sanitize.specs.Answers.{Refuses};
ghost use Rattle.pol_netpol.specs.Meaning.{default_type, entries_of, isolates, type_text};
ghost use Rattle.pol_netpol.specs.Translated.{default_deny_of, entry_of, policy_of, rule_of, section_of, translated_of};

use crate::first_fault::check;
use crate::peers::peers_of;
use crate::ports::ports_of;
use crate::raw::{RawNetEntry, RawNetworkPolicy};
use crate::selectors::{own_pods, well_formed};
use pol_data::{Items, Memory, Text};
use pol_ports::Direction;
use pol_rule::{DefaultDeny, Entries, Entry, Policy, Rule};
use pol_sanitize::SanitizeError;
use std::alloc::Global;

// ---- directions

fn type_text(dir: Direction) -> &'static str
    ensures { result.now ≡ type_text dir }
{
    match dir {
        Direction::Ingress => "Ingress",
        Direction::Egress => "Egress",
    }
}

fn entries_of(dir: Direction, raw: &RawNetworkPolicy) -> &[RawNetEntry]
    ensures { result.now ≡ entries_of dir raw.now }
{
    match dir {
        Direction::Ingress => raw.ingress.as_slice(),
        Direction::Egress => raw.egress.as_slice(),
    }
}

fn default_type(dir: Direction, raw: &RawNetworkPolicy) -> bool
    ensures { result ≡ default_type dir raw.now }
{
    match dir {
        Direction::Ingress => true,
        Direction::Egress => raw.egress.len() > 0,
    }
}

fn names_type(types: &[Text], wanted: &str) -> bool
    ensures { result ≡ list_any (bytes_eq wanted.now) types.now }
{
    types.iter().any(|text| wanted == text.as_str())
}

/// Whether the object isolates in the direction those that it selects.
fn isolates(raw: &RawNetworkPolicy, dir: Direction) -> bool
    ensures { result ≡ isolates raw.now dir }
{
    match raw.types.as_slice() {
        [] => default_type(dir, raw),
        types => names_type(types, type_text(dir)),
    }
}

// ---- entries

fn entry_of(alloc: Global, own: &Text, entry: &RawNetEntry) -> Result<Entry, Memory>
    ensures { IfOk result (λ made. made ≡ entry_of own.now entry.now) }
{
    let peers = entry.peers.as_slice();
    Ok(Entry {
        peers: peers_of(alloc, own, peers)?,
        ports: ports_of(alloc, peers, entry.ports.as_slice())?,
    })
}

fn each_entry(alloc: Global, own: &Text, entries: &[RawNetEntry]) -> Result<Entries, Memory>
    ensures { IfOk result (λ made. made ≡ map (entry_of own.now) entries.now) }
{
    let mut made = Vec::with_capacity(alloc, entries.len())?;
    for entry in entries {
        made.push(entry_of(alloc, own, entry)?)?;
    }
    Ok(Items::from_vec(made))
}

/// The entries of a direction, none where the object doesn't isolate in it.
fn section_of(alloc: Global, raw: &RawNetworkPolicy, dir: Direction) -> Result<Entries, Memory>
    ensures { IfOk result (λ entries. entries ≡ section_of raw.now dir) }
{
    if isolates(raw, dir) {
        each_entry(alloc, &raw.key.namespace, entries_of(dir, raw))
    } else {
        Ok(Items::empty(alloc))
    }
}

// ---- the rule and the policy

/// The rule says of each direction whether the object isolates there.
fn default_deny_of(raw: &RawNetworkPolicy) -> DefaultDeny
    ensures { result ≡ default_deny_of raw.now }
{
    DefaultDeny {
        ingress: Some(isolates(raw, Direction::Ingress)),
        egress: Some(isolates(raw, Direction::Egress)),
    }
}

fn rule_of(alloc: Global, raw: &RawNetworkPolicy) -> Result<Option<Rule>, Memory>
    ensures { IfOk result (λ rule. rule ≡ rule_of raw.now) }
{
    let Some(selector) = &raw.subject else {
        return Ok(None);
    };
    let asked = own_pods(alloc, &raw.key.namespace, selector)?;
    let Some(subject) = well_formed(alloc, asked)? else {
        return Ok(None);
    };
    Ok(Some(Rule {
        subject,
        ingress: section_of(alloc, raw, Direction::Ingress)?,
        ingress_deny: Items::empty(alloc),
        egress: section_of(alloc, raw, Direction::Egress)?,
        egress_deny: Items::empty(alloc),
        default_deny: default_deny_of(raw),
    }))
}

fn policy_of(alloc: Global, raw: &RawNetworkPolicy) -> Result<Policy, Memory>
    ensures { IfOk result (λ policy. policy ≡ policy_of raw.now) }
{
    let rules = match rule_of(alloc, raw)? {
        None => Items::empty(alloc),
        Some(rule) => Items::one(alloc, rule)?,
    };
    Ok(Policy {
        key: raw.key.copy(alloc)?,
        rules,
    })
}

/// The policy of a NetworkPolicy (Cilium, Network Policy, "Kubernetes NetworkPolicy"), or its first fault.
///
/// The policy has the object's key and one rule, which means the same as the object
/// (`laws::keeps_its_meaning`). `Fault` comes exactly where the object has one of the faults 15, 17 to
/// 19, 21, 22 and 26 to 28, with the first of them: the subject with the policy types, then the entries
/// of ingress, then those of egress, and at each place by the number ('profile'). `Memory` is want of
/// memory, which a list of 2^32 entries is taken for.
pub fn translate(alloc: Global, raw: &RawNetworkPolicy) -> Result<Policy, SanitizeError>
    ensures accepted { IfOk result (λ policy. translated_of raw.now ≡ Ok policy) }
    ensures refused { IfErr result (Refuses (translated_of raw.now)) }
{
    check(raw)?;
    Ok(policy_of(alloc, raw)?)
}
