//! The first fault of a NetworkPolicy.
ghost use Rattle.std.specs.Prelude.{◌≡◌, IfOk, IfErr};
ghost use Rattle.pol_sanitize.specs.Answers.{Finds};
ghost use Rattle.pol_sanitize.specs.Faults.{first_cause};
ghost use Rattle.pol_netpol.specs.Faults.{entry_causes, entry_fault, fault_at, first_fault, section_fault, subject_causes, subject_fault};
ghost use Rattle.pol_sanitize.specs.declared.fault.SanitizeError.TheVariants.{Fault as Refused};

use crate::check::{
    ask_badly, except_outside, has_bad_selector, has_bad_type, have_bad_cidr, have_bad_end,
    have_bad_peer, have_bad_port, have_bad_protocol,
};
use crate::raw::{RawNetEntry, RawNetworkPolicy};
use pol_rule::{RuleCause, RuleFault, Section};
use pol_sanitize::SanitizeError;

/// The fault of this cause. A NetworkPolicy is one rule.
fn fault_at(at: Option<(Section, u32)>, cause: RuleCause) -> SanitizeError
    ensures { result ≡ Refused (fault_at at cause) }
{
    SanitizeError::Fault(RuleFault {
        number: cause.number(),
        rule: 0,
        at,
    })
}

/// A place in a list. A list of 2^32 items is one for which there is no memory.
fn place(index: usize) -> Result<u32, SanitizeError>
    ensures place { IfOk result (λ place. place ≡ index) }
    ensures memory { IfErr result (λ error. error ≡ SanitizeError.Memory) }
{
    match u32::try_from(index) {
        Ok(place) => Ok(place),
        Err(_) => Err(SanitizeError::Memory),
    }
}

/// The first cause of the subject and the policy types that holds.
fn subject_cause(raw: &RawNetworkPolicy) -> Option<RuleCause>
    ensures { result ≡ first_cause (subject_causes raw.now) }
{
    if raw.subject.is_none() {
        Some(RuleCause::NoSelector)
    } else if has_bad_selector(&raw.subject) {
        Some(RuleCause::BadSelector)
    } else if has_bad_type(raw.types.as_slice()) {
        Some(RuleCause::BadPolicyType)
    } else {
        None
    }
}

/// The first cause of an entry that holds.
fn entry_cause(entry: &RawNetEntry) -> Option<RuleCause>
    ensures { result ≡ first_cause (entry_causes entry.now) }
{
    let peers = entry.peers.as_slice();
    let ports = entry.ports.as_slice();
    if ask_badly(peers) {
        Some(RuleCause::BadSelector)
    } else if have_bad_cidr(peers) {
        Some(RuleCause::BadCidr)
    } else if except_outside(peers) {
        Some(RuleCause::ExceptOutside)
    } else if have_bad_port(ports) {
        Some(RuleCause::BadPort)
    } else if have_bad_protocol(ports) {
        Some(RuleCause::BadProtocol)
    } else if have_bad_peer(peers) {
        Some(RuleCause::BadPeer)
    } else if have_bad_end(ports) {
        Some(RuleCause::BadEndPort)
    } else {
        None
    }
}

fn check_subject(raw: &RawNetworkPolicy) -> Result<(), SanitizeError>
    ensures { Finds (subject_fault raw.now) result }
{
    match subject_cause(raw) {
        None => Ok(()),
        Some(cause) => Err(fault_at(None, cause)),
    }
}

fn check_entry(section: Section, index: usize, entry: &RawNetEntry) -> Result<(), SanitizeError>
    ensures { Finds (entry_fault section index entry.now) result }
{
    match entry_cause(entry) {
        None => Ok(()),
        Some(cause) => Err(fault_at(Some((section, place(index)?)), cause)),
    }
}

fn check_section(section: Section, entries: &[RawNetEntry]) -> Result<(), SanitizeError>
    ensures { Finds (section_fault section entries.now) result }
{
    for (index, entry) in entries.iter().enumerate() {
        check_entry(section, index, entry)?;
    }
    Ok(())
}

/// Whether the object is accepted, or its first fault.
pub(crate) fn check(raw: &RawNetworkPolicy) -> Result<(), SanitizeError>
    ensures { Finds (first_fault raw.now) result }
{
    check_subject(raw)?;
    check_section(Section::Ingress, raw.ingress.as_slice())?;
    check_section(Section::Egress, raw.egress.as_slice())
}
