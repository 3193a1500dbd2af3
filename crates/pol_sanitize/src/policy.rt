//! Policies, rule by rule and entry by entry.
ghost use Rattle.std.specs.Prelude.{◌≡◌, Ok, Some, option_map, filter_map, IfOk, IfErr};
ghost use Rattle.pol_sanitize.specs.Answers.{Finds, Refuses};
ghost use Rattle.pol_sanitize.specs.Faults.{entry_causes, first_cause, first_of, located, of_entry, of_subject, rule_fault, section_fault, subject_causes};
ghost use Rattle.pol_sanitize.specs.Sanitized.{entry_of, rule_of, sanitized_of, section_of};
ghost use Rattle.pol_sanitize.specs.Selectors.{subject_selector};

use crate::SanitizeError;
use crate::fault::Location;
use crate::peers::{combines_kinds, peers_of};
use crate::ports::ports_of;
use crate::selectors::subject_selector;
use pol_data::Items;
use pol_labels::Selector;
use pol_rule::{
    Entries, Entry, Policy, PolicyKey, RawEntries, RawEntry, RawPolicy, RawRule, RawSelector, Rule,
    RuleCause, Rules, Section,
};
use std::alloc::Global;

/// A place in a list. A list of 2^32 items is one for which there is no memory.
fn place(index: usize) -> Result<u32, SanitizeError>
    ensures place { IfOk result (λ place. place ≡ index) }
    ensures memory { IfErr result (λ error. error ≡ SanitizeError.Memory) }
{
    match u32::try_from(index) {
        Ok(place) => Ok(place),
        Err(_) => Err(SanitizeError::Memory),
    }
}

/// What an entry says.
fn entry_of(
    alloc: Global,
    key: &PolicyKey,
    location: Location,
    entry: &RawEntry,
) -> Result<Entry, SanitizeError>
    ensures fault { Finds (located location (first_cause (entry_causes entry.now))) result }
    ensures entry { IfOk result (λ said. said ≡ entry_of key.now entry.now) }
{
    if combines_kinds(entry) {
        return Err(location.fault(RuleCause::Combining));
    }
    let peers = peers_of(alloc, key, location, entry)?;
    let ports = ports_of(alloc, location, entry.ports.as_slice())?;
    Ok(Entry { peers, ports })
}

/// What a section says, entry by entry.
fn section_of(
    alloc: Global,
    key: &PolicyKey,
    rule: u32,
    section: Section,
    entries: &RawEntries,
) -> Result<Entries, SanitizeError>
    ensures fault { Finds (section_fault rule section entries.now) result }
    ensures entries { IfOk result (λ said. said ≡ section_of key.now entries.now) }
{
    let mut said = Vec::new(alloc);
    for (index, entry) in entries.as_slice().iter().enumerate() {
        let location = Location {
            rule,
            at: Some((section, place(index)?)),
        };
        said.push(entry_of(alloc, key, location, entry)?)?;
    }
    Ok(Items::from_vec(said))
}

/// The endpoints that a rule selects.
fn subject_of(
    alloc: Global,
    key: &PolicyKey,
    rule: u32,
    subject: &Option<RawSelector>,
) -> Result<Selector, SanitizeError>
    ensures fault { Finds (located (of_subject rule) (first_cause (subject_causes subject.now))) result }
    ensures subject { IfOk result (λ selector. Some selector ≡ option_map (subject_selector key.now) subject.now) }
{
    let location = Location { rule, at: None };
    match subject {
        Some(selector) => subject_selector(alloc, key, location, selector),
        None => Err(location.fault(RuleCause::NoSelector)),
    }
}

/// What a rule says: its subject, then section by section.
fn rule_of(alloc: Global, key: &PolicyKey, rule: u32, raw: &RawRule) -> Result<Rule, SanitizeError>
    ensures fault { Finds (rule_fault rule raw.now) result }
    ensures rule { IfOk result (λ said. Some said ≡ rule_of key.now raw.now) }
{
    Ok(Rule {
        subject: subject_of(alloc, key, rule, &raw.subject)?,
        ingress: section_of(alloc, key, rule, Section::Ingress, &raw.ingress)?,
        ingress_deny: section_of(alloc, key, rule, Section::IngressDeny, &raw.ingress_deny)?,
        egress: section_of(alloc, key, rule, Section::Egress, &raw.egress)?,
        egress_deny: section_of(alloc, key, rule, Section::EgressDeny, &raw.egress_deny)?,
        default_deny: raw.default_deny,
    })
}

/// What the rules say.
fn rules_of(alloc: Global, key: &PolicyKey, rules: &[RawRule]) -> Result<Rules, SanitizeError>
    ensures fault { Finds (first_of rule_fault rules.now) result }
    ensures rules { IfOk result (λ said. said ≡ filter_map (rule_of key.now) rules.now) }
{
    let mut said = Vec::new(alloc);
    for (index, rule) in rules.iter().enumerate() {
        said.push(rule_of(alloc, key, place(index)?, rule)?)?;
    }
    Ok(Items::from_vec(said))
}

/// What a policy says (Cilium, Network Policy, "Rule Basics" and "Deny Policies"), or its first fault.
///
/// `Fault` comes exactly where a part of the policy has one of the faults 15 to 24, which `RuleCause`
/// names. The first comes: by rule, then the subject before the sections in the order ingress,
/// ingressDeny, egress, egressDeny, then the entry, then the number ('profile'). `Memory` is want of
/// memory, which a list of 2^32 rules or entries is taken for.
pub fn sanitize(alloc: Global, raw: &RawPolicy) -> Result<Policy, SanitizeError>
    ensures accepted { IfOk result (λ policy. sanitized_of raw.now ≡ Ok policy) }
    ensures refused { IfErr result (Refuses (sanitized_of raw.now)) }
{
    let rules = rules_of(alloc, &raw.key, raw.rules.as_slice())?;
    Ok(Policy {
        key: raw.key.copy(alloc)?,
        rules,
    })
}
