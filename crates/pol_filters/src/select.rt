//! From policies to the filters of an endpoint.
ghost use Rattle.std.specs.Prelude.{◌≡◌, ◌++◌, ◌<◌, ◌^◌, ◌||◌, [], false, length, IfOk, List, OnOk};
ghost use Rattle.std.specs.List.{AllByRecursion};
ghost use Rattle.pol_ports.specs.declared.Direction.{Direction as AnyDirection};
ghost use Rattle.pol_ports.specs.declared.Direction.TheVariants.{Ingress, Egress};
ghost use Rattle.pol_rule.specs.Covers.{section_of};
ghost use Rattle.pol_model.specs.declared.row.Stamped.{Stamped as OnePolicy};
ghost use Rattle.pol_model.specs.Enforced.{rule_says};
ghost use Rattle.pol_model.specs.Sizes.{HasShortSections, IsShortPolicy};
ghost use Rattle.pol_filters.specs.Resolved.{denies, entry_filters, filter_at, filters_for, labels_enforced, policy_filters, policy_says, rule_filters};
ghost use Rattle.pol_filters.specs.Said.{IsSaid};

use crate::filter::{Filter, FilterList, Filters};
use pol_data::Memory;
use pol_labels::LabelSet;
use pol_model::{Mode, Stamped, allow_section, deny_section, is_init, rule_says};
use pol_ports::Direction;
use pol_rule::{Entry, Place, Rule, Section};
use std::alloc::Global;

/// What rules say of a direction: their filters, and whether any of them puts it under default deny.
#[derive(Drop)]
struct Said {
    filters: Vec<Filter>,
    some: bool,
}

impl Said {
    /// No filters, and no rule that puts anything under default deny.
    fn nothing(alloc: Global) -> Said
        ensures filters { result.filters.items ≡ [] }
        ensures some { result.some ≡ false }
    {
        Said {
            filters: Vec::new(alloc),
            some: false,
        }
    }
}

/// Whether the entries of the section deny.
fn denies(section: Section) -> bool
    ensures { result ≡ denies section }
{
    matches!(section, Section::IngressDeny | Section::EgressDeny)
}

/// The filter of the entry that stands at that place of the policy.
fn filter_at(
    alloc: Global,
    stamped: &Stamped,
    rule: u32,
    section: Section,
    number: u32,
    entry: &Entry,
) -> Result<Filter, Memory>
    ensures { IfOk result (λ filter. filter ≡ filter_at stamped.now rule section number entry.now) }
{
    let place = Place {
        key: stamped.policy.key.copy(alloc)?,
        rule,
        section,
        entry: number,
    };
    Ok(Filter {
        place,
        stamp: stamped.stamp,
        deny: denies(section),
        peers: entry.peers.copy(alloc)?,
        ports: entry.ports.copy(alloc)?,
    })
}

/// Appends the filters of the entries that cover something.
fn push_entries(
    out: &mut Vec<Filter>,
    stamped: &Stamped,
    rule: u32,
    section: Section,
    entries: &[Entry],
) -> Result<(), Memory>
    requires { length entries.now < 2 ^ 32 }
    ensures { OnOk result (out.new.items
        ≡ out.old.items ++ entry_filters (filter_at stamped.now rule section) 0 entries.now) }
{
    for (i, entry) in entries.iter().enumerate() {
        if entry.takes_effect() {
            let alloc = *out.allocator();
            out.push(filter_at(alloc, stamped, rule, section, i as u32, entry)?)?;
        }
    }
    Ok(())
}

/// Appends the filters of a section of the rule.
fn push_section(
    out: &mut Vec<Filter>,
    stamped: &Stamped,
    number: u32,
    rule: &Rule,
    section: Section,
) -> Result<(), Memory>
    requires { HasShortSections rule.now }
    ensures { OnOk result (out.new.items
        ≡ out.old.items ++ entry_filters (filter_at stamped.now number section) 0 (section_of section rule.now)) }
{
    push_entries(out, stamped, number, section, rule.entries_of(section))
}

/// Adds what a rule says of a direction.
fn push_rule(
    out: &mut Said,
    stamped: &Stamped,
    number: u32,
    rule: &Rule,
    dir: Direction,
) -> Result<(), Memory>
    requires { HasShortSections rule.now }
    ensures filters { OnOk result (out.new.filters.items
        ≡ out.old.filters.items ++ rule_filters stamped.now dir number rule.now) }
    ensures some { OnOk result (out.new.some ≡ (out.old.some || rule_says dir rule.now)) }
{
    push_section(&mut out.filters, stamped, number, rule, allow_section(dir))?;
    push_section(&mut out.filters, stamped, number, rule, deny_section(dir))?;
    out.some = out.some || rule_says(rule, dir);
    Ok(())
}

/// Adds what those of the policy's rules say that select the labels.
#[tactic(auto, unfolding(crate::specs::Resolved::policy_says))]
fn push_policy(
    ingress: &mut Said,
    egress: &mut Said,
    stamped: &Stamped,
    labels: &LabelSet,
) -> Result<(), Memory>
    requires rules { length stamped.now.policy.rules < 2 ^ 32 }
    requires sections { AllByRecursion HasShortSections stamped.now.policy.rules }
    ensures ingress_filters { OnOk result (ingress.new.filters.items
        ≡ ingress.old.filters.items ++ policy_filters stamped.now labels.now Ingress 0 stamped.now.policy.rules) }
    ensures ingress_some { OnOk result (ingress.new.some
        ≡ (ingress.old.some || policy_says labels.now Ingress stamped.now)) }
    ensures egress_filters { OnOk result (egress.new.filters.items
        ≡ egress.old.filters.items ++ policy_filters stamped.now labels.now Egress 0 stamped.now.policy.rules) }
    ensures egress_some { OnOk result (egress.new.some
        ≡ (egress.old.some || policy_says labels.now Egress stamped.now)) }
{
    for (i, rule) in stamped.policy.rules.as_slice().iter().enumerate() {
        if rule.subject.is_met_by(labels) {
            push_rule(ingress, stamped, i as u32, rule, Direction::Ingress)?;
            push_rule(egress, stamped, i as u32, rule, Direction::Egress)?;
        }
    }
    Ok(())
}

/// What the policies say of an endpoint with these labels: of what comes in, and of what goes out.
fn all_said(alloc: Global, policies: &[Stamped], labels: &LabelSet) -> Result<(Said, Said), Memory>
    requires { AllByRecursion (λ stamped. IsShortPolicy stamped.policy) policies.now }
    ensures ingress { IfOk result (λ said. IsSaid policies.now labels.now Ingress said.0) }
    ensures egress { IfOk result (λ said. IsSaid policies.now labels.now Egress said.1) }
{
    let mut ingress = Said::nothing(alloc);
    let mut egress = Said::nothing(alloc);
    for stamped in policies {
        push_policy(&mut ingress, &mut egress, stamped, labels)?;
    }
    Ok((ingress, egress))
}

/// Whether a direction is enforced for an endpoint with these labels, where this is said of the direction.
fn is_enforced(mode: Mode, labels: &LabelSet, said: &Said) -> bool
    ensures { (policies : List OnePolicy) (dir : AnyDirection)
        → IsSaid policies labels.now dir said.now → result ≡ labels_enforced mode policies labels.now dir }
{
    match mode {
        Mode::Always => true,
        Mode::Never => false,
        Mode::Default => is_init(labels) || said.some,
    }
}

/// What the policies say of an endpoint with these labels: one filter for each entry of a rule that selects
/// it, if the entry covers something, in the order of policies, rules and entries, with those that allow in a
/// rule before those that deny; and whether each direction is enforced (Cilium, Policy Enforcement Modes). The
/// one error is want of memory.
pub fn resolve(
    alloc: Global,
    policies: &[Stamped],
    labels: &LabelSet,
    mode: Mode,
    localhost: bool,
) -> Result<Filters, Memory>
    requires short { AllByRecursion (λ stamped. IsShortPolicy stamped.policy) policies.now }
    ensures filters { IfOk result (λ filters. filters ≡ filters_for policies.now labels.now mode localhost) }
{
    let (ingress, egress) = all_said(alloc, policies, labels)?;
    Ok(Filters {
        never: matches!(mode, Mode::Never),
        ingress_enforced: is_enforced(mode, labels, &ingress),
        egress_enforced: is_enforced(mode, labels, &egress),
        localhost,
        ingress: FilterList::from_vec(ingress.filters),
        egress: FilterList::from_vec(egress.filters),
    })
}
