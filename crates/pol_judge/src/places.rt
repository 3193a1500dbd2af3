//! The places of the entries that cover a packet.
ghost use Rattle.std.specs.Prelude.{◌≡◌, ◌++◌, ◌<◌, ◌^◌, length, IfOk, OnOk};
ghost use Rattle.std.specs.List.{AllByRecursion};
ghost use Rattle.pol_rule.specs.Covers.{entry_covers};
ghost use Rattle.pol_model.specs.Enforced.{rule_selects};
ghost use Rattle.pol_model.specs.Explain.{covering_places, entry_places, rule_places};
ghost use Rattle.pol_model.specs.Selects.{selects_number};
ghost use Rattle.pol_model.specs.Sizes.{HasShortSections, IsShortPolicy};

use crate::selects::covers_packet;
use pol_data::Memory;
use pol_ident::Identities;
use pol_model::{Endpoint, Places, Query, Stamped};
use pol_rule::{Entry, Place, Policy, PolicyKey, Section};
use std::alloc::Global;

/// Appends the places of the entries that cover the query's packet.
fn push_entries(
    out: &mut Vec<Place>,
    key: &PolicyKey,
    rule: u32,
    section: Section,
    entries: &[Entry],
    identities: &Identities,
    number: u32,
    query: &Query,
) -> Result<(), Memory>
    requires { length entries.now < 2 ^ 32 }
    ensures { OnOk result (out.new.items ≡ out.old.items ++ entry_places (entry_covers
        (selects_number identities.now number) query.now.proto query.now.port) key.now rule section 0 entries.now) }
{
    for (i, entry) in entries.iter().enumerate() {
        if covers_packet(entry, identities, number, query.proto, query.port) {
            out.push(Place {
                key: key.copy(*out.allocator())?,
                rule,
                section,
                entry: i as u32,
            })?;
        }
    }
    Ok(())
}

/// Appends the places in that section of the policy's rules that select the endpoint.
fn push_policy(
    out: &mut Vec<Place>,
    policy: &Policy,
    endpoint: &Endpoint,
    section: Section,
    identities: &Identities,
    number: u32,
    query: &Query,
) -> Result<(), Memory>
    requires rules { length policy.now.rules < 2 ^ 32 }
    requires sections { AllByRecursion HasShortSections policy.now.rules }
    ensures { OnOk result (out.new.items
        ≡ out.old.items ++ rule_places (rule_selects endpoint.now) (entry_covers (selects_number identities.now number)
        query.now.proto query.now.port) policy.now.key section 0 policy.now.rules) }
{
    for (i, rule) in policy.rules.as_slice().iter().enumerate() {
        if endpoint.is_selected_by(rule) {
            let entries = rule.entries_of(section);
            push_entries(
                out,
                &policy.key,
                i as u32,
                section,
                entries,
                identities,
                number,
                query,
            )?;
        }
    }
    Ok(())
}

/// The places of the entries of that section that cover the query's packet, in policy, rule and entry order.
pub(crate) fn places_in(
    alloc: Global,
    policies: &[Stamped],
    endpoint: &Endpoint,
    section: Section,
    identities: &Identities,
    number: u32,
    query: &Query,
) -> Result<Places, Memory>
    requires { AllByRecursion (λ stamped. IsShortPolicy stamped.policy) policies.now }
    ensures { IfOk result (λ places. places ≡ covering_places policies.now endpoint.now section
        (entry_covers (selects_number identities.now number) query.now.proto query.now.port)) }
{
    let mut out = Vec::new(alloc);
    for stamped in policies {
        push_policy(
            &mut out,
            &stamped.policy,
            endpoint,
            section,
            identities,
            number,
            query,
        )?;
    }
    Ok(Places::from_vec(out))
}
