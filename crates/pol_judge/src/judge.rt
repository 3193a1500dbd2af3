//! The verdict on a packet, by a scan of all rules.
ghost use Rattle.std.specs.Prelude.{◌≡◌};
ghost use Rattle.pol_model.specs.Enforced.{has_rule};
ghost use Rattle.pol_model.specs.Selects.{selects_number};
ghost use Rattle.pol_model.specs.Verdict.{rule_covers, some_covers};
ghost use Rattle.pol_judge.specs.Parts.{parts_of, word_of};

use crate::selects::covers_packet;
use pol_ident::Identities;
use pol_mapkey::Word;
use pol_model::{Endpoint, HOST_IDENTITY, Mode, Query, Stamped, allow_section, deny_section};
use pol_ports::Direction;
use pol_rule::{Rule, Section};

/// Whether some entry of that section of the rule covers the query's packet, from or to that number.
#[tactic(auto, unfolding(pol_model::specs::Verdict::rule_covers))]
fn rule_covers(
    rule: &Rule,
    section: Section,
    identities: &Identities,
    number: u32,
    query: &Query,
) -> bool
    ensures { result
        ≡ rule_covers section (selects_number identities.now number) query.now.proto query.now.port rule.now }
{
    rule.entries_of(section).iter().any(|entry| covers_packet(
        entry,
        identities,
        number,
        query.proto,
        query.port,
    ))
}

/// Whether some rule of the policy that selects the endpoint has such an entry.
#[tactic(auto, unfolding(pol_model::specs::Enforced::has_rule))]
fn policy_covers(
    stamped: &Stamped,
    endpoint: &Endpoint,
    section: Section,
    identities: &Identities,
    number: u32,
    query: &Query,
) -> bool
    ensures { result ≡ has_rule (rule_covers section
        (selects_number identities.now number) query.now.proto query.now.port) endpoint.now stamped.now }
{
    let rules = stamped.policy.rules.as_slice();
    rules.iter().any(|rule| endpoint.is_selected_by(rule)
        && rule_covers(rule, section, identities, number, query))
}

/// Whether some entry of that section of a rule that selects the endpoint covers the query's packet.
fn some_entry_covers(
    policies: &[Stamped],
    endpoint: &Endpoint,
    section: Section,
    identities: &Identities,
    number: u32,
    query: &Query,
) -> bool
    ensures { result ≡ some_covers policies.now endpoint.now section
        (selects_number identities.now number) query.now.proto query.now.port }
{
    policies.iter().any(|stamped| policy_covers(
        stamped, endpoint, section, identities, number, query,
    ))
}

/// The verdict on the query's packet at the endpoint, where its other side has the identity of that number (Cilium, Policy
/// Enforcement Modes, and Network Policy, "Deny Policies"); `localhost` is the leave for the local host. It takes no memory.
pub fn verdict_at(
    localhost: bool,
    mode: Mode,
    policies: &[Stamped],
    identities: &Identities,
    endpoint: &Endpoint,
    number: u32,
    query: &Query,
) -> Word
    ensures word { result
        ≡ word_of localhost (parts_of mode policies.now identities.now) query.now endpoint.now number }
{
    let dir = query.dir;
    if matches!(mode, Mode::Never) {
        Word::Allowed
    } else if some_entry_covers(
        policies,
        endpoint,
        deny_section(dir),
        identities,
        number,
        query,
    ) {
        Word::DeniedByRule
    } else if some_entry_covers(
        policies,
        endpoint,
        allow_section(dir),
        identities,
        number,
        query,
    ) || !endpoint.is_enforced(mode, policies, dir)
        || (matches!(dir, Direction::Ingress) && number == HOST_IDENTITY && localhost)
    {
        Word::Allowed
    } else {
        Word::DeniedByDefault
    }
}
