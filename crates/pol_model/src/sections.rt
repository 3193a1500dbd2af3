//! Which sections a direction has, which rules select an endpoint, and when a direction is enforced.
ghost use Rattle.std.specs.Prelude.{◌≡◌};
ghost use Rattle.std.specs.List.{list_any};
ghost use Rattle.pol_model.specs.Enforced.{allow_section, deny_section, enforced, has_rule, has_section, rule_says, rule_selects};

use crate::limits::INIT_IDENTITY;
use crate::options::Mode;
use crate::row::{Endpoint, Stamped};
use pol_ports::Direction;
use pol_rule::{Rule, Section};

/// The section of the entries that allow in a direction.
pub fn allow_section(dir: Direction) -> Section
    ensures { result ≡ allow_section dir }
{
    match dir {
        Direction::Ingress => Section::Ingress,
        Direction::Egress => Section::Egress,
    }
}

/// The section of the entries that deny in a direction.
pub fn deny_section(dir: Direction) -> Section
    ensures { result ≡ deny_section dir }
{
    match dir {
        Direction::Ingress => Section::IngressDeny,
        Direction::Egress => Section::EgressDeny,
    }
}

/// Whether the rule has an allow or a deny section in the direction that isn't empty.
fn has_section(rule: &Rule, dir: Direction) -> bool
    ensures { result ≡ has_section dir rule.now }
{
    !rule.entries_of(allow_section(dir)).is_empty()
        || !rule.entries_of(deny_section(dir)).is_empty()
}

/// Whether the rule puts the endpoints that it selects under default deny in the direction: what its
/// `enableDefaultDeny` says, and without that whether it has a section there (Cilium, Policy Enforcement Modes).
pub fn rule_says(rule: &Rule, dir: Direction) -> bool
    ensures { result ≡ rule_says dir rule.now }
{
    match rule.default_deny.of(dir) {
        Some(says) => says,
        None => has_section(rule, dir),
    }
}

/// Whether some rule of the policy selects the endpoint and puts the direction under default deny.
#[tactic(auto, unfolding(crate::specs::Enforced::has_rule))]
fn policy_says(stamped: &Stamped, endpoint: &Endpoint, dir: Direction) -> bool
    ensures { result ≡ has_rule (rule_says dir) endpoint.now stamped.now }
{
    let rules = stamped.policy.rules.as_slice();
    rules.iter().any(|rule| endpoint.is_selected_by(rule) && rule_says(rule, dir))
}

/// Whether some rule that selects the endpoint puts the direction under default deny.
fn some_rule_says(policies: &[Stamped], endpoint: &Endpoint, dir: Direction) -> bool
    ensures { result ≡ list_any (has_rule (rule_says dir) endpoint.now) policies.now }
{
    policies
        .iter()
        .any(|stamped| policy_says(stamped, endpoint, dir))
}

impl Endpoint {
    /// Whether the rule selects the endpoint: its subject matches the endpoint's labels.
    pub fn is_selected_by(&self, rule: &Rule) -> bool
        ensures answer { result ≡ rule_selects self.now rule.now }
    {
        rule.subject.is_met_by(&self.labels)
    }

    /// Whether the direction is enforced in this mode, under these policies (Cilium, Policy Enforcement
    /// Modes). One that has no labels yet is enforced in the default mode ('profile').
    pub fn is_enforced(&self, mode: Mode, policies: &[Stamped], dir: Direction) -> bool
        ensures answer { result ≡ enforced mode policies.now self.now dir }
    {
        match mode {
            Mode::Always => true,
            Mode::Never => false,
            Mode::Default => {
                self.identity == INIT_IDENTITY || some_rule_says(policies, self, dir)
            }
        }
    }
}
