//! Whether the rules and entries of a request are few enough for places to fit their numbers.
ghost use Rattle.std.specs.Prelude.{◌≡◌, ◌↔◌, IsTrue};
ghost use Rattle.pol_model.specs.Sizes.{HasShortSections, IsShort, IsShortPolicy};

use crate::request::Request;
use pol_rule::{Policy, Rule};

// How many items a list has at least, if it is too long.
const TOO_MANY: usize = 1 << 32;

fn has_short_sections(rule: &Rule) -> bool
    ensures short { IsTrue result ↔ HasShortSections rule.now }
{
    rule.ingress.len() < TOO_MANY
        && rule.ingress_deny.len() < TOO_MANY
        && rule.egress.len() < TOO_MANY
        && rule.egress_deny.len() < TOO_MANY
}

fn is_short_policy(policy: &Policy) -> bool
    ensures short { IsTrue result ↔ IsShortPolicy policy.now }
{
    policy.rules.len() < TOO_MANY
        && policy
            .rules
            .as_slice()
            .iter()
            .all(|rule| has_short_sections(rule))
}

impl Request {
    /// Whether a policy has fewer than 2^32 rules, and each section of them fewer than 2^32 entries.
    pub fn is_short(&self) -> bool
        ensures short { IsTrue result ↔ IsShort self.now }
    {
        match self {
            Request::Apply(policy) => is_short_policy(policy),
            _ => true,
        }
    }
}
