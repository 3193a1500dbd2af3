//! Building rules.
ghost use Rattle.std.specs.Prelude.{◌≡◌};
ghost use Rattle.serde_json.specs.View.{view};
ghost use Rattle.pol_json.specs.Build.{default_deny_at, default_deny_of, member_bool, rule_of};

use crate::entry::entries_at;
use crate::members::present;
use crate::part::{Part, part_at};
use pol_data::Memory;
use pol_ports::Direction;
use pol_rule::{DefaultDeny, RawRule};
use serde_json::Value;
use std::alloc::Global;

/// Whether a member is true or false; none where it is absent, or neither.
fn member_bool(value: &Value, name: &str) -> Option<bool>
    ensures { result ≡ member_bool name.now (view value.now) }
{
    present(value, name)?.as_bool()
}

fn default_deny_of(value: &Value) -> DefaultDeny
    ensures { result ≡ default_deny_of (view value.now) }
{
    DefaultDeny {
        ingress: member_bool(value, "ingress"),
        egress: member_bool(value, "egress"),
    }
}

/// What a rule says of default deny.
fn default_deny_at(value: &Value) -> DefaultDeny
    ensures { result ≡ default_deny_at (view value.now) }
{
    match present(value, "enableDefaultDeny") {
        None => DefaultDeny::nothing_said(),
        Some(member) => default_deny_of(member),
    }
}

impl Part for RawRule {
    ghost gives = { rule_of };

    fn build(alloc: Global, value: &Value) -> Result<RawRule, Memory> {
        Ok(RawRule {
            subject: part_at(alloc, value, "endpointSelector")?,
            ingress: entries_at(alloc, Direction::Ingress, value, "ingress")?,
            ingress_deny: entries_at(alloc, Direction::Ingress, value, "ingressDeny")?,
            egress: entries_at(alloc, Direction::Egress, value, "egress")?,
            egress_deny: entries_at(alloc, Direction::Egress, value, "egressDeny")?,
            default_deny: default_deny_at(value),
        })
    }
}
