//! Building selectors (Kubernetes, "LabelSelector").
ghost use Rattle.std.specs.Prelude.{◌≡◌, IfOk};
ghost use Rattle.serde_json.specs.View.{view, members_view};
ghost use Rattle.pol_json.specs.Build.{pairs_of, labels_of, expression_of, selector_of};

use crate::members::present;
use crate::part::{Part, items_at, member_text};
use pol_data::{Items, Memory, Text};
use pol_rule::{RawExpression, RawPair, RawPairs, RawSelector};
use serde_json::{Map, Value};
use std::alloc::Global;

/// The members that aren't null, in the byte order of their names.
fn build_pairs(alloc: Global, members: &Map<String, Value>) -> Result<Vec<RawPair>, Memory>
    ensures { IfOk result (λ pairs. pairs.items ≡ pairs_of (members_view members.now.entries)) }
{
    let mut pairs = Vec::new(alloc);
    for (name, value) in members {
        if !value.is_null() {
            pairs.push(RawPair {
                key: Text::from_str(alloc, name.as_str())?,
                value: Text::build(alloc, value)?,
            })?;
        }
    }
    Ok(pairs)
}

fn build_labels(alloc: Global, value: &Value) -> Result<RawPairs, Memory>
    ensures { IfOk result (λ pairs. pairs ≡ labels_of (view value.now)) }
{
    match present(value, "matchLabels").and_then(Value::as_object) {
        None => Ok(Items::from_vec(Vec::new(alloc))),
        Some(members) => Ok(Items::from_vec(build_pairs(alloc, members)?)),
    }
}

impl Part for RawExpression {
    ghost gives = { expression_of };

    fn build(alloc: Global, value: &Value) -> Result<RawExpression, Memory> {
        Ok(RawExpression {
            key: member_text(alloc, value, "key")?,
            operator: member_text(alloc, value, "operator")?,
            values: items_at(alloc, value, "values")?,
        })
    }
}

impl Part for RawSelector {
    ghost gives = { selector_of };

    fn build(alloc: Global, value: &Value) -> Result<RawSelector, Memory> {
        Ok(RawSelector {
            labels: build_labels(alloc, value)?,
            expressions: items_at(alloc, value, "matchExpressions")?,
        })
    }
}
