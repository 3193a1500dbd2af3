//! Label sets and addresses, from their texts.
ghost use Rattle.std.specs.Prelude.{◌≡◌, map, ok_or};
ghost use Rattle.serde_json.specs.View.{view};
ghost use Rattle.pol_json.specs.Build.{text_of};
ghost use Rattle.pol_labels.specs.LabelText.{read_label};
ghost use Rattle.pol_script.specs.Commands.{labels_of, address_of};
ghost use Rattle.pol_script.specs.Gives.{Reads};
ghost use Rattle.pol_script.specs.Steps.{each};
ghost use Rattle.pol_script.specs.declared.line_fault.LineFault.TheVariants.{BadLabel as Bad};

use crate::{LineError, LineFault};
use pol_addr::Addr;
use pol_labels::{Label, LabelSet};
use serde_json::Value;
use std::alloc::Global;

fn read_label(alloc: Global, value: &Value) -> Result<Label, LineError>
    ensures { Reads (λ label. label) result (ok_or (read_label (text_of (view value.now))) Bad) }
{
    Ok(Label::parse(alloc, value.as_str().unwrap_or(""))?)
}

fn read_labels(alloc: Global, values: &[Value]) -> Result<Vec<Label>, LineError>
    ensures { Reads (λ labels.
        labels.items) result (ok_or (each read_label (map (λ value. text_of (view value)) values.now)) Bad) }
{
    let mut labels = Vec::with_capacity(alloc, values.len())?;
    for value in values {
        labels.push(read_label(alloc, value)?)?;
    }
    Ok(labels)
}

/// The set of the labels that these texts write. `BadLabel` comes where one of them writes none, and else
/// `DuplicateLabelKey` where two labels share source and key.
pub(crate) fn labels_of(alloc: Global, values: &[Value]) -> Result<LabelSet, LineError>
    ensures { Reads (λ labels. labels) result (labels_of (map (λ value. text_of (view value)) values.now)) }
{
    let labels = read_labels(alloc, values)?;
    Ok(LabelSet::from_labels(alloc, labels)?)
}

/// The address of either family that the text writes. `BadAddress` comes where it writes none.
pub(crate) fn address_of(text: &str) -> Result<Addr, LineError>
    ensures { Reads (λ address. address) result (address_of text.now) }
{
    match Addr::parse(text) {
        Some(address) => Ok(address),
        None => Err(LineError::Fault(LineFault::BadAddress)),
    }
}
