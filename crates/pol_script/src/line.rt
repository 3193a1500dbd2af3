//! Lines: from a line's bytes to a command.
ghost use Rattle.std.specs.Prelude.{◌≡◌, ok_or};
ghost use Rattle.serde_json.specs.View.{view};
ghost use Rattle.pol_json.specs.Gives.{Gives};
ghost use Rattle.pol_script.specs.Gives.{Reads, line_fault_of};
ghost use Rattle.pol_script.specs.Reading.{json_of, op_of, read_object, read_op, reading_of};
ghost use Rattle.pol_script.specs.declared.line_fault.LineFault.TheVariants.{Json as NoJson};

use crate::apply::{read_apply, read_delete};
use crate::endpoint::{read_endpoint, read_identity, read_remove_endpoint, read_remove_identity};
use crate::op::{Op, op_named};
use crate::others::{read_mode, read_phase, read_sync};
use crate::query::read_query;
use crate::{Command, LineError, LineFault};
use pol_json::text_at;
use serde_json::Value;
use std::alloc::Global;

/// The JSON value of a line (RFC 8259).
fn json_of(alloc: Global, line: &[u8]) -> Result<Value, LineError>
    ensures { Reads view result (ok_or (json_of line.now) NoJson) }
{
    match Value::from_slice(alloc, line) {
        Ok(value) => Ok(value),
        Err(error) => {
            if error.is_memory() {
                Err(LineError::Memory)
            } else {
                Err(LineError::Fault(LineFault::Json))
            }
        }
    }
}

/// The operation of an object.
fn op_of(value: &Value) -> Result<Op, LineError>
    ensures { Reads (λ op. op) result (op_of (view value.now)) }
{
    let Some(text) = text_at(value, "op") else {
        return Err(LineError::Fault(LineFault::NoOp));
    };
    match op_named(text) {
        Some(op) => Ok(op),
        None => Err(LineError::Fault(LineFault::NoOp)),
    }
}

/// The command of an object with this operation.
fn read_op(alloc: Global, value: &Value, op: Op) -> Result<Command, LineError>
    ensures { Reads (λ command. command) result (read_op op (view value.now)) }
{
    match op {
        Op::Endpoint => read_endpoint(alloc, value),
        Op::RemoveEndpoint => read_remove_endpoint(alloc, value),
        Op::Identity => read_identity(alloc, value),
        Op::RemoveIdentity => read_remove_identity(alloc, value),
        Op::Apply => read_apply(alloc, value),
        Op::Delete => read_delete(alloc, value),
        Op::Mode => read_mode(alloc, value),
        Op::Verdict => read_query(alloc, value, false),
        Op::Trace => read_query(alloc, value, true),
        Op::Sync => read_sync(alloc, value),
        Op::Phase => read_phase(alloc, value),
    }
}

fn read_object(alloc: Global, value: &Value) -> Result<Command, LineError>
    ensures { Reads (λ command. command) result (read_object (view value.now)) }
{
    let op = op_of(value)?;
    read_op(alloc, value, op)
}

/// The command of a line of the script, without its newline (profile).
///
/// `Fault` comes exactly where the line has a fault, with the first one, in this order: `Json` where the
/// line is no JSON value or its value is no object; `NoOp` where `op` isn't an operation; `BadField` for
/// the first member of the operation that is absent though it has to be there, or of the wrong form;
/// `UnknownField` for the first member, in byte order, that the operation doesn't have; and then what the
/// members hold: `BadLabel`, `DuplicateLabelKey` and `BadAddress`, or `Doc` and `Rule` for a policy.
/// A member whose value is null counts as absent. `Memory` is want of memory.
pub fn read_line(alloc: Global, line: &[u8]) -> Result<Command, LineError>
    ensures exact { Gives line_fault_of result (reading_of line.now) }
{
    let value = json_of(alloc, line)?;
    if !value.is_object() {
        return Err(LineError::Fault(LineFault::Json));
    }
    read_object(alloc, &value)
}
