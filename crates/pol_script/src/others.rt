//! Lines that set the mode, synchronise, or end a phase.
ghost use Rattle.serde_json.specs.View.{view};
ghost use Rattle.pol_script.specs.Gives.{Reads};
ghost use Rattle.pol_script.specs.Reading.{read_op};

use crate::endpoint::session_of;
use crate::members::{check_known, needed_mode, optional_session};
use crate::op::Op;
use crate::{Command, LineError};
use pol_model::Request;
use serde_json::Value;
use std::alloc::Global;

/// The command of a line that sets the mode.
pub(crate) fn read_mode(alloc: Global, value: &Value) -> Result<Command, LineError>
    ensures { Reads (λ command. command) result (read_op Op.Mode (view value.now)) }
{
    let mode = needed_mode(alloc, value, "enable")?;
    let session = optional_session(alloc, value)?;
    check_known(alloc, value, &["op", "enable", "session"])?;
    Ok(Command::Commit {
        session: session_of(session),
        request: Request::SetMode(mode),
    })
}

/// The command of a line that asks to synchronise.
pub(crate) fn read_sync(alloc: Global, value: &Value) -> Result<Command, LineError>
    ensures { Reads (λ command. command) result (read_op Op.Sync (view value.now)) }
{
    let session = optional_session(alloc, value)?;
    check_known(alloc, value, &["op", "session"])?;
    Ok(Command::Sync {
        session: session_of(session),
    })
}

/// The command of a line that ends a phase, which is of no session.
pub(crate) fn read_phase(alloc: Global, value: &Value) -> Result<Command, LineError>
    ensures { Reads (λ command. command) result (read_op Op.Phase (view value.now)) }
{
    check_known(alloc, value, &["op"])?;
    Ok(Command::Phase)
}
