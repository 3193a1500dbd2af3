//! Lines that add or remove an endpoint or a named identity.
ghost use Rattle.std.specs.Prelude.{◌≡◌};
ghost use Rattle.serde_json.specs.View.{view};
ghost use Rattle.pol_script.specs.Commands.{session_of};
ghost use Rattle.pol_script.specs.Gives.{Reads};
ghost use Rattle.pol_script.specs.Reading.{read_op};

use crate::labels::{address_of, labels_of};
use crate::members::{check_known, needed_name, needed_text, needed_texts, optional_session};
use crate::op::Op;
use crate::{Command, LineError};
use pol_data::Text;
use pol_model::Request;
use serde_json::Value;
use std::alloc::Global;

/// The session of a line that names none (profile).
const DEFAULT_SESSION: u8 = 1;

/// The session that is named, or 1.
pub(crate) fn session_of(session: Option<u8>) -> u8
    ensures { result ≡ session_of session }
{
    session.unwrap_or(DEFAULT_SESSION)
}

/// The command of a line that adds an endpoint.
pub(crate) fn read_endpoint(alloc: Global, value: &Value) -> Result<Command, LineError>
    ensures { Reads (λ command. command) result (read_op Op.Endpoint (view value.now)) }
{
    let name = needed_name(alloc, value, "name")?;
    let labels = needed_texts(alloc, value, "labels")?;
    let address = needed_text(alloc, value, "address")?;
    let session = optional_session(alloc, value)?;
    check_known(
        alloc,
        value,
        &["op", "name", "labels", "address", "session"],
    )?;
    let labels = labels_of(alloc, labels)?;
    let address = address_of(address)?;
    Ok(Command::Commit {
        session: session_of(session),
        request: Request::AddEndpoint {
            name: Text::from_str(alloc, name)?,
            labels,
            address,
        },
    })
}

/// The command of a line that adds a named identity.
pub(crate) fn read_identity(alloc: Global, value: &Value) -> Result<Command, LineError>
    ensures { Reads (λ command. command) result (read_op Op.Identity (view value.now)) }
{
    let name = needed_name(alloc, value, "name")?;
    let labels = needed_texts(alloc, value, "labels")?;
    let session = optional_session(alloc, value)?;
    check_known(alloc, value, &["op", "name", "labels", "session"])?;
    let labels = labels_of(alloc, labels)?;
    Ok(Command::Commit {
        session: session_of(session),
        request: Request::AddIdentity {
            name: Text::from_str(alloc, name)?,
            labels,
        },
    })
}

/// The command of a line that removes an endpoint.
pub(crate) fn read_remove_endpoint(alloc: Global, value: &Value) -> Result<Command, LineError>
    ensures { Reads (λ command. command) result (read_op Op.RemoveEndpoint (view value.now)) }
{
    let name = needed_name(alloc, value, "name")?;
    let session = optional_session(alloc, value)?;
    check_known(alloc, value, &["op", "name", "session"])?;
    Ok(Command::Commit {
        session: session_of(session),
        request: Request::RemoveEndpoint {
            name: Text::from_str(alloc, name)?,
        },
    })
}

/// The command of a line that removes a named identity.
pub(crate) fn read_remove_identity(alloc: Global, value: &Value) -> Result<Command, LineError>
    ensures { Reads (λ command. command) result (read_op Op.RemoveIdentity (view value.now)) }
{
    let name = needed_name(alloc, value, "name")?;
    let session = optional_session(alloc, value)?;
    check_known(alloc, value, &["op", "name", "session"])?;
    Ok(Command::Commit {
        session: session_of(session),
        request: Request::RemoveIdentity {
            name: Text::from_str(alloc, name)?,
        },
    })
}
