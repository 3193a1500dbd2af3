//! Lines that ask for a verdict or a trace.
ghost use Rattle.std.specs.Prelude.{◌≡◌, option_map};
ghost use Rattle.serde_json.specs.View.{view};
ghost use Rattle.pol_script.specs.Commands.{asks, make_query, remote_of};
ghost use Rattle.pol_script.specs.Gives.{Reads};
ghost use Rattle.pol_script.specs.Reading.{read_rows};
ghost use Rattle.pol_script.specs.Table.{query_rows};

use crate::endpoint::session_of;
use crate::labels::address_of;
use crate::members::{
    bad_field, check_known, identity_or_address, needed_direction, needed_name, needed_port,
    needed_protocol, optional_session, optional_text,
};
use crate::{Command, LineError};
use pol_data::Text;
use pol_model::{Query, Remote};
use serde_json::Value;
use std::alloc::Global;

/// The other side, by its number or by its address.
fn remote_of(
    alloc: Global,
    identity: Option<u32>,
    address: Option<&str>,
) -> Result<Remote, LineError>
    ensures { Reads (λ remote. remote) result (remote_of identity (option_map (λ text. text.now) address.entry)) }
{
    match (identity, address) {
        (Some(number), _) => Ok(Remote::Identity(number)),
        (None, Some(text)) => Ok(Remote::Address(address_of(text)?)),
        (None, None) => Err(bad_field(alloc, "identity")),
    }
}

fn asks(is_trace: bool, session: Option<u8>, query: Query) -> Command
    ensures { result ≡ asks is_trace session query }
{
    let session = session_of(session);
    if is_trace {
        Command::Trace { session, query }
    } else {
        Command::Look { session, query }
    }
}

/// The command of a line that asks for a verdict, or for a trace.
pub(crate) fn read_query(alloc: Global, value: &Value, is_trace: bool) -> Result<Command, LineError>
    ensures { Reads (λ command. command) result (read_rows query_rows (make_query is_trace) (view value.now)) }
{
    let endpoint = needed_name(alloc, value, "endpoint")?;
    let dir = needed_direction(alloc, value, "direction")?;
    let identity = identity_or_address(alloc, value)?;
    let address = optional_text(alloc, value, "address")?;
    let proto = needed_protocol(alloc, value, "protocol")?;
    let port = needed_port(alloc, value, "port")?;
    let session = optional_session(alloc, value)?;
    check_known(
        alloc,
        value,
        &[
            "op",
            "endpoint",
            "direction",
            "identity",
            "address",
            "protocol",
            "port",
            "session",
        ],
    )?;
    let remote = remote_of(alloc, identity, address)?;
    let query = Query {
        endpoint: Text::from_str(alloc, endpoint)?,
        dir,
        remote,
        proto,
        port,
    };
    Ok(asks(is_trace, session, query))
}
