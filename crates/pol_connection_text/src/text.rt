//! The text of lists, each behind a text that was written before.
ghost use Rattle.std.specs.Prelude.{◌≡◌, ◌++◌, IfOk};
ghost use Rattle.pol_connection_text.specs.Text.{change_text, connections_text, names_text, refusal_text};

use crate::connection::with_connection;
use crate::name::with_name;
use crate::refusal::with_refusal;
use crate::side::ChangeSide;
use pol_answer::Answer;
use pol_connections::{Connection, EndName};
use pol_data::Memory;
use std::alloc::Global;

/// The text with the line behind it that tells what a line of a script is refused for: its side, where there are two, its
/// number, and the answer that `policyd` gives it ('profile'). The one error is want of memory.
pub fn refusal_text(
    alloc: Global,
    text: Vec<u8>,
    side: Option<ChangeSide>,
    line: u64,
    answer: &Answer,
) -> Result<Vec<u8>, Memory>
    ensures { IfOk result (λ more. more.items ≡ text.items ++ refusal_text side line answer.now) }
{
    with_refusal(alloc, text, side, line, answer)
}

/// The text with the lines of names behind it that one side alone has.
fn names_text(
    alloc: Global,
    mut text: Vec<u8>,
    side: ChangeSide,
    names: &[EndName],
) -> Result<Vec<u8>, Memory>
    ensures { IfOk result (λ more. more.items ≡ text.items ++ names_text side names.now) }
{
    for name in names {
        text = with_name(alloc, text, side, name)?;
    }
    Ok(text)
}

/// The text with the lines of the connections behind it, in their order ('profile'). The one error is want of memory.
pub fn connections_text(
    alloc: Global,
    mut text: Vec<u8>,
    connections: &[Connection],
) -> Result<Vec<u8>, Memory>
    ensures { IfOk result (λ more. more.items ≡ text.items ++ connections_text connections.now) }
{
    for connection in connections {
        text = with_connection(alloc, text, connection)?;
    }
    Ok(text)
}

/// The text with what a change does behind it: the names that go, those that come, and the connections that open or shut,
/// each in their order ('profile'). The one error is want of memory.
pub fn change_text(
    alloc: Global,
    text: Vec<u8>,
    gone: &[EndName],
    new: &[EndName],
    connections: &[Connection],
) -> Result<Vec<u8>, Memory>
    ensures { IfOk result (λ more. more.items ≡ text.items ++ change_text gone.now new.now connections.now) }
{
    let text = names_text(alloc, text, ChangeSide::Before, gone)?;
    let text = names_text(alloc, text, ChangeSide::After, new)?;
    connections_text(alloc, text, connections)
}
