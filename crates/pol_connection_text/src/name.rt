//! The line of a name that one side alone has.
ghost use Rattle.std.specs.Prelude.{◌≡◌, ◌++◌, IfOk};
ghost use Rattle.json.specs.Tree.{json_tokens};
ghost use Rattle.pol_connection_text.specs.Adds.{Adds};
ghost use Rattle.pol_connection_text.specs.Lines.{name_json};
ghost use Rattle.pol_connection_text.specs.Text.{name_text};

use crate::end::end_member;
use crate::line::ended;
use crate::side::{ChangeSide, side_member};
use json::Writer;
use pol_connections::EndName;
use pol_data::Memory;
use std::alloc::Global;

/// The object of a name.
fn name_alone(
    alloc: Global,
    out: &mut Writer,
    side: ChangeSide,
    name: &EndName,
) -> Result<(), Memory>
    ensures { Adds result out.old out.new (json_tokens (name_json side name.now)) }
{
    out.begin_object()?;
    side_member(out, side)?;
    end_member(alloc, out, "end", name)?;
    out.end_object()
}

/// The text with the line of the name behind it.
pub(crate) fn with_name(
    alloc: Global,
    text: Vec<u8>,
    side: ChangeSide,
    name: &EndName,
) -> Result<Vec<u8>, Memory>
    ensures { IfOk result (λ more. more.items ≡ text.items ++ name_text side name.now) }
{
    let mut out = Writer::new(text);
    name_alone(alloc, &mut out, side, name)?;
    ended(out)
}
