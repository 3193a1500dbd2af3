//! The sides of a change.
ghost use Rattle.std.specs.Prelude.{◌≡◌, ◌∷◌, [], codes};
ghost use Rattle.json.specs.Token.{key, string};
ghost use Rattle.pol_connection_text.specs.Adds.{Adds};
ghost use Rattle.pol_connection_text.specs.Lines.{side_word};

use crate::line::member;
use json::Writer;
use pol_data::Memory;

/// A side of a change ('profile').
#[derive(Clone, Copy, Debug, PartialEq, Eq)]
pub enum ChangeSide {
    /// The state before it.
    Before,
    /// The state after it.
    After,
}

/// The word of a side.
fn side_word(side: ChangeSide) -> &'static str
    ensures { result.now ≡ side_word side }
{
    match side {
        ChangeSide::Before => "before",
        ChangeSide::After => "after",
    }
}

/// The member with the word of a side.
pub(crate) fn side_member(out: &mut Writer, side: ChangeSide) -> Result<(), Memory>
    ensures { Adds result out.old out.new (key (codes "side") ∷ string (side_word side) ∷ []) }
{
    member(out, "side", side_word(side))
}
