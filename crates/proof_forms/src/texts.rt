//! Texts that are written part by part.
#![tactic(auto, using(std::proofs::Common::append_assoc))]

ghost use Rattle.std.specs.Prelude.{◌≡◌, ◌++◌, OnOk};
ghost use Rattle.std.specs.String.{string_bytes};
ghost use Rattle.proof_forms.specs.Texts.{list_text, row_text};

use pol_data::Memory;

/// A text and a number: a `write!` of a few parts proves by itself, a long one is cut into calls of such functions.
fn push_row(out: &mut String, number: u32, count: u32) -> Result<(), Memory>
    ensures { OnOk result (string_bytes out.new ≡ string_bytes out.old ++ row_text number count) }
{
    write!(out, "{number} x{count};")
}

/// A text of several rows.
pub fn push_two_rows(out: &mut String, one: u32, other: u32) -> Result<(), Memory>
    ensures { OnOk result (string_bytes out.new ≡ string_bytes out.old ++ list_text one other) }
{
    push_row(out, one, 1)?;
    push_row(out, other, 2)
}
