//! The steps of a line.
ghost use Rattle.std.specs.Prelude.{◌≡◌, ◌++◌, ◌∷◌, [], IfOk, codes};
ghost use Rattle.json.specs.Print.{print};
ghost use Rattle.json.specs.Token.{begin_object, end_object, key, string};
ghost use Rattle.pol_connection_text.specs.Adds.{Adds};

use json::Writer;
use pol_data::Memory;

/// A member with a text.
pub(crate) fn member(out: &mut Writer, name: &str, text: &str) -> Result<(), Memory>
    ensures { Adds result out.old out.new (key name.now ∷ string text.now ∷ []) }
{
    out.key(name)?;
    out.string(text)
}

/// An object with one member, which is a text.
pub(crate) fn of_one(out: &mut Writer, name: &str, text: &str) -> Result<(), Memory>
    ensures { Adds result out.old out.new (begin_object ∷ key name.now ∷ string text.now ∷ end_object ∷ []) }
{
    out.begin_object()?;
    member(out, name, text)?;
    out.end_object()
}

/// The text with the line that was written behind it, and its newline byte.
pub(crate) fn ended(out: Writer) -> Result<Vec<u8>, Memory>
    ensures { IfOk result (λ text. text.items ≡ out.before ++ (print out.tokens ++ codes "\n")) }
{
    let mut text = out.into_inner();
    text.push(b'\n')?;
    Ok(text)
}
