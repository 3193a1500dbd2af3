//! What the kinds of two deciding entries say.
ghost use Rattle.std.specs.Prelude.{◌≡◌, Option, option_map};
ghost use Rattle.pol_mapkey.specs.Entries.{Entry, kind_denies, word_of, word_of_kinds};

use crate::{Kind, Word};

/// Whether there is a kind, and it is a deny.
fn denies(kind: Option<Kind>) -> bool
    ensures { result ≡ kind_denies kind }
{
    match kind {
        Some(Kind::Deny) => true,
        Some(Kind::Allow) | None => false,
    }
}

impl Word {
    /// What a map says by the kinds of the deciding entries of the remote identity and of identity 0: a deny on
    /// either denies, and else an allow on either allows (profile: how the keys of two identities are weighed).
    pub fn of(own: Option<Kind>, every: Option<Kind>) -> Word
        ensures kinds { result ≡ word_of_kinds own every }
        ensures entries { (a b : Option Entry)
            → own ≡ option_map (λ e. e.1) a → every ≡ option_map (λ e. e.1) b → result ≡ word_of a b }
    {
        if denies(own) || denies(every) {
            Word::DeniedByRule
        } else if own.is_some() || every.is_some() {
            Word::Allowed
        } else {
            Word::DeniedByDefault
        }
    }
}
