//! Laws of generated scripts, over the definitions alone.
//! Each function does nothing: its contract is the law.
ghost use Rattle.std.specs.Prelude.{◌≡◌};
ghost use Rattle.pol_gen.specs.Draws.{next, drawn};

/// The first number for 1, and a first draw of 8.
pub fn first_numbers()
    ensures number { next 1 ≡ 7806831264735756412 }
    ensures draw { drawn 0 1 8 ≡ 6 }
{}
