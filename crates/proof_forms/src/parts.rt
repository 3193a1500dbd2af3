//! A part of a value that is changed in place.
ghost use Rattle.std.specs.Prelude.{◌≡◌, ◌+◌, ◌<◌, ◌^◌, Some, None, slice_get, slice_set, option_map};
ghost use Rattle.proof_forms.specs.Parts.{raised};
ghost use Rattle.proof_forms.specs.declared.parts.CountRow.{CountRow as OneRow};

/// A number and how often it came.
#[derive(Clone, Copy, Drop)]
pub struct CountRow {
    /// The number.
    pub number: u32,
    /// How often it came, short of 2^32.
    pub count: u32,
}

/// A part behind `&mut` is changed by a function over that part alone.
fn raise(count: &mut u32)
    requires { count.old + 1 < 2 ^ 32 }
    ensures { count.new ≡ count.old + 1 }
{
    *count += 1;
}

/// The value is told by the part that changed.
pub fn raise_row(row: &mut CountRow)
    requires { row.old.count + 1 < 2 ^ 32 }
    ensures { row.new ≡ raised row.old }
{
    raise(&mut row.count);
}

/// The same of a row of a list.
pub fn raise_at(rows: &mut [CountRow], place: usize, row: CountRow)
    requires there { slice_get rows.old place ≡ Some row }
    requires room { row.count + 1 < 2 ^ 32 }
    ensures { rows.new ≡ slice_set rows.old place (raised row) }
{
    raise_row(&mut rows[place]);
}

/// The same of a value that may not be there.
pub fn raise_if_there(row: &mut Option<CountRow>)
    requires { (at : OneRow) → row.old ≡ Some at → at.count + 1 < 2 ^ 32 }
    ensures { row.new ≡ option_map raised row.old }
{
    if let Some(row) = row {
        raise_row(row);
    }
}
