//! What is found of a text of two tables.
ghost use Rattle.std.specs.Prelude.{◌≡◌};
ghost use Rattle.pol_compare.specs.Finding.{is_same};

use pol_audit::Audit;

/// What is found of a text of two tables ('profile').
#[derive(Clone, Copy, Debug, PartialEq, Eq)]
pub enum Finding {
    /// This line, counted from 1 over the whole text, is the first that can't stand in its table (refused 60).
    BadTable(u64),
    /// Each line can stand in one table, and no line divides the text into two (refused 61).
    NoDivider,
    /// Each part is a table, and this is what an audit of the two finds.
    Compared(Audit),
}

impl Finding {
    /// Whether both parts are tables that say the same.
    pub fn is_same(self) -> bool
        ensures { result ≡ is_same self }
    {
        matches!(self, Finding::Compared(Audit::Same))
    }
}
