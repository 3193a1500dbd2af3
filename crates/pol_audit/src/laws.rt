//! Laws of the definitions that contracts cite. Each function does nothing: its contract is the law.
ghost use Rattle.std.specs.Prelude.{◌≡◌, ◌↔◌, ◌==◌, ℕ, List, [], count_by, length};
ghost use Rattle.pol_mapkey.specs.Entries.{Entry};
ghost use Rattle.pol_audit.specs.declared.difference.Difference.{Difference};
ghost use Rattle.pol_audit.specs.Audit.{Alike};
ghost use Rattle.pol_audit.specs.Difference.{IsDifference};
ghost use Rattle.pol_audit.specs.Tables.{IsTable};
ghost use Rattle.pol_audit.specs.Text.{AreKept, IsBadLine, text_of};

/// Two tables that say the same of every packet have no difference, and two that have none say the same.
pub fn alike_tables_have_no_difference()
    ensures { (left right : List Entry) (list : List Difference)
        → IsDifference left right list → Alike left right ↔ (list ≡ []) }
{}

/// A text is that of one table at most, or has one first bad line, and not both. So what `table_text` writes `read_table`
/// reads as the same table, and the line that it tells is the only one that it may tell.
pub fn texts_tell_tables()
    ensures one_table { (a b : List Entry) → AreKept a → AreKept b → text_of a ≡ text_of b → a ≡ b }
    ensures no_bad_line { (table : List Entry) (line : ℕ)
        → AreKept table → IsTable table → IsBadLine (text_of table) line → ⊥ }
    ensures one_bad_line { (text : List ℕ) (m n : ℕ) → IsBadLine text m → IsBadLine text n → m ≡ n }
{}

/// The text of a table has as many newline bytes as the table has entries, so a text of few lines is of few entries.
pub fn texts_have_a_line_an_entry()
    ensures { (table : List Entry) → AreKept table → count_by (λ byte. byte == 10) (text_of table) ≡ length table }
{}
