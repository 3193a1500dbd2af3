//! What is found of texts of two tables: one of each finding, as the bytes that are written.
ghost use Rattle.std.specs.Prelude.{codes, true, false};
ghost use Rattle.answer_examples.specs.Found.{IsToldAs};

/// The first bad line is told by its number, from 1, over the tables and the divider between them. Without a divider a table is
/// refused as such ('profile').
pub fn bad_lines_are_counted()
    ensures first { IsToldAs (codes "bad\n") (codes "refused 60 bad-table 1\n") false }
    ensures second { IsToldAs (codes "ingress 257 every 0/0 allow\nbad\n--\n")
        (codes "refused 60 bad-table 2\n") false }
    ensures behind { IsToldAs (codes "ingress 257 every 0/0 allow\n--\nbad\n")
        (codes "refused 60 bad-table 3\n") false }
    ensures no_divider { IsToldAs (codes "ingress 257 every 0/0 allow\n") (codes "refused 61 no-divider\n") false }
    ensures nothing { IsToldAs (codes "") (codes "refused 61 no-divider\n") false }
{}

/// Two tables say the same, or the least packet is told on which they differ, with the word of each, left before right
/// ('profile').
pub fn tables_are_compared()
    ensures empty { IsToldAs (codes "--\n") (codes "same\n") true }
    ensures same { IsToldAs
        (codes "ingress 257 every 0/0 allow\n--\ningress 257 every 0/0 allow\n") (codes "same\n") true }
    ensures left { IsToldAs (codes "ingress 257 every 0/0 allow\n--\n")
        (codes "differs ingress 257 TCP 0 allowed denied-by-default\n") false }
    ensures right { IsToldAs (codes "--\ningress 257 every 0/0 allow\n")
        (codes "differs ingress 257 TCP 0 denied-by-default allowed\n") false }
{}
