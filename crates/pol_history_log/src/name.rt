//! Which node it is.
use std::marker::Brand;

/// The name of one node, in proofs alone: its book, its options, and the numbers of the passes that it hands out. A
/// caller picks it once the book is made, so that values behind locks are known to be of one node.
pub trait NodeName {
    ghost use Rattle.std.specs.Prelude.{List, ℕ};
    ghost use Rattle.logbook.specs.Pages.{Book as LogBook};
    ghost use Rattle.pol_model.specs.declared.options.Options.{Options};

    /// The book that the history stands in.
    ghost book: { LogBook };

    /// The options of each definition that a contract names.
    ghost options: { Options };

    /// The numbers of the passes that the node hands out.
    ghost passes: { List ℕ };
}

impl NodeName for Brand {
    ghost use Rattle.std.specs.Prelude.{[], None, false};
    ghost use Rattle.pol_model.specs.declared.options.Mode.TheVariants.{Default};

    ghost book = { record { number = 0; log_name = 0; cells_name = 0 } };

    ghost options = { record { mode = Default; localhost = false; map_max = None } };

    ghost passes = { [] };
}
