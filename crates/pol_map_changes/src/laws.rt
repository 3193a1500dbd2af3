//! Laws of change lists, over the definitions alone.
ghost use Rattle.pol_map_changes.specs.Laws.{ChangesMayBeMadeAgain, DifferencesAreUnique, DifferencesLead, LaterChangeStands, ListsAreWhatTheySay, NoneDiffers, TablesHaveTheirEntries, WholeIsDifference};

/// Lists that say the same of each key are the same.
pub fn lists_are_what_they_say()
    ensures { ListsAreWhatTheySay }
{}

/// Two tables have at most one difference.
pub fn differences_are_unique()
    ensures { DifferencesAreUnique }
{}

/// The difference of two tables makes the one the other.
pub fn differences_lead()
    ensures { DifferencesLead }
{}

/// The difference of two tables is empty exactly where they are the same.
pub fn equal_tables_have_no_difference()
    ensures { NoneDiffers }
{}

/// `Set` of each entry of a table is its difference from the empty table.
pub fn the_whole_is_a_difference()
    ensures { WholeIsDifference }
{}

/// The table of entries that are in key order, each key once, has just these entries.
pub fn tables_have_their_entries()
    ensures { TablesHaveTheirEntries }
{}

/// Where only some of the changes were made, all of them once more make what they would have made.
pub fn changes_may_be_made_again()
    ensures { ChangesMayBeMadeAgain }
{}

/// An example: one list sets a key, and a later one clears it and sets a higher key.
pub fn the_later_change_stands()
    ensures { LaterChangeStands }
{}
