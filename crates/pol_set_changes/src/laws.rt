//! Laws of the log and of net changes, over the definitions alone.
ghost use Rattle.pol_set_changes.specs.Recorded.{KeptChangesTell, LogsKeepLast, SinceTellsDifference, StaysUnchanged};
ghost use Rattle.pol_set_changes.specs.Sets.{NetIsExact, NetsJoin, DifferencesLead};

/// A log keeps the last 65,536 of all changes that were ever recorded, and all where there are fewer. Its horizon is the
/// revision of the change that exactly 65,536 follow, 0 where there is none.
pub fn logs_keep_the_last_changes()
    ensures { LogsKeepLast }
{}

/// Since a revision that isn't below the horizon the kept changes have the net change that all changes have.
pub fn kept_changes_tell_what_all_do()
    ensures { KeptChangesTell }
{}

/// A log tells that a selector's set neither gained nor lost anything since the revision that `unchanged_since` gives, or any
/// later one. None of these is below the horizon.
pub fn a_set_is_unchanged_since_then()
    ensures { StaysUnchanged }
{}

/// Where each change gained numbers that the set didn't have and lost numbers that it had, their net change is the
/// difference of the set after them and before them: a number that came and went again is on neither side.
pub fn a_net_change_is_the_difference_of_two_sets()
    ensures { NetIsExact }
{}

/// The net change of two stretches of changes, one after the other, is their net changes joined.
pub fn net_changes_join()
    ensures { NetsJoin }
{}

/// The difference of two sets is a move that fits the one and leads to the other.
pub fn a_difference_leads_from_set_to_set()
    ensures { DifferencesLead }
{}

/// What a log tells since a revision is which numbers the set has now and didn't have then, and which it had then and
/// hasn't now: where its changes, from a set at the start on, each gained what it didn't have and lost what it had.
pub fn a_log_tells_how_a_set_differs()
    ensures { SinceTellsDifference }
{}
