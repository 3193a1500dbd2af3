//! Outputs that are runs. Most are of two sessions, and lines that are answered in input order don't give
//! them: a node whose sessions run at the same time may answer so.
ghost use Rattle.pol_run.specs.ExampleLines.{unlimited, one_entry, two_entries};
ghost use Rattle.pol_run.specs.RightRuns as right;
ghost use Rattle.pol_run.specs.Run.{IsRun};
ghost use Rattle.pol_run.specs.SerialLines.{IsSerial};
ghost use Rattle.pol_run.specs.Spots.{spots_of};

/// A session may be shown an older map, and an older revision, than another session has seen ('profile').
pub fn older_map()
    ensures run { IsRun unlimited (spots_of right.older_map) }
    ensures not_serial { IsSerial unlimited right.older_map → ⊥ }
{}

/// Commits of two sessions may have their numbers in another order than their lines ('profile').
pub fn interleaved()
    ensures run { IsRun unlimited (spots_of right.interleaved) }
    ensures not_serial { IsSerial unlimited right.interleaved → ⊥ }
{}

/// A row may be newer than its `synced` line ('profile').
pub fn newer_row()
    ensures run { IsRun one_entry (spots_of right.newer_row) }
    ensures not_serial { IsSerial one_entry right.newer_row → ⊥ }
{}

/// A `synced` line with a row of an endpoint shows no map of it ('profile').
pub fn row_gives_no_floor()
    ensures run { IsRun one_entry (spots_of right.row_gives_no_floor) }
    ensures not_serial { IsSerial one_entry right.row_gives_no_floor → ⊥ }
{}

/// An endpoint whose map fits at one of the revisions at which it may be published needs no row ('profile').
pub fn no_row_where_it_fits()
    ensures run { IsRun one_entry (spots_of right.no_row_where_it_fits) }
    ensures not_serial { IsSerial one_entry right.no_row_where_it_fits → ⊥ }
{}

/// Two endpoints of one name may have a row each ('profile').
pub fn rows_of_old_and_new()
    ensures run { IsRun one_entry (spots_of right.rows_of_old_and_new) }
    ensures not_serial { IsSerial one_entry right.rows_of_old_and_new → ⊥ }
{}

/// A map of as many entries as the limit says may be published ('profile').
pub fn map_of_the_limit()
    ensures { IsRun two_entries (spots_of right.map_of_the_limit) }
{}

/// A map of an endpoint that is gone, or of another, is none of a new endpoint ('profile').
pub fn new_endpoints()
    ensures { IsRun unlimited (spots_of right.new_endpoints) }
{}
