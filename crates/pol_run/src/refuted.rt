//! Outputs that are not runs: a small one for each rule of the definition.
ghost use Rattle.std.specs.Prelude.{ℕ, List, []};
ghost use Rattle.pol_model.specs.declared.options.Options.{Options};
ghost use Rattle.pol_run.specs.ExampleLines.{unlimited, one_entry};
ghost use Rattle.pol_run.specs.Run.{IsRun, IsRunOf};
ghost use Rattle.pol_run.specs.Spots.{spots_of};
ghost use Rattle.pol_run.specs.WrongAnswers as answers;
ghost use Rattle.pol_run.specs.WrongCommits as commits;
ghost use Rattle.pol_run.specs.WrongMoments as moments;
ghost use Rattle.pol_run.specs.WrongRows as rows;
ghost use Rattle.pol_run.specs.WrongVerdicts as verdicts;

/// Commits that are no history: their numbers aren't 1 to n, each once, ascending in each session and
/// from phase to phase; or a request had a fault, or the printed identity is another ('profile').
pub fn commits()
    ensures repeated_number { IsRun unlimited (spots_of commits.repeated_number) → ⊥ }
    ensures repeated_later { IsRun unlimited (spots_of commits.repeated_later) → ⊥ }
    ensures gap { IsRun unlimited (spots_of commits.gap) → ⊥ }
    ensures from_zero { IsRun unlimited (spots_of commits.from_zero) → ⊥ }
    ensures descending_in_session { IsRun unlimited (spots_of commits.descending_in_session) → ⊥ }
    ensures descending_over_phases { IsRun unlimited (spots_of commits.descending_over_phases) → ⊥ }
    ensures faulty_commit { IsRun unlimited (spots_of commits.faulty_commit) → ⊥ }
    ensures other_number { IsRun unlimited (spots_of commits.other_number) → ⊥ }
{}

/// Verdicts of maps that are older than one that was seen, or older than the endpoint; of one that no
/// run could show yet, or of an endpoint that is gone; and a word that no scan gives ('profile').
pub fn verdicts()
    ensures older_than_sync { IsRun unlimited (spots_of verdicts.older_than_sync) → ⊥ }
    ensures older_than_phase_sync { IsRun unlimited (spots_of verdicts.older_than_phase_sync) → ⊥ }
    ensures going_back { IsRun unlimited (spots_of verdicts.going_back) → ⊥ }
    ensures going_back_over_phases { IsRun unlimited (spots_of verdicts.going_back_over_phases) → ⊥ }
    ensures older_than_endpoint { IsRun unlimited (spots_of verdicts.older_than_endpoint) → ⊥ }
    ensures verdict_ahead { IsRun unlimited (spots_of verdicts.verdict_ahead) → ⊥ }
    ensures verdict_for_the_gone { IsRun unlimited (spots_of verdicts.verdict_for_the_gone) → ⊥ }
    ensures other_word { IsRun unlimited (spots_of verdicts.other_word) → ⊥ }
{}

/// Where a map has one entry at most: a verdict of a larger one, and one that is older than a
/// `synced` line whose row is of another endpoint ('profile').
pub fn verdicts_of_large_maps()
    ensures over_the_limit { IsRun one_entry (spots_of verdicts.over_the_limit) → ⊥ }
    ensures older_than_sync_with_row { IsRun one_entry (spots_of verdicts.older_than_sync_with_row) → ⊥ }
{}

/// `notyet` after a map of the endpoint was seen, at a revision that is too old, and for an endpoint
/// that isn't live ('profile').
pub fn not_yets()
    ensures not_yet_after_verdict { IsRun unlimited (spots_of verdicts.not_yet_after_verdict) → ⊥ }
    ensures not_yet_after_phase_verdict { IsRun unlimited (spots_of verdicts.not_yet_after_phase_verdict) → ⊥ }
    ensures not_yet_after_sync { IsRun unlimited (spots_of verdicts.not_yet_after_sync) → ⊥ }
    ensures not_yet_after_phase_sync { IsRun unlimited (spots_of verdicts.not_yet_after_phase_sync) → ⊥ }
    ensures stale_not_yet { IsRun unlimited (spots_of verdicts.stale_not_yet) → ⊥ }
    ensures not_yet_of_none { IsRun unlimited (spots_of verdicts.not_yet_of_none) → ⊥ }
{}

/// Refusals for what a session has seen otherwise, for what it has still to commit, and for another
/// fault ('profile').
pub fn refusals()
    ensures stale_refusal { IsRun unlimited (spots_of moments.stale_refusal) → ⊥ }
    ensures stale_refusal_after_phase { IsRun unlimited (spots_of moments.stale_refusal_after_phase) → ⊥ }
    ensures refusal_ahead { IsRun unlimited (spots_of moments.refusal_ahead) → ⊥ }
    ensures other_fault { IsRun unlimited (spots_of moments.other_fault) → ⊥ }
{}

/// Traces of what a session has seen otherwise, or has still to commit, and a false one ('profile').
pub fn traces()
    ensures stale_trace { IsRun unlimited (spots_of moments.stale_trace) → ⊥ }
    ensures trace_ahead { IsRun unlimited (spots_of moments.trace_ahead) → ⊥ }
    ensures trace_ahead_of_phase { IsRun unlimited (spots_of moments.trace_ahead_of_phase) → ⊥ }
    ensures other_trace { IsRun unlimited (spots_of moments.other_trace) → ⊥ }
{}

/// A trace that is older than the revision that an answer of any kind has shown its session
/// ('profile').
pub fn traces_after_answers()
    ensures older_than_refusal { IsRun unlimited (spots_of moments.older_than_refusal) → ⊥ }
    ensures older_than_trace { IsRun unlimited (spots_of moments.older_than_trace) → ⊥ }
    ensures older_than_verdict { IsRun unlimited (spots_of moments.older_than_verdict) → ⊥ }
    ensures older_than_not_yet { IsRun unlimited (spots_of moments.older_than_not_yet) → ⊥ }
    ensures older_than_no_endpoint { IsRun unlimited (spots_of moments.older_than_no_endpoint) → ⊥ }
    ensures older_than_synced { IsRun unlimited (spots_of moments.older_than_synced) → ⊥ }
{}

/// A trace that is older than a row ('profile').
pub fn traces_after_rows()
    ensures { IsRun one_entry (spots_of moments.older_than_row) → ⊥ }
{}

/// `noendpoint` for an endpoint that the session has added ('profile').
pub fn no_endpoints()
    ensures stale_no_endpoint { IsRun unlimited (spots_of moments.stale_no_endpoint) → ⊥ }
    ensures no_endpoint_of_the_live { IsRun unlimited (spots_of moments.no_endpoint_of_the_live) → ⊥ }
{}

/// `synced` at a revision that is too old, or that the session has still to commit ('profile').
pub fn syncs()
    ensures stale_sync { IsRun unlimited (spots_of moments.stale_sync) → ⊥ }
    ensures sync_ahead { IsRun unlimited (spots_of moments.sync_ahead) → ⊥ }
{}

/// Where a map has one entry at most: `synced` without the row of a map that was too large all the
/// time ('profile').
pub fn missing_rows()
    ensures missing_row { IsRun one_entry (spots_of rows.missing_row) → ⊥ }
    ensures row_of_the_other_alone { IsRun one_entry (spots_of rows.row_of_the_other_alone) → ⊥ }
    ensures missing_before_commit { IsRun one_entry (spots_of rows.missing_before_commit) → ⊥ }
{}

/// Where a map has one entry at most: rows twice, in another order, or false ('profile').
pub fn rows()
    ensures doubled_row { IsRun one_entry (spots_of rows.doubled_row) → ⊥ }
    ensures doubled_later { IsRun one_entry (spots_of rows.doubled_later) → ⊥ }
    ensures unsorted_rows { IsRun one_entry (spots_of rows.unsorted_rows) → ⊥ }
    ensures unsorted_later { IsRun one_entry (spots_of rows.unsorted_later) → ⊥ }
    ensures unsorted_revisions { IsRun one_entry (spots_of rows.unsorted_revisions) → ⊥ }
    ensures other_size { IsRun one_entry (spots_of rows.other_size) → ⊥ }
    ensures older_row { IsRun one_entry (spots_of rows.older_row) → ⊥ }
    ensures row_ahead { IsRun one_entry (spots_of rows.row_ahead) → ⊥ }
    ensures row_of_a_map_that_fits { IsRun one_entry (spots_of rows.row_of_a_map_that_fits) → ⊥ }
    ensures row_of_none { IsRun one_entry (spots_of rows.row_of_none) → ⊥ }
{}

/// Phases that aren't counted from 1 ('profile').
pub fn phases()
    ensures first_phase_is_two { IsRun unlimited (spots_of answers.first_phase_is_two) → ⊥ }
    ensures second_phase_is_one { IsRun unlimited (spots_of answers.second_phase_is_one) → ⊥ }
{}

/// Answers of another kind than their lines ('profile').
pub fn kinds()
    ensures other_line_fault { IsRun unlimited (spots_of answers.other_line_fault) → ⊥ }
    ensures phase_for_sync { IsRun unlimited (spots_of answers.phase_for_sync) → ⊥ }
    ensures synced_for_phase { IsRun unlimited (spots_of answers.synced_for_phase) → ⊥ }
    ensures not_yet_for_trace { IsRun unlimited (spots_of answers.not_yet_for_trace) → ⊥ }
    ensures verdict_for_trace { IsRun unlimited (spots_of answers.verdict_for_trace) → ⊥ }
{}

/// A text without an answer to a line, and one with an answer to no line ('profile').
pub fn one_answer_each()
    ensures missing { (options : Options) → IsRunOf options answers.one_line [] 0 → ⊥ }
    ensures surplus { (options : Options) → IsRunOf options [] answers.a_phase 0 → ⊥ }
{}

/// Texts with another status: it is 1 where an answer is a refusal, `notyet` or `noendpoint`, else 0
/// ('profile').
pub fn statuses()
    ensures refusal { (options : Options) (script : List ℕ) → IsRunOf options script answers.a_refusal 0 → ⊥ }
    ensures not_yet { (options : Options) (script : List ℕ) → IsRunOf options script answers.a_not_yet 0 → ⊥ }
    ensures no_endpoint { (options : Options) (script : List ℕ) → IsRunOf options script answers.a_no_endpoint 0 → ⊥ }
    ensures none { (options : Options) → IsRunOf options [] [] 1 → ⊥ }
{}
