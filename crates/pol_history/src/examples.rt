//! Small histories: a legal one, and some that are not. Small runs of the machine, and a meeting of two passes.
ghost use Rattle.std.specs.Prelude.{◌≡◌, [], ◌∷◌};
ghost use Rattle.pol_history.specs.ExampleEvents.{at_most};
ghost use Rattle.pol_history.specs.Legal.{IsLegal};
ghost use Rattle.pol_history.specs.Machine.{replies_to};
ghost use Rattle.pol_history.specs.Meet.{HaveMet, Learns};
ghost use Rattle.pol_history.specs.SmallHistories as history;
ghost use Rattle.pol_history.specs.SmallMeetings as passes;
ghost use Rattle.pol_history.specs.SmallRuns as runs;

/// Two passes, a map that is too large, one that is published, and an endpoint that comes back.
pub fn legal()
    ensures { IsLegal (at_most 1) history.of_two_passes }
{}

/// Commits of requests with a fault, and of a number that isn't the pass's next ('profile').
pub fn commits()
    ensures added_twice { IsLegal (at_most 2) history.added_twice → ⊥ }
    ensures skipped_number { IsLegal (at_most 2) history.skipped_number → ⊥ }
    ensures number_of_another { IsLegal (at_most 2) history.number_of_another → ⊥ }
{}

/// Reports of an endpoint that isn't live, ahead of the commits, and older than what was reported or committed before
/// ('profile').
pub fn reports()
    ensures of_the_gone { IsLegal (at_most 2) history.report_of_the_gone → ⊥ }
    ensures of_the_one_before { IsLegal (at_most 2) history.report_of_the_one_before → ⊥ }
    ensures ahead { IsLegal (at_most 2) history.report_ahead → ⊥ }
    ensures older { IsLegal (at_most 2) history.older_report → ⊥ }
    ensures same { IsLegal (at_most 2) history.same_report → ⊥ }
    ensures older_than_commits { IsLegal (at_most 2) history.older_than_commits → ⊥ }
{}

/// Maps that aren't the canonical one, or are published or blocked against the limit, and a wrong count ('profile').
pub fn maps()
    ensures of_two_revisions { IsLegal (at_most 2) history.map_of_two_revisions → ⊥ }
    ensures above_the_limit { IsLegal (at_most 1) history.map_above_the_limit → ⊥ }
    ensures other_count { IsLegal (at_most 1) history.other_count → ⊥ }
    ensures blocked_that_fits { IsLegal (at_most 2) history.blocked_that_fits → ⊥ }
{}

/// What the machine replies, step by step ('profile').
pub fn replies()
    ensures taken_before { replies_to (at_most 16384) runs.taken_before ≡ runs.taken_before_replies }
    ensures too_large { replies_to (at_most 1) runs.too_large ≡ runs.too_large_replies }
    ensures taken_again { replies_to (at_most 2) runs.taken_again ≡ runs.taken_again_replies }
{}

/// Two passes that meet have both seen what either had, and each has its own commits. They haven't met where nothing was
/// done, where one took a commit of the other for its own, nor where a commit is of a pass that wasn't handed out
/// ('profile').
pub fn meetings()
    ensures met { HaveMet (at_most 2) (0 ∷ 1 ∷ []) (passes.first_has passes.first_after) }
    ensures nothing_done { HaveMet (at_most 2) (0 ∷ 1 ∷ []) (passes.first_has passes.first_before) → ⊥ }
    ensures took_anothers { HaveMet (at_most 2) (0 ∷ 1 ∷ []) (passes.first_has passes.first_with_both) → ⊥ }
    ensures not_handed_out { HaveMet (at_most 2) (0 ∷ []) (passes.first_has passes.first_after) → ⊥ }
{}

/// A pass that learns of another has seen what either had. It hasn't learned where it has seen less afterwards, where it
/// has seen no more, nor where it took a commit of the other for its own ('profile').
pub fn lessons()
    ensures learned { Learns (at_most 2) passes.first_before passes.both_commits passes.first_after }
    ensures seen_less { Learns (at_most 2) passes.first_after passes.one_commit passes.first_before → ⊥ }
    ensures seen_no_more { Learns (at_most 2) passes.first_before passes.both_commits passes.first_before → ⊥ }
    ensures took_anothers { Learns (at_most 2) passes.first_before passes.both_commits passes.first_with_both → ⊥ }
{}
