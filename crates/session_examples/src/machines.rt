//! What a serial run of the machine answers and costs, and what lacks a condition of it.
ghost use Rattle.std.specs.Prelude.{◌≡◌, ℕ, [], ◌∷◌, Some};
ghost use Rattle.pol_history.specs.ExampleEvents.{add_web, at_most};
ghost use Rattle.pol_history.specs.Machine.{machine_after, machine_start};
ghost use Rattle.pol_history.specs.declared.machine.Event.TheVariants as step;
ghost use Rattle.pol_history.specs.declared.machine.Reply.TheVariants as reply;
ghost use Rattle.pol_machine.specs.Cost.{Costs};
ghost use Rattle.pol_machine.specs.Serial.{IsSaid, ListsRows, StandsWithin};
ghost use Rattle.pol_machine.specs.Stands.{Stands, Stored};
ghost use Rattle.pol_machine.specs.declared.asked.Asked.TheVariants.{Commit, Explain, Look, Sync};
ghost use Rattle.pol_machine.specs.declared.asked.SerialAnswer.TheVariants.{Replied, Synced, Traced};
ghost use Rattle.pol_model.specs.After.{start};
ghost use Rattle.pol_model.specs.State.{State as OneState};
ghost use Rattle.pol_model.specs.declared.options.Options.{Options as AllOptions};
ghost use Rattle.pol_model.specs.declared.request.Query.{Query as OneQuery};
ghost use Rattle.pol_run.specs.ExampleLines.{db, packet_to, web};
ghost use Rattle.session_examples.specs.Machines.{added, allowed_trace, db_row, machine_at, one_full, row, two_full, web_row, with_a_peer};

/// Rows are those of the live endpoints whose maps are too large, by name ('profile').
pub fn rows_are_listed()
    ensures one { ListsRows (at_most 1) one_full (row ∷ []) }
    ensures two { ListsRows (at_most 1) two_full (db_row ∷ web_row ∷ []) }
    ensures lacks_one { ListsRows (at_most 1) one_full [] → ⊥ }
    ensures by_slot { ListsRows (at_most 1) two_full (web_row ∷ db_row ∷ []) → ⊥ }
{}

/// A synchronisation tells the revision at which it was asked for, and the rows once each slot was taken and finished ('profile').
pub fn syncs_tell_revisions()
    ensures is { IsSaid (at_most 2) (machine_at added) Sync (Synced 1 []) }
    ensures another_revision { IsSaid (at_most 2) (machine_at added) Sync (Synced 0 []) → ⊥ }
    ensures with_a_row { IsSaid (at_most 1) (machine_at added) Sync (Synced 1 (row ∷ [])) }
    ensures without_it { IsSaid (at_most 1) (machine_at added) Sync (Synced 1 []) → ⊥ }
    ensures of_another_kind { IsSaid (at_most 2) (machine_at added) Sync (Replied reply.Idle) → ⊥ }
{}

/// A commit and a look-up are told the machine's reply. Why a packet is allowed is told at the present revision, and so is that no
/// endpoint of the query's name is live ('profile').
pub fn questions_are_answered()
    ensures commit { IsSaid (at_most 2) machine_start
        (Commit add_web) (Replied (reply.Committed (record { revision = 1; identity = Some 256; slots = 1 }))) }
    ensures another_revision { IsSaid (at_most 2) machine_start
        (Commit add_web) (Replied (reply.Committed (record { revision = 2; identity = Some 256; slots = 1 }))) → ⊥ }
    ensures look { IsSaid (at_most 2) (machine_at added) (Look (packet_to web)) (Replied (reply.NotYet 1)) }
    ensures looks_for_nobody { IsSaid (at_most 2)
        (machine_at added) (Look (packet_to web)) (Replied (reply.NoEndpoint 1)) → ⊥ }
    ensures why { IsSaid (at_most 2) (machine_at added) (Explain (packet_to web)) (Traced 1 allowed_trace) }
    ensures why_before { IsSaid (at_most 2) (machine_at added) (Explain (packet_to web)) (Traced 0 allowed_trace) → ⊥ }
    ensures nobody { IsSaid (at_most 2) (machine_at added) (Explain (packet_to db)) (Replied (reply.NoEndpoint 1)) }
    ensures nobody_before { IsSaid (at_most 2)
        (machine_at added) (Explain (packet_to db)) (Replied (reply.NoEndpoint 0)) → ⊥ }
{}

/// What is left after want of memory is a machine after a beginning of the events, not after others ('profile').
pub fn beginnings_are_left()
    ensures not_begun { (new : Stored) → StandsWithin (at_most 2) machine_start [] new
        → Stands new (machine_after (at_most 2) (step.Commit add_web ∷ [])) → ⊥ }
{}

/// A look-up costs 36 steps at most, a take and a finish none, and a commit one for each label peer that policies list ('profile').
pub fn steps_cost()
    ensures look { (s : OneState) (query : OneQuery) → Costs s (step.Look query) 0 36 }
    ensures dear_look { (s : OneState) (query : OneQuery) → Costs s (step.Look query) 0 37 → ⊥ }
    ensures take { (s : OneState) → Costs s (step.Take 0) 5 5 }
    ensures dear_take { (s : OneState) → Costs s (step.Take 0) 5 6 → ⊥ }
    ensures finish { (s : OneState) → Costs s (step.Finish 0) 5 5 }
    ensures dear_finish { (s : OneState) → Costs s (step.Finish 0) 5 6 → ⊥ }
    ensures commit { (options : AllOptions) → Costs (start options) (step.Commit add_web) 5 5 }
    ensures dear_commit { (options : AllOptions) → Costs (start options) (step.Commit add_web) 5 6 → ⊥ }
    ensures commit_with_a_peer { (options : AllOptions) → Costs (with_a_peer options) (step.Commit add_web) 5 6 }
    ensures dear_commit_with_a_peer { (options : AllOptions)
        → Costs (with_a_peer options) (step.Commit add_web) 5 7 → ⊥ }
{}
