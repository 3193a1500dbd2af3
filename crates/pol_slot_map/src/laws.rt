//! Laws of two takes of one endpoint, over the definitions alone. Each function does nothing: its contract is the law.
ghost use Rattle.std.specs.Prelude.{◌≡◌, ◌≤◌, ℕ, List, length, take};
ghost use Rattle.std.specs.Arc.{arc_value};
ghost use Rattle.std.specs.List.{Contains};
ghost use Rattle.pol_set_moves.specs.Changes.{state_at};
ghost use Rattle.pol_set_moves.specs.Moves.{TellsMoves};
ghost use Rattle.pol_kept_map.specs.Applies.{PlacesDiffer};
ghost use Rattle.pol_kept_map.specs.Work.{AllListed, WorkOf};
ghost use Rattle.pol_distill.specs.Distilled.{filters_at};
ghost use Rattle.pol_model.specs.After.{state_of};
ghost use Rattle.pol_model.specs.declared.options.Options.{Options};
ghost use Rattle.pol_model.specs.declared.request.Request.{Request};
ghost use Rattle.pol_model.specs.declared.row.Endpoint.{Endpoint};
ghost use Rattle.pol_model.specs.declared.row.Stamped.{Stamped as OnePolicy};
ghost use Rattle.pol_model.specs.Selects.{set_at};
ghost use Rattle.pol_sets.specs.Sets.{set_given};
ghost use Rattle.pol_taken.specs.declared.taken.Taken.{Taken as OneTaken};
ghost use Rattle.pol_taken.specs.OfState.{IsTakenOf};
ghost use Rattle.pol_slot_map.specs.Follow.{MayApply};

/// No two filters of an endpoint stand at one place.
pub fn filters_stand_at_different_places()
    ensures { (options : Options) (requests : List Request) (endpoint : Endpoint)
        → PlacesDiffer (filters_at options (state_of options requests) endpoint) }
{}

/// A policy whose stamp is at most a revision was there at that revision, and so at each one since.
pub fn policies_stay_from_their_stamp_on()
    ensures { (options : Options) (requests : List Request) (revision : ℕ) (policy : OnePolicy)
        → revision ≤ length requests → policy.stamp ≤ revision → Contains (state_of options requests).policies policy
        → Contains (state_of options (take revision requests)).policies policy }
{}

/// What was taken of an endpoint, with the moves since an earlier revision, may be applied to a work of what the state at
/// that revision gave an endpoint.
pub fn takes_may_be_applied()
    ensures { (options : Options) (journal : List Request) (since : ℕ)
        → since ≤ length journal → (work : WorkOf) (row : Endpoint) (slot : ℕ) (taken : OneTaken)
        → work.filters ≡ filters_at options (state_at options journal since) row
        → AllListed (λ p. set_given work.rows p ≡ set_at (state_at options journal since).identities p) work.filters
        → IsTakenOf options (state_of options journal) slot taken
        → TellsMoves options journal since taken.sets taken.moves
        → MayApply work (arc_value taken.filters) taken.sets taken.moves }
{}
