//! Which hints a session puts, and what lacks one of its conditions.
ghost use Rattle.std.specs.Prelude.{[], ◌∷◌};
ghost use Rattle.pol_answer.specs.declared.answer.Answer.TheVariants as answer;
ghost use Rattle.pol_hints.specs.Passes.{Name};
ghost use Rattle.pol_hints.specs.declared.standing.Share.{Share};
ghost use Rattle.pol_hints.specs.declared.turn.Turn.TheVariants.{Put};
ghost use Rattle.pol_run.specs.ExampleLines.{first_number, unlimited};
ghost use Rattle.pol_sessions.specs.Hinting.{HasHintedUntil, HaveHinted};
ghost use Rattle.session_examples.specs.Hints.{pass};
ghost use Rattle.session_examples.specs.Stopped.{added, adds, another_pass, looks, new_pass};

/// A request that was committed puts a hint for the one slot in use, and a question puts none ('profile').
pub fn lines_that_hint()
    ensures is { (queue : Name) (share : Share) → HaveHinted unlimited 4 added
        ((adds, answer.Committed 1 first_number) ∷ (looks, answer.NoEndpoint 0) ∷ [])
        (pass queue share [] 0) (pass queue share (Put 0 ∷ []) 1) }
    ensures none_is_put { (queue : Name) (share : Share) → HaveHinted unlimited 4 added
        ((adds, answer.Committed 1 first_number) ∷ []) (pass queue share [] 0) (pass queue share [] 0) → ⊥ }
    ensures no_commit { (queue : Name) (share : Share) → HaveHinted unlimited 4 []
        ((adds, answer.Committed 1 first_number) ∷ []) (pass queue share [] 0) (pass queue share [] 0) → ⊥ }
    ensures put_unasked { (queue : Name) (share : Share) → HaveHinted unlimited 4 added
        ((looks, answer.NoEndpoint 0) ∷ []) (pass queue share [] 0) (pass queue share (Put 0 ∷ []) 1) → ⊥ }
    ensures put_for_no_line { (queue : Name) (share : Share) → HaveHinted unlimited 4 added
        [] (pass queue share [] 0) (pass queue share (Put 0 ∷ []) 1) → ⊥ }
{}

/// A session that ended for want of memory put none there, and stopped ('profile').
pub fn sessions_that_hint_until()
    ensures is { (queue : Name) (share : Share) → HasHintedUntil unlimited 4 new_pass (adds ∷ []) new_pass
        (pass queue share [] 0) (pass queue share [] 0) }
    ensures not_stopped { (queue : Name) (share : Share) → HasHintedUntil unlimited 4 new_pass [] another_pass
        (pass queue share [] 0) (pass queue share [] 0) → ⊥ }
    ensures put_there { (queue : Name) (share : Share) → HasHintedUntil unlimited 4 new_pass [] new_pass
        (pass queue share [] 0) (pass queue share (Put 0 ∷ []) 1) → ⊥ }
{}
