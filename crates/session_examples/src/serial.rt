//! What the lines of a serial run are answered, and answers that lack a condition of it.
ghost use Rattle.std.specs.Prelude.{[], ◌∷◌, None};
ghost use Rattle.pol_answer.specs.declared.answer.Answer.TheVariants as answer;
ghost use Rattle.pol_history.specs.ExampleEvents.{at_most};
ghost use Rattle.pol_history.specs.Machine.{machine_start};
ghost use Rattle.pol_mapkey.specs.declared.Word.TheVariants.{Allowed, DeniedByDefault};
ghost use Rattle.pol_run.specs.ExampleLines.{add_web, first_number, unlimited};
ghost use Rattle.pol_script.specs.declared.line_fault.LineFault.TheVariants.{Json, NoOp};
ghost use Rattle.pol_serial_run.specs.SerialRun.{IsLineAnswer, IsSerial};
ghost use Rattle.session_examples.specs.Machines.{added, allowed_trace, changed, denied_trace, machine_at, row};
ghost use Rattle.session_examples.specs.Serial as line;

/// A line is answered by the machine there, and a `phase` line by the phase that it ends: a look-up by the published map, an explanation
/// by the present state, and a sync with the rows that stand once each slot was taken and finished ('profile').
pub fn lines_are_answered()
    ensures faulty { IsLineAnswer unlimited machine_start 1 line.faulty (answer.BadLine Json) }
    ensures another_fault { IsLineAnswer unlimited machine_start 1 line.faulty (answer.BadLine NoOp) → ⊥ }
    ensures commit { IsLineAnswer unlimited machine_start 1 line.adds (answer.Committed 1 first_number) }
    ensures commit_without_number { IsLineAnswer unlimited machine_start 1 line.adds (answer.Committed 1 None) → ⊥ }
    ensures look { IsLineAnswer unlimited (machine_at changed) 1 line.looks (answer.Verdict 1 Allowed) }
    ensures look_at_the_rules { IsLineAnswer unlimited
        (machine_at changed) 1 line.looks (answer.Verdict 2 DeniedByDefault) → ⊥ }
    ensures why { IsLineAnswer unlimited (machine_at changed) 1 line.asks_why (answer.Traced 2 denied_trace) }
    ensures why_by_the_map { IsLineAnswer unlimited (machine_at changed) 1 line.asks_why (answer.Traced 1 allowed_trace)
        → ⊥ }
    ensures sync { IsLineAnswer (at_most 1) (machine_at added) 1 line.syncs (answer.Synced 1 (row ∷ [])) }
    ensures sync_before { IsLineAnswer (at_most 1) (machine_at added) 1 line.syncs (answer.Synced 0 (row ∷ [])) → ⊥ }
    ensures sync_without_row { IsLineAnswer (at_most 1) (machine_at added) 1 line.syncs (answer.Synced 1 []) → ⊥ }
    ensures sync_of_another_kind { IsLineAnswer (at_most 1) (machine_at added) 1 line.syncs (answer.Phase 1) → ⊥ }
    ensures phase { IsLineAnswer unlimited machine_start 2 line.ends (answer.Phase 2) }
    ensures another_phase { IsLineAnswer unlimited machine_start 2 line.ends (answer.Phase 1) → ⊥ }
{}

/// There is one answer for each line, by the machine and in the phase that the lines before have left: commits and syncs change the
/// machine, and other lines don't ('profile').
pub fn runs_go_on()
    ensures is { IsSerial unlimited [] (line.adds
        ∷ line.looks ∷ line.syncs ∷ line.looks ∷ line.ends ∷ line.ends ∷ []) (answer.Committed 1 first_number
        ∷ answer.NotYet 1 ∷ answer.Synced 1 [] ∷ answer.Verdict 1 Allowed ∷ answer.Phase 1 ∷ answer.Phase 2 ∷ []) }
    ensures nothing_else_changes { IsSerial unlimited
        (add_web ∷ []) (line.looks ∷ line.asks_why ∷ line.ends ∷ line.faulty ∷ line.looks ∷ []) (answer.NotYet 1
        ∷ answer.Traced 1 allowed_trace ∷ answer.Phase 1 ∷ answer.BadLine Json ∷ answer.NotYet 1 ∷ []) }
    ensures too_few { IsSerial unlimited [] (line.ends ∷ []) [] → ⊥ }
    ensures too_many { IsSerial unlimited [] [] (answer.Phase 1 ∷ []) → ⊥ }
    ensures one_phase { IsSerial unlimited [] (line.ends ∷ line.ends ∷ []) (answer.Phase 1 ∷ answer.Phase 1 ∷ []) → ⊥ }
    ensures not_committed { IsSerial unlimited
        [] (line.adds ∷ line.looks ∷ []) (answer.Committed 1 first_number ∷ answer.NoEndpoint 0 ∷ []) → ⊥ }
    ensures not_begun { IsSerial unlimited (add_web ∷ []) (line.looks ∷ []) (answer.NoEndpoint 0 ∷ []) → ⊥ }
    ensures not_published { IsSerial unlimited
        (add_web ∷ []) (line.syncs ∷ line.looks ∷ []) (answer.Synced 1 [] ∷ answer.NotYet 1 ∷ []) → ⊥ }
{}
