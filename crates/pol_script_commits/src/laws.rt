//! Laws of what is refused. Each function does nothing: its contract is the law.
ghost use Rattle.std.specs.Prelude.{◌≡◌, ℕ, Some};
ghost use Rattle.pol_answer.specs.declared.answer.Answer.{Answer as OneAnswer};
ghost use Rattle.pol_model.specs.declared.options.Options.{Options as AllOptions};
ghost use Rattle.pol_model.specs.State.{State};
ghost use Rattle.pol_run.specs.Serial.{answer_in, state_then};
ghost use Rattle.pol_run.specs.Spots.{Reading as OneReading};
ghost use Rattle.pol_script_commits.specs.Refused.{refused_in};

/// What a line is refused for is what it is answered where the lines of a script are answered in order, and it changes nothing.
pub fn refusals_are_answers()
    ensures answer { (options : AllOptions) (s : State) (phase : ℕ) (reading : OneReading) (found : OneAnswer)
        → refused_in s reading ≡ Some found → answer_in options s phase reading ≡ found }
    ensures stays { (s : State) (reading : OneReading) (found : OneAnswer)
        → refused_in s reading ≡ Some found → state_then s reading ≡ s }
{}
