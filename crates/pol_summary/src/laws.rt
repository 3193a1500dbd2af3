//! Laws of summaries, over the definitions alone.
//! Each function does nothing: its contract is the law.
ghost use Rattle.std.specs.Prelude.{◌≡◌, ℕ, ◌+◌, ◌*◌, ◌/◌, List, Option};
ghost use Rattle.pol_answer.specs.declared.answer.Answer.{Answer as OneAnswer};
ghost use Rattle.pol_gen.specs.Generated.{generated};
ghost use Rattle.pol_generated.specs.Maps.{HasRoom, most_entries};
ghost use Rattle.pol_generated.specs.OneRun.{IsRunOfRounds};
ghost use Rattle.pol_model.specs.declared.options.Options.{Options as AllOptions};
ghost use Rattle.pol_summary.specs.Summary.{count_of, summary, summary_text};
ghost use Rattle.pol_summary.specs.declared.summary.AnswerKind.TheVariants as kind;
ghost use Rattle.pol_run.specs.Run.{readings_of};
ghost use Rattle.pol_run.specs.Serial.{serial_answers};

/// A generated script has one summary: where maps have no limit, or one of 1,923 entries at least, whatever answers make it a
/// run have the summary that a scan of the lines in order counts. And that one doesn't depend on the limit ('profile').
pub fn generated_scripts_have_one_summary()
    ensures one { (options : AllOptions) (n : ℕ) (answers : List OneAnswer)
        → HasRoom most_entries options → IsRunOfRounds options n answers → summary_text answers ≡ summary options n }
    ensures limit { (options : AllOptions) (limit : Option ℕ) (n : ℕ)
        → summary (record options { map_max = limit }) n ≡ summary options n }
{}

/// What a summary counts: 32 commits and one for each round, no refusal, and 32 verdicts for each ten rounds, the last of
/// them perhaps begun ('profile').
pub fn summaries_add_up()
    ensures commits { (options : AllOptions) (n : ℕ)
        → count_of kind.Commit (serial_answers options (readings_of (generated n))) ≡ 32 + n }
    ensures refusals { (options : AllOptions) (n : ℕ)
        → count_of kind.Refusal (serial_answers options (readings_of (generated n))) ≡ 0 }
    ensures verdicts { (options : AllOptions) (n : ℕ)
        → count_of kind.Allowed (serial_answers options (readings_of (generated n))) + count_of kind.DeniedByRule
        (serial_answers options (readings_of (generated n))) + count_of kind.DeniedByDefault
        (serial_answers options (readings_of (generated n))) ≡ 32 * ((n + 9) / 10) }
{}
