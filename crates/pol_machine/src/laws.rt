//! Laws of the machine, over the definitions alone. Each function does nothing: its contract is the law.
ghost use Rattle.std.specs.Prelude.{◌≡◌, ◌↔◌, ◌<◌, ◌^◌, List};
ghost use Rattle.pol_model.specs.declared.options.Options.{Options};
ghost use Rattle.pol_model.specs.declared.request.Query.{Query};
ghost use Rattle.pol_history.specs.declared.event.HistoryEvent.{HistoryEvent};
ghost use Rattle.pol_history.specs.Content.{content_of};
ghost use Rattle.pol_history.specs.Legal.{IsLegal};
ghost use Rattle.pol_history.specs.Look.{look};
ghost use Rattle.pol_history.specs.LookIn.{look_in};
ghost use Rattle.pol_history.specs.Machine.{AreOfPassZero, HasSteps, Machine as OneMachine};
ghost use Rattle.pol_machine.specs.Stands.{Stands, Stored, options_in};

/// **The law of histories.** A list of events is legal, with all its commits by pass 0, exactly where it is the history of some
/// steps of the machine. So what is legal is neither wider nor narrower than the machine ('profile').
pub fn law_of_histories()
    ensures { (options : Options) (history : List HistoryEvent)
        → (IsLegal options history × AreOfPassZero history) ↔ HasSteps options history }
{}

/// The machine that is stood for has a legal history, with all its commits by pass 0.
pub fn histories_are_legal()
    ensures legal { (s : Stored) (m : OneMachine) → Stands s m → IsLegal (options_in s) m.history }
    ensures by_zero { (s : Stored) (m : OneMachine) → Stands s m → AreOfPassZero m.history }
{}

/// A look-up in a legal history is told by its content alone: by the live endpoints' published maps, and what each address was
/// at their revisions ('profile').
pub fn looks_are_told()
    ensures { (options : Options) (history : List HistoryEvent) (query : Query) → query.port < 2 ^ 16
        → IsLegal options history → look_in (content_of options history) query ≡ look options history query }
{}
