//! What a regeneration of a slot answers, and what no legal history has. The function does nothing: its contract is the law.
ghost use Rattle.pol_history.specs.ExampleEvents.{at_most};
ghost use Rattle.pol_model.specs.declared.options.Options.{Options as AllOptions};
ghost use Rattle.pol_node.specs.Finish.{HasRegenerated};
ghost use Rattle.pol_node.specs.declared.report.Regen.TheVariants as regen;

/// A regeneration's answer is told of a legal history: none of an endpoint that nobody added, and no map is too large that has as many
/// entries as maps may have ('profile').
pub fn regenerations_are_of_histories()
    ensures nobody { (options : AllOptions) → HasRegenerated options 0 regen.Gone }
    ensures before_any_commit { (options : AllOptions) → HasRegenerated options 0 (regen.Published 0) → ⊥ }
    ensures full_though_it_fits { HasRegenerated (at_most 2) 0 (regen.Full 1 2) → ⊥ }
{}
