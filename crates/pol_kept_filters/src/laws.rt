//! Laws of filters that are kept, each the contract of a function that does nothing.
ghost use Rattle.std.specs.Prelude.{◌≡◌, Bool, List, false, IfSome};
ghost use Rattle.pol_labels.specs.declared.label.Label.{Label};
ghost use Rattle.pol_rule.specs.declared.policy.PolicyKey.{PolicyKey};
ghost use Rattle.pol_model.specs.declared.options.Mode.{Mode};
ghost use Rattle.pol_model.specs.declared.row.Stamped.{Stamped};
ghost use Rattle.pol_model.specs.Policies.{applied, policy_at, removed};
ghost use Rattle.pol_filters.specs.Resolved.{filters_for};
ghost use Rattle.pol_kept_filters.specs.declared.kept.Kept.{Kept};
ghost use Rattle.pol_kept_filters.specs.Kept.{AreKeptOf, KeysDiffer, selects, without_old, without_selected};

/// A policy that selects no label set changes no filters of it, whether it comes, in the place of one that doesn't select it
/// either, or goes.
pub fn filters_are_of_policies_that_select()
    ensures comes { (policies : List Stamped) (new : Stamped) (labels : List Label) (mode : Mode) (localhost : Bool)
        → selects labels new.policy ≡ false
        → IfSome (policy_at new.policy.key policies) (λ old. selects labels old.policy ≡ false)
        → filters_for (applied new policies) labels mode localhost ≡ filters_for policies labels mode localhost }
    ensures goes { (policies : List Stamped) (key : PolicyKey) (labels : List Label) (mode : Mode) (localhost : Bool)
        → KeysDiffer policies → IfSome (policy_at key policies) (λ old. selects labels old.policy ≡ false)
        → filters_for (removed key policies) labels mode localhost ≡ filters_for policies labels mode localhost }
{}

/// What is left, once what a policy selects was forgotten, is kept of the policies with it, or without it.
pub fn what_is_left_is_kept()
    ensures comes { (policies : List Stamped) (new : Stamped) (mode : Mode) (rows : List Kept)
        → AreKeptOf policies mode rows → AreKeptOf (applied new policies) mode
        (without_old (policy_at new.policy.key policies) (without_selected new.policy rows)) }
    ensures goes { (policies : List Stamped) (key : PolicyKey) (mode : Mode) (rows : List Kept)
        → KeysDiffer policies → AreKeptOf policies mode rows
        → AreKeptOf (removed key policies) mode (without_old (policy_at key policies) rows) }
{}
