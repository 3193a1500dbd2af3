//! What sections, modes and the order of prefixes mean, on small policies.
ghost use Rattle.std.specs.Prelude.{◌≡◌, ◌∷◌, [], None, Some, codes, true, false};
ghost use Rattle.pol_rule.specs.DefaultDeny.{nothing_said};
ghost use Rattle.pol_rule.specs.Prefixes.{policy_prefixes};
ghost use Rattle.pol_rule.specs.declared.policy.Section.TheVariants as section;
ghost use Rattle.pol_mapkey.specs.declared.Word.TheVariants.{Allowed, DeniedByDefault, DeniedByRule};
ghost use Rattle.pol_ports.specs.declared.Direction.{Direction as AnyDirection};
ghost use Rattle.pol_ports.specs.declared.Direction.TheVariants.{Egress, Ingress};
ghost use Rattle.pol_model.specs.declared.options.Mode.TheVariants.{Always as AlwaysMode, Default as DefaultMode, Never as NeverMode};
ghost use Rattle.pol_model.specs.declared.options.Options.{Options as AllOptions};
ghost use Rattle.pol_model.specs.declared.request.Request.TheVariants.{AddEndpoint, Apply, SetMode};
ghost use Rattle.pol_model_laws.specs.Examples.{adds, host_in, net, reserved, wide};
ghost use Rattle.pol_model_laws.specs.WorkedMaps.{app_is};
ghost use Rattle.model_examples.specs.Policies.{
  allows_told,
  covers_nothing,
  denies_told,
  first_net,
  many_prefixes,
  numbers_told,
  other_side,
  part,
  policy_of,
  saying,
  says,
  sections,
  word_for,
  words_in,
  words_said,
  words_under,
};

/// Each section alone: what it allows or denies, in which direction, and that it enforces that direction. A deny
/// section does so as an allow section does. A deny of a part beats an allow of all, in both directions.
pub fn sections_decide()
    ensures none { (options : AllOptions)
        → words_under options Ingress (sections [] [] [] []) ≡ Allowed ∷ Allowed ∷ Allowed ∷ [] }
    ensures ingress { (options : AllOptions) → words_under options Ingress (sections (net 1 ∷ []) [] [] [])
        ≡ Allowed ∷ DeniedByDefault ∷ DeniedByDefault ∷ [] }
    ensures ingress_alone { (options : AllOptions)
        → words_under options Egress (sections (net 1 ∷ []) [] [] []) ≡ Allowed ∷ Allowed ∷ Allowed ∷ [] }
    ensures ingress_deny { (options : AllOptions) → words_under options Ingress (sections [] (net 1 ∷ []) [] [])
        ≡ DeniedByRule ∷ DeniedByDefault ∷ DeniedByDefault ∷ [] }
    ensures ingress_deny_alone { (options : AllOptions)
        → words_under options Egress (sections [] (net 1 ∷ []) [] []) ≡ Allowed ∷ Allowed ∷ Allowed ∷ [] }
    ensures egress { (options : AllOptions) → words_under options Egress (sections [] [] (net 1 ∷ []) [])
        ≡ Allowed ∷ DeniedByDefault ∷ DeniedByDefault ∷ [] }
    ensures egress_alone { (options : AllOptions)
        → words_under options Ingress (sections [] [] (net 1 ∷ []) []) ≡ Allowed ∷ Allowed ∷ Allowed ∷ [] }
    ensures egress_deny { (options : AllOptions) → words_under options Egress (sections [] [] [] (net 1 ∷ []))
        ≡ DeniedByRule ∷ DeniedByDefault ∷ DeniedByDefault ∷ [] }
    ensures egress_deny_alone { (options : AllOptions)
        → words_under options Ingress (sections [] [] [] (net 1 ∷ [])) ≡ Allowed ∷ Allowed ∷ Allowed ∷ [] }
    ensures ingress_part { (options : AllOptions)
        → words_under options Ingress (sections (wide ∷ []) (net 1 ∷ []) [] [])
        ≡ Allowed ∷ DeniedByRule ∷ DeniedByDefault ∷ [] }
    ensures egress_part { (options : AllOptions) → words_under options Egress (sections [] [] (wide ∷ []) (net 1 ∷ []))
        ≡ Allowed ∷ DeniedByRule ∷ DeniedByDefault ∷ [] }
{}

/// What a rule's `enableDefaultDeny` says of a direction, there alone: true enforces it without a section, and false leaves
/// it open with any, where its denies still deny. Where it says nothing the sections say it, one that covers nothing too.
pub fn default_deny_is_said()
    ensures absent { (options : AllOptions) (dir : AnyDirection)
        → words_said options dir (saying nothing_said dir [] [] ∷ []) ≡ Allowed ∷ Allowed ∷ Allowed ∷ [] }
    ensures absent_allows { (options : AllOptions) (dir : AnyDirection)
        → words_said options dir (saying nothing_said dir first_net [] ∷ [])
        ≡ Allowed ∷ DeniedByDefault ∷ DeniedByDefault ∷ [] }
    ensures absent_denies { (options : AllOptions) (dir : AnyDirection)
        → words_said options dir (saying nothing_said dir [] first_net ∷ [])
        ≡ DeniedByRule ∷ DeniedByDefault ∷ DeniedByDefault ∷ [] }
    ensures absent_covers_nothing { (options : AllOptions) (dir : AnyDirection)
        → words_said options dir (saying nothing_said dir covers_nothing [] ∷ [])
        ≡ DeniedByDefault ∷ DeniedByDefault ∷ DeniedByDefault ∷ [] }
    ensures yes { (options : AllOptions) (dir : AnyDirection)
        → words_said options dir (saying (says dir true) dir [] [] ∷ [])
        ≡ DeniedByDefault ∷ DeniedByDefault ∷ DeniedByDefault ∷ [] }
    ensures yes_allows { (options : AllOptions) (dir : AnyDirection)
        → words_said options dir (saying (says dir true) dir first_net [] ∷ [])
        ≡ Allowed ∷ DeniedByDefault ∷ DeniedByDefault ∷ [] }
    ensures yes_denies { (options : AllOptions) (dir : AnyDirection)
        → words_said options dir (saying (says dir true) dir [] first_net ∷ [])
        ≡ DeniedByRule ∷ DeniedByDefault ∷ DeniedByDefault ∷ [] }
    ensures no { (options : AllOptions) (dir : AnyDirection)
        → words_said options dir (saying (says dir false) dir [] [] ∷ []) ≡ Allowed ∷ Allowed ∷ Allowed ∷ [] }
    ensures no_allows { (options : AllOptions) (dir : AnyDirection)
        → words_said options dir (saying (says dir false) dir first_net [] ∷ []) ≡ Allowed ∷ Allowed ∷ Allowed ∷ [] }
    ensures no_denies { (options : AllOptions) (dir : AnyDirection)
        → words_said options dir (saying (says dir false) dir [] first_net ∷ [])
        ≡ DeniedByRule ∷ Allowed ∷ Allowed ∷ [] }
    ensures no_covers_nothing { (options : AllOptions) (dir : AnyDirection)
        → words_said options dir (saying (says dir false) dir covers_nothing [] ∷ [])
        ≡ Allowed ∷ Allowed ∷ Allowed ∷ [] }
    ensures yes_of_the_other { (options : AllOptions) (dir : AnyDirection)
        → words_said options dir (saying (says (other_side dir) true) dir [] [] ∷ [])
        ≡ Allowed ∷ Allowed ∷ Allowed ∷ [] }
    ensures no_of_the_other { (options : AllOptions) (dir : AnyDirection)
        → words_said options dir (saying (says (other_side dir) false) dir first_net [] ∷ [])
        ≡ Allowed ∷ DeniedByDefault ∷ DeniedByDefault ∷ [] }
{}

/// One rule that puts a direction under default deny is enough, whatever other rules say, where it selects the endpoint. The
/// modes `always` and `never`, and identity 5, stand over all of them.
pub fn one_rule_that_says_so_is_enough()
    ensures no_and_yes { (options : AllOptions) (dir : AnyDirection)
        → words_said options dir (saying (says dir false) dir first_net [] ∷ saying (says dir true) dir [] [] ∷ [])
        ≡ Allowed ∷ DeniedByDefault ∷ DeniedByDefault ∷ [] }
    ensures no_and_a_section { (options : AllOptions) (dir : AnyDirection)
        → words_said options dir (saying (says dir false) dir first_net []
        ∷ saying nothing_said dir covers_nothing [] ∷ []) ≡ Allowed ∷ DeniedByDefault ∷ DeniedByDefault ∷ [] }
    ensures yes_to_others { (options : AllOptions) (dir : AnyDirection)
        → words_said options dir (record (saying (says dir true) dir [] []) { subject = app_is (codes "b") ∷ [] } ∷ [])
        ≡ Allowed ∷ Allowed ∷ Allowed ∷ [] }
    ensures always { (options : AllOptions) (dir : AnyDirection)
        → words_in AlwaysMode options dir (policy_of (codes "p") (saying (says dir false) dir first_net [] ∷ []))
        ≡ Allowed ∷ DeniedByDefault ∷ DeniedByDefault ∷ [] }
    ensures never { (options : AllOptions) (dir : AnyDirection)
        → words_in NeverMode options dir (policy_of (codes "p") (saying (says dir true) dir [] first_net ∷ []))
        ≡ Allowed ∷ Allowed ∷ Allowed ∷ [] }
    ensures init { (options : AllOptions) (dir : AnyDirection) → word_for
        (codes "a") options (SetMode DefaultMode ∷ AddEndpoint (codes "a") (reserved (codes "init")) (host_in 1)
        ∷ Apply (policy_of (codes "p") (saying (says dir false) dir [] [] ∷ [])) ∷ []) dir 9 ≡ Some DeniedByDefault }
{}

/// An endpoint of identity 5 is enforced in both directions by mode `default`, without any policy. Another one isn't.
/// The local host may come in where the options say so, and nothing of it may be reached.
pub fn init_is_enforced()
    ensures init_in { (options : AllOptions) → word_for (codes "a") options (SetMode DefaultMode
        ∷ AddEndpoint (codes "a") (reserved (codes "init")) (host_in 1) ∷ []) Ingress 9 ≡ Some DeniedByDefault }
    ensures init_out { (options : AllOptions) → word_for (codes "a") options (SetMode DefaultMode
        ∷ AddEndpoint (codes "a") (reserved (codes "init")) (host_in 1) ∷ []) Egress 9 ≡ Some DeniedByDefault }
    ensures init_never { (options : AllOptions) → word_for (codes "a") options (SetMode NeverMode
        ∷ AddEndpoint (codes "a") (reserved (codes "init")) (host_in 1) ∷ []) Ingress 9 ≡ Some Allowed }
    ensures other_in { (options : AllOptions)
        → word_for (codes "a") options (SetMode DefaultMode ∷ adds (codes "a") 1 ∷ []) Ingress 9 ≡ Some Allowed }
    ensures other_out { (options : AllOptions)
        → word_for (codes "a") options (SetMode DefaultMode ∷ adds (codes "a") 1 ∷ []) Egress 9 ≡ Some Allowed }
    ensures always_in { (options : AllOptions)
        → word_for (codes "a") options (SetMode AlwaysMode ∷ adds (codes "a") 1 ∷ []) Ingress 9 ≡ Some DeniedByDefault }
    ensures always_out { (options : AllOptions)
        → word_for (codes "a") options (SetMode AlwaysMode ∷ adds (codes "a") 1 ∷ []) Egress 9 ≡ Some DeniedByDefault }
    ensures host_in { word_for (codes "a") (record { mode = AlwaysMode; localhost = true; map_max = None })
        (adds (codes "a") 1 ∷ []) Ingress 1 ≡ Some Allowed }
    ensures host_out { word_for (codes "a") (record { mode = AlwaysMode; localhost = true; map_max = None })
        (adds (codes "a") 1 ∷ []) Egress 1 ≡ Some DeniedByDefault }
    ensures host_by_policy { word_for (codes "a") (record { mode = AlwaysMode; localhost = false; map_max = None })
        (adds (codes "a") 1 ∷ []) Ingress 1 ≡ Some DeniedByDefault }
{}

/// The prefixes of a policy are held in document order: rule by rule, section by section, entry by entry, item by item,
/// and each item's exceptions behind it. Each takes the least free number, once, at its first place.
pub fn prefixes_are_in_order()
    ensures order { policy_prefixes many_prefixes
        ≡ net 9 ∷ part 9 2 ∷ part 9 1 ∷ net 3 ∷ part 3 1 ∷ net 7 ∷ net 2 ∷ net 8 ∷ net 1 ∷ net 6 ∷ wide ∷ [] }
    ensures numbers { (options : AllOptions) → numbers_told options many_prefixes ≡ (net 9, 16777217)
        ∷ (part 9 2, 16777218) ∷ (part 9 1, 16777219) ∷ (net 3, 16777220) ∷ (part 3 1, 16777221) ∷ (net 7, 16777222)
        ∷ (net 2, 16777223) ∷ (net 8, 16777224) ∷ (net 1, 16777225) ∷ (net 6, 16777226) ∷ (wide, 16777227) ∷ [] }
{}

/// What covers a packet is told policy by policy, as their keys came, rule by rule and entry by entry: rules are counted
/// over the policy, also those of other endpoints, and entries in their section.
pub fn places_are_in_order()
    ensures allows_in { (options : AllOptions) → allows_told options Ingress ≡ Some ((codes "q", 0, section.Ingress, 0)
        ∷ (codes "q", 0, section.Ingress, 2) ∷ (codes "q", 2, section.Ingress, 0) ∷ (codes "q", 2, section.Ingress, 2)
        ∷ (codes "p", 0, section.Ingress, 0) ∷ (codes "p", 0, section.Ingress, 2) ∷ []) }
    ensures denies_in { (options : AllOptions)
        → denies_told options Ingress ≡ Some ((codes "q", 0, section.IngressDeny, 0)
        ∷ (codes "q", 2, section.IngressDeny, 0) ∷ (codes "p", 0, section.IngressDeny, 0) ∷ []) }
    ensures allows_out { (options : AllOptions) → allows_told options Egress ≡ Some ((codes "q", 0, section.Egress, 0)
        ∷ (codes "q", 2, section.Egress, 0) ∷ (codes "p", 0, section.Egress, 0) ∷ []) }
    ensures denies_out { (options : AllOptions) → denies_told options Egress
        ≡ Some ((codes "q", 0, section.EgressDeny, 0) ∷ (codes "q", 0, section.EgressDeny, 2)
        ∷ (codes "q", 2, section.EgressDeny, 0) ∷ (codes "q", 2, section.EgressDeny, 2)
        ∷ (codes "p", 0, section.EgressDeny, 0) ∷ (codes "p", 0, section.EgressDeny, 2) ∷ []) }
{}
