//! In what order the filters of an endpoint stand, and which of its directions are enforced.
ghost use Rattle.std.specs.Prelude.{◌≡◌, [], ◌∷◌, codes, true, false, None, Some};
ghost use Rattle.pol_ports.specs.declared.Direction.TheVariants.{Egress, Ingress};
ghost use Rattle.pol_rule.specs.declared.policy.Section.TheVariants as section;
ghost use Rattle.engine_examples.specs.Filters.{covering, covers_nothing, enforced_told, filters_told, saying, says};

/// Filters stand policy by policy, as their keys came, rule by rule, those that allow before those that deny, entry by entry;
/// an entry that covers nothing gives none, and is counted ('profile').
pub fn filters_are_in_order()
    ensures into { filters_told Ingress ≡ (codes "q", 0, section.Ingress, 0, false, 7)
        ∷ (codes "q", 0, section.Ingress, 2, false, 7)
        ∷ (codes "q", 0, section.IngressDeny, 0, true, 7) ∷ (codes "q", 0, section.IngressDeny, 1, true, 7)
        ∷ (codes "q", 2, section.Ingress, 0, false, 7) ∷ (codes "q", 2, section.Ingress, 2, false, 7)
        ∷ (codes "q", 2, section.IngressDeny, 0, true, 7) ∷ (codes "q", 2, section.IngressDeny, 1, true, 7)
        ∷ (codes "p", 0, section.Ingress, 0, false, 3) ∷ (codes "p", 0, section.Ingress, 2, false, 3)
        ∷ (codes "p", 0, section.IngressDeny, 0, true, 3) ∷ (codes "p", 0, section.IngressDeny, 1, true, 3) ∷ [] }
    ensures out_of { filters_told Egress
        ≡ (codes "q", 0, section.Egress, 0, false, 7) ∷ (codes "q", 0, section.EgressDeny, 1, true, 7)
        ∷ (codes "q", 2, section.Egress, 0, false, 7) ∷ (codes "q", 2, section.EgressDeny, 1, true, 7)
        ∷ (codes "p", 0, section.Egress, 0, false, 3) ∷ (codes "p", 0, section.EgressDeny, 1, true, 3) ∷ [] }
{}

/// A direction is enforced by what the rule's member says of it, and by a section of it that isn't empty where the member
/// says nothing (Cilium, Policy Enforcement Modes).
pub fn members_enforce()
    ensures nothing { enforced_told (saying (says None None) [] []) ≡ (false, false) }
    ensures by_allows { enforced_told (saying (says None None) covering []) ≡ (true, true) }
    ensures by_denies { enforced_told (saying (says None None) [] covering) ≡ (true, true) }
    ensures by_what_covers_nothing { enforced_told (saying (says None None) (covers_nothing ∷ []) []) ≡ (true, true) }
    ensures yes_in { enforced_told (saying (says (Some true) None) [] []) ≡ (true, false) }
    ensures yes_out { enforced_told (saying (says None (Some true)) [] []) ≡ (false, true) }
    ensures no_in { enforced_told (saying (says (Some false) None) covering covering) ≡ (false, true) }
    ensures no_out { enforced_told (saying (says None (Some false)) covering covering) ≡ (true, false) }
{}
