//! Laws of what is taken, over the definitions alone. Each function does nothing: its contract is the law.
ghost use Rattle.std.specs.Prelude.{◌≡◌, ◌∷◌, ℕ, Bool, List, [], IsSome, codes, map};
ghost use Rattle.std.specs.Arc.{arc_value};
ghost use Rattle.std.specs.List.{AllByRecursion, flat_map};
ghost use Rattle.pol_addr.specs.Address.{addr_of_octets};
ghost use Rattle.pol_labels.specs.declared.label.Label.{Label as OneLabel};
ghost use Rattle.pol_model.specs.declared.options.Mode.{Mode};
ghost use Rattle.pol_model.specs.declared.options.Options.{Options};
ghost use Rattle.pol_model.specs.declared.row.Stamped.{Stamped as OnePolicy};
ghost use Rattle.pol_model.specs.declared.request.Request.{Request};
ghost use Rattle.pol_model.specs.After.{new_endpoint, start, state_of};
ghost use Rattle.pol_model.specs.PolicyMap.{policy_map};
ghost use Rattle.pol_model_laws.specs.WithoutFaults.{WithoutFaults};
ghost use Rattle.pol_model_laws.specs.WorkedMaps.{app_peer, namespace_label, ordinary, x_denied};
ghost use Rattle.pol_selcache.specs.Live.{Live as OneSelector, number_of};
ghost use Rattle.pol_rule.specs.Listed.{listed_peers};
ghost use Rattle.pol_peers.specs.References.{RefsOf};
ghost use Rattle.pol_filters.specs.Resolved.{filters_for};
ghost use Rattle.pol_distill.specs.Distilled.{distilled};
ghost use Rattle.pol_taken.specs.declared.taken.Taken.{Taken as OneTaken};
ghost use Rattle.pol_taken.specs.OfState.{IsTakenOf};
ghost use Rattle.pol_taken.specs.PeerRows.{filter_peers};

/// The canonical map of the filters and sets that are taken is the endpoint's policy map, in each state that requests
/// without faults led to.
pub fn what_is_taken_makes_the_policy_map()
    ensures { (options : Options) (requests : List Request) (slot : ℕ) (taken : OneTaken)
        → WithoutFaults options requests
        → IsTakenOf options (state_of options requests) slot taken → distilled (arc_value taken.filters) taken.sets
        ≡ policy_map options (state_of options requests) taken.endpoint }
{}

/// Each peer that an endpoint's filters list has a live selector, where each peer of the policies has as many references as
/// it stands there.
pub fn listed_peers_are_live()
    ensures { (policies : List OnePolicy) (labels : List OneLabel) (mode : Mode) (localhost : Bool)
        (live : List OneSelector) → RefsOf (flat_map (λ stamped. listed_peers stamped.policy) policies) live
        → AllByRecursion (λ p. IsSome (number_of p live)) (filter_peers (filters_for policies labels mode localhost)) }
{}

/// What is taken where two policies list one peer for an endpoint: the state's revision, the endpoint, and one row, which has
/// the peer's set.
pub fn what_is_taken_of_a_small_state()
    ensures revision { (taken : OneTaken)
        → IsTakenOf ordinary (state_of ordinary x_denied) 0 taken → taken.revision ≡ 4 }
    ensures endpoint { (taken : OneTaken) → IsTakenOf ordinary (state_of ordinary x_denied) 0 taken → taken.endpoint
        ≡ new_endpoint (start ordinary) (codes "web") (namespace_label ∷ []) (addr_of_octets 10 0 0 1) }
    ensures peers { (taken : OneTaken) → IsTakenOf ordinary (state_of ordinary x_denied) 0 taken
        → map (λ row. row.peer) taken.sets ≡ app_peer (codes "x") ∷ [] }
    ensures sets { (taken : OneTaken) → IsTakenOf ordinary (state_of ordinary x_denied) 0 taken
        → map (λ row. arc_value row.set) taken.sets ≡ (257 ∷ []) ∷ [] }
{}
