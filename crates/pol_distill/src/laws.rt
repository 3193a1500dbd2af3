//! Laws of policy maps, each the contract of a function that does nothing.
ghost use Rattle.std.specs.Prelude.{◌≡◌, ◌↔◌, ◌<◌, ◌^◌, ℕ, List, IsTrue};
ghost use Rattle.std.specs.List.{All, Contains};
ghost use Rattle.pol_ports.specs.declared.Direction.{Direction};
ghost use Rattle.pol_ports.specs.declared.Proto.{Proto};
ghost use Rattle.pol_mapkey.specs.Entries.{read_map};
ghost use Rattle.pol_model.specs.declared.limits.TheConstants.{INIT_IDENTITY};
ghost use Rattle.pol_model.specs.declared.options.Options.{Options};
ghost use Rattle.pol_model.specs.declared.request.Request.{Request};
ghost use Rattle.pol_model.specs.declared.row.Endpoint.{Endpoint};
ghost use Rattle.pol_model.specs.After.{state_of};
ghost use Rattle.pol_model.specs.Fault.{is_init};
ghost use Rattle.pol_model.specs.PolicyMap.{policy_map};
ghost use Rattle.pol_model.specs.State.{State};
ghost use Rattle.pol_model.specs.Verdict.{verdict_of};
ghost use Rattle.pol_model_laws.specs.WithoutFaults.{WithoutFaults};
ghost use Rattle.pol_sets.specs.declared.sets.SetRow.{SetRow as OneRow};
ghost use Rattle.pol_distill.specs.Distilled.{HasSetsOf, distilled, filters_at};

/// The law of the map: reading an endpoint's map gives the verdict of a scan of all rules, for every number,
/// allocated or not and 0 too. It holds wherever no identity has the number 0, and so in each state.
pub fn law_of_the_map()
    ensures anywhere { (options : Options) (s : State) (endpoint : Endpoint)
        (dir : Direction) (number : ℕ) (proto : Proto) (port : ℕ) → All (λ row. 0 < row.number) s.identities
        → port < 2 ^ 16 → read_map (policy_map options s endpoint) dir number proto port
        ≡ verdict_of options s endpoint dir number proto port }
    ensures in_each_state { (options : Options)
        (requests : List Request) (endpoint : Endpoint) (dir : Direction) (number : ℕ) (proto : Proto) (port : ℕ)
        → port < 2 ^ 16 → read_map (policy_map options (state_of options requests) endpoint) dir number proto port
        ≡ verdict_of options (state_of options requests) endpoint dir number proto port }
{}

/// The canonical map of an endpoint's filters is its policy map, wherever each peer that they list has the set that
/// the state gives it. So reading it gives the verdict. It holds of an endpoint that has number 5 exactly where
/// `reserved:init` is its one label, and so of each endpoint of a state that requests without faults led to.
pub fn filters_give_the_policy_map()
    ensures anywhere { (options : Options) (s : State) (endpoint : Endpoint) (rows : List OneRow)
        → ((endpoint.identity ≡ INIT_IDENTITY) ↔ IsTrue (is_init endpoint.labels)) → HasSetsOf options s endpoint rows
        → distilled (filters_at options s endpoint) rows ≡ policy_map options s endpoint }
    ensures in_each_state { (options : Options) (requests : List Request) (endpoint : Endpoint) (rows : List OneRow)
        → WithoutFaults options requests → Contains (state_of options requests).endpoints endpoint
        → HasSetsOf options (state_of options requests) endpoint rows
        → distilled (filters_at options (state_of options requests) endpoint) rows
        ≡ policy_map options (state_of options requests) endpoint }
    ensures verdict { (options : Options) (requests : List Request)
        (endpoint : Endpoint) (rows : List OneRow) (dir : Direction) (number : ℕ) (proto : Proto) (port : ℕ)
        → WithoutFaults options requests → Contains (state_of options requests).endpoints endpoint
        → HasSetsOf options (state_of options requests) endpoint rows → port < 2 ^ 16
        → read_map (distilled (filters_at options (state_of options requests) endpoint) rows) dir number proto port
        ≡ verdict_of options (state_of options requests) endpoint dir number proto port }
{}
