//! Laws, each the contract of a function that does nothing.
ghost use Rattle.std.specs.Prelude.{◌≡◌, ◌<◌, ◌^◌, ◌∷◌, ℕ, List, [], None, Some, codes, false, true};
ghost use Rattle.std.specs.Arc.{arc_value};
ghost use Rattle.pol_addr.specs.Address.{IsAddr};
ghost use Rattle.pol_addr.specs.declared.address.Addr.{Addr};
ghost use Rattle.pol_ports.specs.declared.Direction.{Direction};
ghost use Rattle.pol_ports.specs.declared.Proto.{Proto};
ghost use Rattle.pol_mapkey.specs.Entries.{read_map};
ghost use Rattle.pol_rule.specs.declared.policy.Peer.TheVariants.{Cidr};
ghost use Rattle.pol_rule.specs.declared.policy.Peers.TheVariants.{Listed};
ghost use Rattle.pol_model.specs.declared.answer.Trace.{Trace};
ghost use Rattle.pol_model.specs.declared.options.Mode.TheVariants.{Always};
ghost use Rattle.pol_model.specs.declared.options.Options.{Options};
ghost use Rattle.pol_model.specs.declared.request.Query.{Query};
ghost use Rattle.pol_model.specs.declared.request.Remote.TheVariants.{Address};
ghost use Rattle.pol_model.specs.declared.request.Request.{Request};
ghost use Rattle.pol_model.specs.declared.request.Request.TheVariants.{AddIdentity, Apply, Remove, RemoveEndpoint, RemoveIdentity, SetMode};
ghost use Rattle.pol_model.specs.declared.row.Endpoint.{Endpoint};
ghost use Rattle.pol_model.specs.After.{state_of};
ghost use Rattle.pol_model.specs.Committed.{committed_of, slots_of};
ghost use Rattle.pol_model.specs.Endpoints.{endpoint_of};
ghost use Rattle.pol_model.specs.Explain.{explain_of};
ghost use Rattle.pol_model.specs.Remote.{number_at, verdict_at_address};
ghost use Rattle.pol_model.specs.State.{State};
ghost use Rattle.pol_model.specs.Verdict.{verdict_of};
ghost use Rattle.pol_model_laws.specs.Examples.{adds, app, net};
ghost use Rattle.pol_model_laws.specs.Keeps.{Keeps};
ghost use Rattle.pol_model_laws.specs.WithoutFaults.{WithoutFaults};
ghost use Rattle.pol_model_laws.specs.WorkedMaps.{all_let_in, app_peer, ingress_policy, key_of, ordinary, web, x_denied};
ghost use Rattle.pol_distill.specs.Distilled.{distilled};
ghost use Rattle.pol_prefixes.specs.AddressTable.{number_in};
ghost use Rattle.pol_taken.specs.declared.taken.Taken.{Taken as OneTaken};
ghost use Rattle.pol_taken.specs.OfState.{IsTakenOf};
ghost use Rattle.pol_requests.specs.Prepared.{is_of_policy};
ghost use Rattle.pol_repo.specs.Cost.{label_peers};

/// The law of addresses: the verdict at an address, judged by the endpoint that has it or else by the address itself, is
/// the verdict at the identity number that the address has. It holds wherever a state keeps what each state keeps, and
/// so after any requests that commit; and the word of an explanation at an address is that verdict.
pub fn law_of_addresses()
    ensures anywhere { (options : Options)
        (s : State) (endpoint : Endpoint) (dir : Direction) (address : Addr) (proto : Proto) (port : ℕ)
        → Keeps s → IsAddr address → verdict_at_address options s endpoint dir address proto port
        ≡ verdict_of options s endpoint dir (number_at address s.endpoints s.identities) proto port }
    ensures in_each_state { (options : Options) (requests : List Request) (endpoint : Endpoint)
        (dir : Direction) (address : Addr) (proto : Proto) (port : ℕ) → WithoutFaults options requests
        → IsAddr address → verdict_at_address options (state_of options requests) endpoint dir address proto port
        ≡ verdict_of options (state_of options requests) endpoint dir
        (number_at address (state_of options requests).endpoints (state_of options requests).identities) proto port }
    ensures explained { (options : Options) (s : State) (query : Query) (address : Addr)
        (endpoint : Endpoint) (trace : Trace) → Keeps s → IsAddr address → query.remote ≡ Address address
        → endpoint_of query.endpoint s.endpoints ≡ Some endpoint → explain_of options s query ≡ Some trace
        → trace.word ≡ verdict_at_address options s endpoint query.dir address query.proto query.port }
{}

/// Peers of labels are counted once each, whether one policy lists them again or another does; prefixes and entities
/// aren't counted. Only the requests that apply or remove a policy are of one. Each case is computed.
pub fn label_peers_are_counted_once()
    ensures again { label_peers
        (record {
          policy = ingress_policy (codes "p") (record {
            peers = Listed (app_peer (codes "x") ∷ app_peer (codes "y") ∷ app_peer (codes "x") ∷ Cidr (net 1) [] ∷ []);
            ports = [];
          } ∷ []) [];
          stamp = 1;
        } ∷ []) ≡ 2 }
    ensures elsewhere { label_peers (state_of ordinary x_denied).policies ≡ 1 }
    ensures entities { label_peers (state_of ordinary all_let_in).policies ≡ 0 }
    ensures none { label_peers [] ≡ 0 }
    ensures of_a_policy { (is_of_policy (Apply (ingress_policy (codes "p") [] [])) ≡ true)
        × (is_of_policy (Remove (key_of (codes "p"))) ≡ true) }
    ensures of_none { (is_of_policy web ≡ false) × (is_of_policy (RemoveEndpoint (codes "web")) ≡ false)
        × (is_of_policy (AddIdentity (codes "x") (app (codes "x"))) ≡ false)
        × (is_of_policy (RemoveIdentity (codes "x")) ≡ false) × (is_of_policy (SetMode Always) ≡ false) }
{}

/// What is taken for an endpoint judges each address as a scan of the rules does: the map of its filters and sets, read at
/// the number that its addresses give, has the verdict at the address, judged by itself, in the state that it was taken of.
pub fn what_is_taken_judges_addresses()
    ensures { (options : Options) (requests : List Request) (slot : ℕ) (taken : OneTaken)
        (dir : Direction) (address : Addr) (proto : Proto) (port : ℕ) → WithoutFaults options requests
        → IsTakenOf options (state_of options requests) slot taken → IsAddr address → port < 2 ^ 16 → read_map
        (distilled (arc_value taken.filters) taken.sets) dir (number_in address (arc_value taken.addresses)) proto port
        ≡ verdict_at_address options (state_of options requests) taken.endpoint dir address proto port }
{}

/// An answer has one slot more than the greatest that is live, and the identity of what the request added. Each case is
/// computed.
pub fn answers_tell_slots()
    ensures first_gone { slots_of
        (state_of ordinary (adds (codes "a") 1 ∷ adds (codes "b") 2 ∷ RemoveEndpoint (codes "a") ∷ [])).endpoints ≡ 2 }
    ensures last_gone { slots_of
        (state_of ordinary (adds (codes "a") 1 ∷ adds (codes "b") 2 ∷ RemoveEndpoint (codes "b") ∷ [])).endpoints ≡ 1 }
    ensures none { slots_of [] ≡ 0 }
    ensures endpoint { committed_of (state_of ordinary (adds (codes "a") 1 ∷ adds (codes "b") 2 ∷ []))
        (adds (codes "b") 2) ≡ record { revision = 2; identity = Some 257; slots = 2 } }
    ensures identity { committed_of (state_of ordinary (adds (codes "a") 1 ∷ AddIdentity (codes "b") (app (codes "a"))
        ∷ [])) (AddIdentity (codes "b") (app (codes "a"))) ≡ record { revision = 2; identity = Some 256; slots = 1 } }
    ensures mode { committed_of (state_of ordinary (adds (codes "a") 1 ∷ SetMode Always ∷ [])) (SetMode Always)
        ≡ record { revision = 2; identity = None; slots = 1 } }
{}
