//! Laws of states: what each one keeps where its requests commit, and what follows from that.
ghost use Rattle.std.specs.Prelude.{◌≡◌, ◌+◌, ◌-◌, ◌==◌, ◌++◌, ◌∷◌, [], ◌<◌, ◌≤◌, ◌⊎◌, ◌↔◌, ℕ, List, None, Some, IsTrue, true, false, find, length, map, slice_index_or, take};
ghost use Rattle.std.specs.List.{Contains, slice_get};
ghost use Rattle.pol_addr.specs.declared.address.Addr.{Addr};
ghost use Rattle.pol_addr.specs.declared.network.Prefix.{Prefix};
ghost use Rattle.pol_labels.specs.declared.label.Label.{Label};
ghost use Rattle.pol_rule.specs.declared.policy.Policy.{Policy};
ghost use Rattle.pol_rule.specs.declared.policy.PolicyKey.{PolicyKey};
ghost use Rattle.pol_rule.specs.Prefixes.{policy_prefixes};
ghost use Rattle.pol_model.specs.declared.limits.TheConstants.{ENDPOINTS_MAX, INIT_IDENTITY, LOCAL_IDENTITIES};
ghost use Rattle.pol_model.specs.declared.options.Options.{Options as AllOptions};
ghost use Rattle.pol_model.specs.declared.request.Request.{Request as OneRequest};
ghost use Rattle.pol_model.specs.declared.request.Request.TheVariants.{AddEndpoint, AddIdentity, Apply, Remove, RemoveEndpoint, RemoveIdentity};
ghost use Rattle.pol_model.specs.declared.row.Endpoint.{Endpoint as OneEndpoint};
ghost use Rattle.pol_model.specs.declared.row.IdentityRow.{IdentityRow as OneRow};
ghost use Rattle.pol_model.specs.declared.row.NamedIdentity.{NamedIdentity as OneIdentity};
ghost use Rattle.pol_model.specs.declared.row.Stamped.{Stamped as OnePolicy};
ghost use Rattle.pol_model.specs.After.{after, new_endpoint, start, state_of};
ghost use Rattle.pol_model.specs.Ascending.{Ascends};
ghost use Rattle.pol_model.specs.Endpoints.{endpoint_of, named_of};
ghost use Rattle.pol_model.specs.Fault.{fault_of, is_init, locals_held};
ghost use Rattle.pol_model_laws.specs.Holding.{has_row, IsPartOf, rows_taken};
ghost use Rattle.pol_model.specs.Identities.{is_reserved, number_for, number_of_labels};
ghost use Rattle.pol_model_laws.specs.Keeps.{Keeps, KeepsRows};
ghost use Rattle.pol_model.specs.Policies.{policy_at};
ghost use Rattle.pol_model.specs.Prefixes.{number_of_prefix, prefixes_held};
ghost use Rattle.pol_model.specs.Remote.{endpoint_at};
ghost use Rattle.pol_model.specs.State.{State};
ghost use Rattle.pol_model_laws.specs.WithoutFaults.{MayCommit, WithoutFaults};

/// Requests commit one after another: one more does exactly where it may in the state that the others made.
pub fn commits_one_by_one()
    ensures more { (options : AllOptions) (requests : List OneRequest) (request : OneRequest)
        → WithoutFaults options (requests ++ request ∷ [])
        ↔ (WithoutFaults options requests × MayCommit (state_of options requests) request) }
    ensures first_ones { (options : AllOptions) (requests : List OneRequest) (n : ℕ)
        → WithoutFaults options requests → WithoutFaults options (take n requests) }
    ensures each { (options : AllOptions) (requests : List OneRequest) (n : ℕ) (d : OneRequest)
        → WithoutFaults options requests
        → n < length requests → MayCommit (state_of options (take n requests)) (slice_index_or requests n d) }
{}

/// What a state keeps (`Keeps`): the first one does, a request that may commit leaves it so, and so each state does.
pub fn states_keep()
    ensures start { (options : AllOptions) → Keeps (start options) }
    ensures after { (s : State) (request : OneRequest) → Keeps s → MayCommit s request → Keeps (after s request) }
    ensures states { (options : AllOptions) (requests : List OneRequest)
        → WithoutFaults options requests → Keeps (state_of options requests) }
{}

/// An identity that isn't reserved has no more holders than there were requests.
pub fn holders_are_few()
    ensures { (s : State) (row : OneRow)
        → Keeps s → Contains s.identities row → is_reserved row.number ≡ false → row.holders ≤ s.revision }
{}

/// Each live endpoint is found by its name, its slot and its address, its number by its labels, and there are 256 at
/// most. It has number 5 exactly where `reserved:init` is its one label.
pub fn endpoints_are_found()
    ensures name { (s : State) (endpoint : OneEndpoint)
        → Keeps s → Contains s.endpoints endpoint → endpoint_of endpoint.name s.endpoints ≡ Some endpoint }
    ensures slot { (s : State) (endpoint : OneEndpoint) → Keeps s
        → Contains s.endpoints endpoint → find (λ other. other.slot == endpoint.slot) s.endpoints ≡ Some endpoint }
    ensures address { (s : State) (endpoint : OneEndpoint)
        → Keeps s → Contains s.endpoints endpoint → endpoint_at endpoint.address s.endpoints ≡ Some endpoint }
    ensures identity { (s : State) (endpoint : OneEndpoint) → Keeps s
        → Contains s.endpoints endpoint → number_of_labels endpoint.labels s.identities ≡ Some endpoint.identity }
    ensures init { (s : State) (endpoint : OneEndpoint) → Keeps s
        → Contains s.endpoints endpoint → (endpoint.identity ≡ INIT_IDENTITY) ↔ IsTrue (is_init endpoint.labels) }
    ensures few { (s : State) → Keeps s → length s.endpoints ≤ ENDPOINTS_MAX }
{}

/// Each named identity is found by its name, each policy by its key, and the number of each prefix of a policy by
/// the prefix.
pub fn names_and_keys_are_found()
    ensures identity { (s : State) (identity : OneIdentity)
        → Keeps s → Contains s.named identity → named_of identity.name s.named ≡ Some identity }
    ensures policy { (s : State) (policy : OnePolicy)
        → Keeps s → Contains s.policies policy → policy_at policy.policy.key s.policies ≡ Some policy }
    ensures prefix { (s : State) (policy : OnePolicy) (prefix : Prefix)
        → Keeps s → Contains s.policies policy → Contains (policy_prefixes policy.policy) prefix
        → (number : ℕ) × (number_of_prefix prefix s.identities ≡ Some number) }
{}

/// A request takes what it takes before it gives anything up: the rows before it and those after it are parts of
/// the rows in between, and each row in between is in one of them, so no number that comes goes.
pub fn requests_take_first()
    ensures before { (s : State) (request : OneRequest)
        → Ascends (map (λ row. row.number) s.identities) → IsPartOf s.identities (rows_taken s request) }
    ensures after { (s : State) (request : OneRequest) → Ascends (map (λ row. row.number) s.identities)
        → IsPartOf (after s request).identities (rows_taken s request) }
    ensures apart { (s : State) (request : OneRequest) (number : ℕ)
        → Keeps s → MayCommit s request → has_row number (rows_taken s request) ≡ true
        → (has_row number s.identities ≡ true) ⊎ (has_row number (after s request).identities ≡ true) }
    ensures between { (s : State) (request : OneRequest)
        → Keeps s → MayCommit s request → KeepsRows (rows_taken s request) }
{}

/// A number that has a row before and after a request has the same labels and prefix, and a label set or a prefix
/// that has a number before and after has the same one.
pub fn numbers_stay()
    ensures row { (s : State) (request : OneRequest) (old new : OneRow) → Ascends (map (λ row. row.number) s.identities)
        → Contains s.identities old → Contains (after s request).identities new
        → old.number ≡ new.number → (old.labels ≡ new.labels) × (old.prefix ≡ new.prefix) }
    ensures labels { (s : State) (request : OneRequest) (labels : List Label) (old new : ℕ)
        → Keeps s → MayCommit s request → number_of_labels labels s.identities ≡ Some old
        → number_of_labels labels (after s request).identities ≡ Some new → old ≡ new }
    ensures prefix { (s : State) (request : OneRequest) (prefix : Prefix) (old new : ℕ)
        → Keeps s → MayCommit s request → number_of_prefix prefix s.identities ≡ Some old
        → number_of_prefix prefix (after s request).identities ≡ Some new → old ≡ new }
{}

/// What a request adds is found by its name or key after it, and what it removes is not.
pub fn requests_are_done()
    ensures endpoint { (s : State) (name : List ℕ) (labels : List Label) (address : Addr)
        → Keeps s → MayCommit s (AddEndpoint name labels address)
        → endpoint_of name (after s (AddEndpoint name labels address)).endpoints
        ≡ Some (new_endpoint s name labels address) }
    ensures identity { (s : State) (name : List ℕ) (labels : List Label)
        → Keeps s → MayCommit s (AddIdentity name labels) → named_of name (after s (AddIdentity name labels)).named
        ≡ Some (record { name = name; number = number_for labels s.identities }) }
    ensures policy { (s : State) (policy : Policy)
        → Keeps s → MayCommit s (Apply policy) → policy_at policy.key (after s (Apply policy)).policies
        ≡ Some (record { policy = policy; stamp = s.revision + 1 }) }
    ensures no_endpoint { (s : State) (name : List ℕ)
        → endpoint_of name (after s (RemoveEndpoint name)).endpoints ≡ None }
    ensures no_identity { (s : State) (name : List ℕ) → named_of name (after s (RemoveIdentity name)).named ≡ None }
    ensures no_policy { (s : State) (key : PolicyKey) → policy_at key (after s (Remove key)).policies ≡ None }
{}

/// A policy is refused exactly where the prefixes would hold more numbers with it than there are.
pub fn policies_fit()
    ensures { (s : State) (policy : Policy) → (fault_of s (Apply policy) ≡ None)
        ↔ (locals_held (prefixes_held (policy_prefixes policy) s.identities) ≤ LOCAL_IDENTITIES) }
{}

/// The revision that added an endpoint, and that which applied a policy, tell which request it was, counted from 1.
pub fn revisions_name_requests()
    ensures endpoint { (options : AllOptions) (requests : List OneRequest) (endpoint : OneEndpoint)
        → Contains (state_of options requests).endpoints endpoint
        → (0 < endpoint.added) × (slice_get requests (endpoint.added - 1)
        ≡ Some (AddEndpoint endpoint.name endpoint.labels endpoint.address)) }
    ensures policy { (options : AllOptions) (requests : List OneRequest) (policy : OnePolicy)
        → Contains (state_of options requests).policies policy
        → (0 < policy.stamp) × (slice_get requests (policy.stamp - 1) ≡ Some (Apply policy.policy)) }
{}
