//! Laws that compute: what the definitions give of small requests, written out.
ghost use Rattle.std.specs.Prelude.{◌≡◌, ◌++◌, ◌∷◌, [], None, Some, codes, map};
ghost use Rattle.pol_addr.specs.declared.family.Family.TheVariants.{Ipv4, Ipv6};
ghost use Rattle.pol_addr.specs.Prefix.{world};
ghost use Rattle.pol_rule.specs.declared.policy.Entity.TheVariants as entity;
ghost use Rattle.pol_rule.specs.declared.policy.Peer.TheVariants.{Entity as ByEntity};
ghost use Rattle.pol_mapkey.specs.declared.Word.TheVariants.{Allowed, DeniedByDefault, DeniedByRule};
ghost use Rattle.pol_ports.specs.declared.Direction.TheVariants.{Egress, Ingress};
ghost use Rattle.pol_model.specs.declared.answer.Fault.TheVariants as fault;
ghost use Rattle.pol_model.specs.declared.options.Mode.TheVariants.{Always as AlwaysMode, Default as DefaultMode, Never as NeverMode};
ghost use Rattle.pol_model.specs.declared.options.Options.{Options as AllOptions};
ghost use Rattle.pol_model.specs.declared.request.Request.TheVariants.{AddEndpoint, RemoveEndpoint, AddIdentity, RemoveIdentity, Apply, Remove, SetMode};
ghost use Rattle.pol_model.specs.After.{start, state_of};
ghost use Rattle.pol_model_laws.specs.Examples.{address_number, adds, app, host_in, key_of, lets_in, net, numbers_held, places_of, reserved, wide, with_endpoints, guards, word_at};
ghost use Rattle.pol_model.specs.Fault.{fault_of};
ghost use Rattle.pol_model.specs.Identities.{labels_held, reserved_identities};
ghost use Rattle.pol_model.specs.Prefixes.{prefix_held, prefix_row};
ghost use Rattle.pol_model.specs.Selects.{cluster_label, set_at};

/// The members of each entity among the reserved identities, and of `cluster` and `world` among others.
pub fn entities_have_members()
    ensures all { set_at reserved_identities (ByEntity entity.All) ≡ 1 ∷ 2 ∷ 3 ∷ 4 ∷ 5 ∷ 6 ∷ 7 ∷ 8 ∷ 9 ∷ 10 ∷ [] }
    ensures cluster { set_at reserved_identities (ByEntity entity.Cluster) ≡ 1 ∷ 3 ∷ 4 ∷ 5 ∷ 6 ∷ 7 ∷ 8 ∷ [] }
    ensures host { set_at reserved_identities (ByEntity entity.Host) ≡ 1 ∷ [] }
    ensures world { set_at reserved_identities (ByEntity entity.World) ≡ 2 ∷ 9 ∷ 10 ∷ [] }
    ensures world_ipv4 { set_at reserved_identities (ByEntity entity.WorldIpv4) ≡ 9 ∷ [] }
    ensures world_ipv6 { set_at reserved_identities (ByEntity entity.WorldIpv6) ≡ 10 ∷ [] }
    ensures unmanaged { set_at reserved_identities (ByEntity entity.Unmanaged) ≡ 3 ∷ [] }
    ensures health { set_at reserved_identities (ByEntity entity.Health) ≡ 4 ∷ [] }
    ensures init { set_at reserved_identities (ByEntity entity.Init) ≡ 5 ∷ [] }
    ensures remote_node { set_at reserved_identities (ByEntity entity.RemoteNode) ≡ 6 ∷ [] }
    ensures kube_apiserver { set_at reserved_identities (ByEntity entity.KubeApiserver) ≡ 7 ∷ [] }
    ensures ingress { set_at reserved_identities (ByEntity entity.Ingress) ≡ 8 ∷ [] }
    ensures labelled { set_at (labels_held (cluster_label ∷ []) (labels_held (app (codes "a")) reserved_identities))
        (ByEntity entity.Cluster) ≡ 1 ∷ 3 ∷ 4 ∷ 5 ∷ 6 ∷ 7 ∷ 8 ∷ 257 ∷ [] }
    ensures outside { set_at (prefix_held wide (labels_held (app (codes "a")) reserved_identities))
        (ByEntity entity.World) ≡ 2 ∷ 9 ∷ 10 ∷ 16777217 ∷ [] }
{}

/// A new label set takes the least number that is free, equal ones share it, and a number without a holder is free.
/// `reserved:init` has number 5, which takes no count.
pub fn numbers_are_shared()
    ensures first { (options : AllOptions) → numbers_held
        (state_of options (adds (codes "a") 1 ∷ adds (codes "b") 2 ∷ [])).identities ≡ (256, 1) ∷ (257, 1) ∷ [] }
    ensures shared { (options : AllOptions) → numbers_held (state_of options
        (adds (codes "a") 1 ∷ AddIdentity (codes "n") (app (codes "a")) ∷ [])).identities ≡ (256, 2) ∷ [] }
    ensures one_left { (options : AllOptions) → numbers_held (state_of options (adds (codes "a") 1
        ∷ AddIdentity (codes "n") (app (codes "a")) ∷ RemoveEndpoint (codes "a") ∷ [])).identities ≡ (256, 1) ∷ [] }
    ensures none_left { (options : AllOptions)
        → numbers_held (state_of options (adds (codes "a") 1 ∷ AddIdentity (codes "n") (app (codes "a"))
        ∷ RemoveEndpoint (codes "a") ∷ RemoveIdentity (codes "n") ∷ [])).identities ≡ [] }
    ensures reused { (options : AllOptions) → places_of (state_of options (adds (codes "a") 1 ∷ adds (codes "b") 2
        ∷ RemoveEndpoint (codes "a") ∷ adds (codes "c") 3 ∷ [])).endpoints ≡ (0, 256) ∷ (1, 257) ∷ [] }
    ensures init { (options : AllOptions)
        → (state_of options (AddEndpoint (codes "a") (reserved (codes "init")) (host_in 1) ∷ [])).identities
        ≡ reserved_identities }
    ensures init_number { (options : AllOptions) → map (λ endpoint. endpoint.identity)
        (state_of options (AddEndpoint (codes "a") (reserved (codes "init")) (host_in 1) ∷ [])).endpoints ≡ 5 ∷ [] }
    ensures init_stays { (options : AllOptions)
        → (state_of options (AddEndpoint (codes "a") (reserved (codes "init")) (host_in 1)
        ∷ RemoveEndpoint (codes "a") ∷ [])).identities ≡ reserved_identities }
{}

/// The revision that added an endpoint, and that which applied a policy, count from 1.
pub fn revisions_are_kept()
    ensures added { (options : AllOptions) → map (λ endpoint. endpoint.added)
        (state_of options (adds (codes "a") 1 ∷ SetMode AlwaysMode ∷ adds (codes "b") 2 ∷ [])).endpoints ≡ 1 ∷ 3 ∷ [] }
    ensures stamped { (options : AllOptions)
        → map (λ stamped. stamped.stamp) (state_of options (Apply (lets_in (codes "p") [])
        ∷ Apply (lets_in (codes "q") []) ∷ Apply (lets_in (codes "p") []) ∷ [])).policies ≡ 3 ∷ 2 ∷ [] }
    ensures mode { (options : AllOptions) → (state_of options (SetMode AlwaysMode ∷ [])).mode ≡ AlwaysMode }
{}

/// A policy holds each of its prefixes once. One that replaces another takes its prefixes first, so a prefix of both
/// keeps its number, and a new one takes none that the other gives up. A world's prefix takes no number.
pub fn prefixes_are_shared()
    ensures once { (options : AllOptions)
        → numbers_held (state_of options (Apply (lets_in (codes "p") (net 1 ∷ net 2 ∷ net 1 ∷ [])) ∷ [])).identities
        ≡ (16777217, 1) ∷ (16777218, 1) ∷ [] }
    ensures shared { (options : AllOptions)
        → numbers_held (state_of options (Apply (lets_in (codes "p") (net 1 ∷ net 2 ∷ []))
        ∷ Apply (lets_in (codes "q") (net 2 ∷ [])) ∷ [])).identities ≡ (16777217, 1) ∷ (16777218, 2) ∷ [] }
    ensures replaced { (options : AllOptions) → (state_of options (Apply (lets_in (codes "p") (net 1 ∷ net 2 ∷ []))
        ∷ Apply (lets_in (codes "p") (net 3 ∷ net 2 ∷ [])) ∷ [])).identities
        ≡ reserved_identities ++ prefix_row (net 2) 16777218 ∷ prefix_row (net 3) 16777219 ∷ [] }
    ensures removed { (options : AllOptions)
        → numbers_held (state_of options (Apply (lets_in (codes "p") (net 1 ∷ net 2 ∷ [])) ∷ Apply
        (lets_in (codes "q") (net 2 ∷ [])) ∷ Remove (key_of (codes "p")) ∷ [])).identities ≡ (16777218, 1) ∷ [] }
    ensures everywhere { (options : AllOptions)
        → (state_of options (Apply (lets_in (codes "p") (world Ipv4 ∷ world Ipv6 ∷ [])) ∷ [])).identities
        ≡ reserved_identities }
{}

/// Each fault of a request, and which comes first where two hold.
pub fn requests_are_refused()
    ensures duplicate_endpoint { (options : AllOptions)
        → fault_of (state_of options (adds (codes "a") 1 ∷ [])) (adds (codes "a") 2) ≡ Some fault.DuplicateEndpoint }
    ensures unknown_endpoint { (options : AllOptions) → fault_of
        (state_of options (adds (codes "a") 1 ∷ [])) (RemoveEndpoint (codes "b")) ≡ Some fault.UnknownEndpoint }
    ensures endpoints_full { (options : AllOptions)
        → fault_of (with_endpoints 256 (start options)) (adds (codes "b") 2) ≡ Some fault.EndpointsFull }
    ensures one_place_left { (options : AllOptions)
        → fault_of (with_endpoints 255 (start options)) (adds (codes "b") 2) ≡ None }
    ensures duplicate_identity { (options : AllOptions)
        → fault_of (state_of options (AddIdentity (codes "n") (app (codes "a")) ∷ []))
        (AddIdentity (codes "n") (app (codes "b"))) ≡ Some fault.DuplicateIdentityName }
    ensures unknown_identity { (options : AllOptions)
        → fault_of (state_of options (adds (codes "n") 1 ∷ [])) (RemoveIdentity (codes "n"))
        ≡ Some fault.UnknownIdentityName }
    ensures address_taken { (options : AllOptions)
        → fault_of (state_of options (adds (codes "a") 1 ∷ [])) (adds (codes "b") 1) ≡ Some fault.AddressTaken }
    ensures address_free { (options : AllOptions) → fault_of
        (state_of options (adds (codes "a") 1 ∷ RemoveEndpoint (codes "a") ∷ [])) (adds (codes "b") 1) ≡ None }
    ensures unknown_policy { (options : AllOptions) → fault_of (state_of options (Apply (lets_in (codes "p") []) ∷ []))
        (Remove (key_of (codes "q"))) ≡ Some fault.UnknownPolicy }
    ensures reserved_label { (options : AllOptions) → fault_of
        (start options) (AddEndpoint (codes "a") (reserved (codes "host")) (host_in 1)) ≡ Some fault.ReservedLabel }
    ensures init_endpoint { (options : AllOptions)
        → fault_of (start options) (AddEndpoint (codes "a") (reserved (codes "init")) (host_in 1)) ≡ None }
    ensures init_identity { (options : AllOptions)
        → fault_of (start options) (AddIdentity (codes "n") (reserved (codes "init"))) ≡ Some fault.ReservedLabel }
    ensures label_before_name { (options : AllOptions) → fault_of (state_of options (adds (codes "a") 1 ∷ []))
        (AddEndpoint (codes "a") (reserved (codes "host")) (host_in 1)) ≡ Some fault.ReservedLabel }
    ensures name_before_place { (options : AllOptions)
        → fault_of (with_endpoints 256 (start options)) (adds (codes "a") 1) ≡ Some fault.DuplicateEndpoint }
    ensures place_before_address { (options : AllOptions)
        → fault_of (with_endpoints 256 (start options)) (adds (codes "b") 1) ≡ Some fault.EndpointsFull }
{}

/// An address is that of its endpoint, else of the longest prefix around it, else of the world of its family.
pub fn addresses_have_numbers()
    ensures endpoint { (options : AllOptions) → address_number
        (state_of options (adds (codes "a") 1 ∷ Apply (lets_in (codes "p") (wide ∷ net 1 ∷ [])) ∷ [])) 1 ≡ 256 }
    ensures longest { (options : AllOptions)
        → address_number (state_of options (Apply (lets_in (codes "p") (wide ∷ net 1 ∷ [])) ∷ [])) 1 ≡ 16777218 }
    ensures around { (options : AllOptions)
        → address_number (state_of options (Apply (lets_in (codes "p") (wide ∷ net 1 ∷ [])) ∷ [])) 2 ≡ 16777217 }
    ensures outside { (options : AllOptions)
        → address_number (state_of options (Apply (lets_in (codes "p") (net 1 ∷ [])) ∷ [])) 2 ≡ 9 }
{}

/// A deny beats an allow; what no entry covers is denied by default where the direction is enforced, and allowed where
/// it isn't; and nothing is denied in mode `never`.
pub fn denies_win()
    ensures allowed { (options : AllOptions) → word_at options
        (SetMode DefaultMode ∷ Apply (guards (codes "p") (wide ∷ []) (net 1 ∷ [])) ∷ []) Ingress 16777217 ≡ Allowed }
    ensures denied { (options : AllOptions) → word_at options (SetMode DefaultMode
        ∷ Apply (guards (codes "p") (wide ∷ []) (net 1 ∷ [])) ∷ []) Ingress 16777218 ≡ DeniedByRule }
    ensures by_default { (options : AllOptions) → word_at options
        (SetMode DefaultMode ∷ Apply (guards (codes "p") (wide ∷ []) (net 1 ∷ [])) ∷ []) Ingress 9 ≡ DeniedByDefault }
    ensures not_enforced { (options : AllOptions) → word_at options
        (SetMode DefaultMode ∷ Apply (guards (codes "p") (wide ∷ []) (net 1 ∷ [])) ∷ []) Egress 9 ≡ Allowed }
    ensures always { (options : AllOptions) → word_at options (SetMode AlwaysMode ∷ []) Egress 9 ≡ DeniedByDefault }
    ensures never { (options : AllOptions) → word_at options
        (Apply (guards (codes "p") (wide ∷ []) (net 1 ∷ [])) ∷ SetMode NeverMode ∷ []) Ingress 16777218 ≡ Allowed }
{}
