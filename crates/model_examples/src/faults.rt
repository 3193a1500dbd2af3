//! Which fault is told where two hold, and where numbers run out.
ghost use Rattle.std.specs.Prelude.{◌≡◌, ◌≤◌, ◌∷◌, ◌++◌, [], ℕ, List, None, Some, codes, map, true, false};
ghost use Rattle.pol_addr.specs.declared.family.Family.TheVariants.{Ipv4, Ipv6};
ghost use Rattle.pol_addr.specs.Prefix.{world};
ghost use Rattle.pol_labels.specs.declared.label.Label.{Label};
ghost use Rattle.pol_model.specs.declared.answer.Fault.TheVariants as fault;
ghost use Rattle.pol_model.specs.declared.options.Options.{Options as AllOptions};
ghost use Rattle.pol_model.specs.declared.request.Request.TheVariants.{AddEndpoint, AddIdentity};
ghost use Rattle.pol_model.specs.declared.row.IdentityRow.{IdentityRow as OneRow};
ghost use Rattle.pol_model.specs.After.{start};
ghost use Rattle.pol_model.specs.Ascending.{Ascends};
ghost use Rattle.pol_model.specs.Fault.{fault_of, locals_held};
ghost use Rattle.pol_model.specs.Identities.{number_of_labels, reserved_identities};
ghost use Rattle.pol_model.specs.Prefixes.{number_of_prefix};
ghost use Rattle.pol_model_laws.specs.Examples.{adds, app, host_in, net, reserved};
ghost use Rattle.pol_model_laws.specs.Holding.{has_row};
ghost use Rattle.model_examples.specs.Faults.{adds_host, all_endpoints, applies, names, one_of_each, with_identities};

/// A reserved label is told before all else, then a name, then a place, then an address; whatever numbers are held.
pub fn faults_are_in_order()
    ensures label_before_identity { (options : AllOptions) (rows : List OneRow) → fault_of
        (one_of_each options rows) (AddIdentity (codes "n") (reserved (codes "host"))) ≡ Some fault.ReservedLabel }
    ensures label_before_endpoint { (options : AllOptions) (rows : List OneRow)
        → fault_of (one_of_each options rows) (adds_host (codes "a") 2) ≡ Some fault.ReservedLabel }
    ensures label_before_place { (options : AllOptions) (rows : List OneRow)
        → fault_of (all_endpoints options rows) (adds_host (codes "b") 2) ≡ Some fault.ReservedLabel }
    ensures label_before_address { (options : AllOptions) (rows : List OneRow)
        → fault_of (one_of_each options rows) (adds_host (codes "b") 1) ≡ Some fault.ReservedLabel }
    ensures identity_before_numbers { (options : AllOptions) (rows : List OneRow)
        → fault_of (one_of_each options rows) (names (codes "n") (codes "b")) ≡ Some fault.DuplicateIdentityName }
    ensures endpoint_before_address { (options : AllOptions) (rows : List OneRow)
        → fault_of (one_of_each options rows) (adds (codes "a") 1) ≡ Some fault.DuplicateEndpoint }
    ensures endpoint_before_place { (options : AllOptions) (rows : List OneRow)
        → fault_of (all_endpoints options rows) (adds (codes "a") 2) ≡ Some fault.DuplicateEndpoint }
    ensures place_before_address { (options : AllOptions) (rows : List OneRow)
        → fault_of (all_endpoints options rows) (adds (codes "b") 1) ≡ Some fault.EndpointsFull }
    ensures place_before_numbers { (options : AllOptions) (rows : List OneRow)
        → fault_of (all_endpoints options rows) (adds (codes "b") 2) ≡ Some fault.EndpointsFull }
    ensures address_before_numbers { (options : AllOptions) (rows : List OneRow)
        → fault_of (one_of_each options rows) (adds (codes "b") 1) ≡ Some fault.AddressTaken }
{}

/// A new label set finds no number exactly where each of the cluster's 65,280 has a row. One that has a number needs
/// none, also `reserved:init`.
pub fn cluster_numbers_run_out()
    ensures identity { (options : AllOptions) (rows : List OneRow)
        → Ascends (map (λ row. row.number) rows) → number_of_labels (app (codes "b")) rows ≡ None
        → ((number : ℕ) → 256 ≤ number → number ≤ 65535 → has_row number rows ≡ true)
        → fault_of (one_of_each options rows) (names (codes "m") (codes "b")) ≡ Some fault.IdentitiesExhausted }
    ensures endpoint { (options : AllOptions) (rows : List OneRow)
        → Ascends (map (λ row. row.number) rows) → number_of_labels (app (codes "b")) rows ≡ None
        → ((number : ℕ) → 256 ≤ number → number ≤ 65535 → has_row number rows ≡ true)
        → fault_of (one_of_each options rows) (adds (codes "b") 2) ≡ Some fault.IdentitiesExhausted }
    ensures one_left { (options : AllOptions) (rows : List OneRow) (number : ℕ)
        → Ascends (map (λ row. row.number) rows) → 256 ≤ number → number ≤ 65535
        → has_row number rows ≡ false → fault_of (one_of_each options rows) (adds (codes "b") 2) ≡ None }
    ensures shared { (options : AllOptions) (rows : List OneRow)
        → fault_of (one_of_each options (record { number = 256; labels = app (codes "b"); prefix = None; holders = 1 }
        ∷ rows)) (adds (codes "b") 2) ≡ None }
    ensures init { (options : AllOptions) (rows : List OneRow)
        → fault_of (one_of_each options (reserved_identities ++ rows))
        (AddEndpoint (codes "b") (reserved (codes "init")) (host_in 2)) ≡ None }
{}

/// New prefixes find no numbers exactly where more than 65,535 would be held. A prefix counts once, and not where it has
/// a number, as 0.0.0.0/0 and ::/0 have.
pub fn local_numbers_run_out()
    ensures none_left { (options : AllOptions) (rows : List OneRow)
        → locals_held rows ≡ 65535 → number_of_prefix (net 1) rows ≡ None
        → fault_of (with_identities rows (start options)) (applies (net 1 ∷ [])) ≡ Some fault.LocalExhausted }
    ensures one_left { (options : AllOptions) (rows : List OneRow)
        → locals_held rows ≡ 65534 → number_of_prefix (net 1) rows ≡ None
        → fault_of (with_identities rows (start options)) (applies (net 1 ∷ [])) ≡ None }
    ensures two_wanted { (options : AllOptions) (rows : List OneRow)
        → locals_held rows ≡ 65534 → number_of_prefix (net 1) rows ≡ None → number_of_prefix (net 2) rows ≡ None
        → fault_of (with_identities rows (start options)) (applies (net 1 ∷ net 2 ∷ [])) ≡ Some fault.LocalExhausted }
    ensures twice { (options : AllOptions) (rows : List OneRow)
        → locals_held rows ≡ 65534 → number_of_prefix (net 1) rows ≡ None
        → fault_of (with_identities rows (start options)) (applies (net 1 ∷ net 1 ∷ [])) ≡ None }
    ensures held { (options : AllOptions) (rows : List OneRow) (number : ℕ)
        → locals_held rows ≡ 65535 → number_of_prefix (net 1) rows ≡ Some number
        → fault_of (with_identities rows (start options)) (applies (net 1 ∷ [])) ≡ None }
    ensures everywhere { (options : AllOptions) (rows : List OneRow)
        → locals_held rows ≡ 65535 → fault_of (with_identities (reserved_identities ++ rows) (start options))
        (applies (world Ipv4 ∷ world Ipv6 ∷ [])) ≡ None }
{}
