//! Laws of filters, each the contract of a function that does nothing.
ghost use Rattle.std.specs.Prelude.{◌≡◌, ◌↔◌, ◌&&◌, ℕ, not, Bool, List, IsTrue, filter, map, take};
ghost use Rattle.std.specs.List.{Contains};
ghost use Rattle.pol_labels.specs.declared.label.Label.{Label};
ghost use Rattle.pol_ports.specs.declared.Direction.{Direction};
ghost use Rattle.pol_ports.specs.declared.Proto.{Proto};
ghost use Rattle.pol_rule.specs.Covers.{entry_covers};
ghost use Rattle.pol_rule.specs.declared.policy.Peer.{Peer};
ghost use Rattle.pol_model.specs.declared.limits.TheConstants.{INIT_IDENTITY};
ghost use Rattle.pol_model.specs.declared.options.Mode.{Mode as AnyMode};
ghost use Rattle.pol_model.specs.declared.options.Options.{Options};
ghost use Rattle.pol_model.specs.declared.request.Request.{Request};
ghost use Rattle.pol_model.specs.declared.row.Endpoint.{Endpoint};
ghost use Rattle.pol_model.specs.declared.row.Stamped.{Stamped as OnePolicy};
ghost use Rattle.pol_model.specs.After.{state_of};
ghost use Rattle.pol_model.specs.Enforced.{allow_section, deny_section, enforced};
ghost use Rattle.pol_model.specs.Explain.{covering_places};
ghost use Rattle.pol_model.specs.Fault.{is_init};
ghost use Rattle.pol_model.specs.State.{State};
ghost use Rattle.pol_model_laws.specs.Keeps.{Keeps};
ghost use Rattle.pol_filters.specs.declared.filter.Filter.{Filter as OneFilter};
ghost use Rattle.pol_filters.specs.FilterParts.{entry_of};
ghost use Rattle.pol_filters.specs.Resolved.{filters_in, labels_enforced};

/// A place and a stamp name a filter: two filters with the same ones are equal, whatever endpoints and
/// directions they are of, in one state or in two that the same requests led through.
pub fn places_and_stamps_name_filters()
    ensures { (options : Options) (requests : List Request)
        (n m : ℕ) (labels others : List Label) (dir side : Direction) (f g : OneFilter)
        → Contains (filters_in (state_of options (take n requests)).policies labels dir) f
        → Contains (filters_in (state_of options (take m requests)).policies others side) g
        → f.place ≡ g.place → f.stamp ≡ g.stamp → f ≡ g }
{}

/// Whether a direction of an endpoint is enforced follows from its labels, where it has number 5 exactly where
/// `reserved:init` is its one label; and so for each endpoint of a state that keeps what states keep.
pub fn enforced_is_of_labels()
    ensures endpoint { (mode : AnyMode) (policies : List OnePolicy) (endpoint : Endpoint) (dir : Direction)
        → ((endpoint.identity ≡ INIT_IDENTITY) ↔ IsTrue (is_init endpoint.labels))
        → labels_enforced mode policies endpoint.labels dir ≡ enforced mode policies endpoint dir }
    ensures in_each_state { (s : State) (endpoint : Endpoint) (dir : Direction)
        → Keeps s → Contains s.endpoints endpoint
        → labels_enforced s.mode s.policies endpoint.labels dir ≡ enforced s.mode s.policies endpoint dir }
{}

/// The filters that cover a packet stand at the places that an explanation of its verdict names, in that order:
/// those that deny, and those that allow.
pub fn places_are_those_of_explanations()
    ensures denies { (takes : Peer
        → Bool) (proto : Proto) (port : ℕ) (policies : List OnePolicy) (endpoint : Endpoint) (dir : Direction)
        → map (λ one. one.place) (filter (λ one.
        one.deny && entry_covers takes proto port (entry_of one)) (filters_in policies endpoint.labels dir))
        ≡ covering_places policies endpoint (deny_section dir) (entry_covers takes proto port) }
    ensures allows { (takes : Peer
        → Bool) (proto : Proto) (port : ℕ) (policies : List OnePolicy) (endpoint : Endpoint) (dir : Direction)
        → map (λ one. one.place) (filter (λ one.
        not one.deny && entry_covers takes proto port (entry_of one)) (filters_in policies endpoint.labels dir))
        ≡ covering_places policies endpoint (allow_section dir) (entry_covers takes proto port) }
{}
