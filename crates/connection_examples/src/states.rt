//! Which connections are open in a state alone, and in which order its ends stand, on small states.
ghost use Rattle.std.specs.Prelude.{◌≡◌, ◌∷◌, ◌++◌, [], codes, Bool as AnyBool};
ghost use Rattle.pol_addr.specs.declared.family.Family.TheVariants.{Ipv4, Ipv6};
ghost use Rattle.pol_addr.specs.Prefix.{world};
ghost use Rattle.pol_model.specs.After.{state_of};
ghost use Rattle.pol_model.specs.State.{State};
ghost use Rattle.pol_model.specs.declared.options.Options.{Options as AllOptions};
ghost use Rattle.pol_model_laws.specs.WorkedMaps.{ordinary};
ghost use Rattle.pol_ports.specs.declared.Proto.TheVariants.{Sctp, Tcp, Udp};
ghost use Rattle.pol_connections.specs.declared.end.EndName.TheVariants as name;
ghost use Rattle.pol_connections.specs.Connections.{changes_below, changes_of, connections_below, connections_of};
ghost use Rattle.pol_connections.specs.Examples.{a, b, elsewhere, low6, names_new, net, net6, pod, tcp_open};
ghost use Rattle.connection_examples.specs.States.{
  both_allow,
  far,
  few_open,
  in_no_order,
  judged,
  names_told,
  no_policies,
  open_below,
  opened,
  part,
  unjudged,
  wide_open_all,
  x,
};

/// All that is open at ports 0 and 1 of a state with an endpoint, a named identity and a prefix: an end is asked with itself, at
/// each protocol; what a named identity may send is by its own labels; and no two ends without policies are asked. Connections
/// stand by source, by target and by protocol, in the order of ends.
pub fn what_is_open_is_told()
    ensures { open_below 2 few_open ≡ tcp_open (name.Endpoint b) (name.Endpoint b) 0 1 both_allow
        ∷ opened (name.Endpoint b) (name.Endpoint b) Udp 0 1 ∷ opened (name.Endpoint b) (name.Endpoint b) Sctp 0 1
        ∷ opened (name.Endpoint b) (name.Region net) Sctp 1 1
        ∷ tcp_open (name.Identity x) (name.Endpoint b) 1 1 both_allow
        ∷ tcp_open (name.Reserved 1) (name.Endpoint b) 0 0 both_allow
        ∷ opened (name.Region net) (name.Endpoint b) Udp 1 1 ∷ [] }
{}

/// Each port is asked. Where there is neither endpoint nor named identity, nothing is told; and where no policy is, all is open
/// between these and all ends, at each port and protocol, and nothing is told of two ends without policies of their own.
pub fn every_port_is_asked()
    ensures alone { (options : AllOptions) (s : State) → connections_of options s ≡ connections_below 65536 options s }
    ensures changes { (halves : AnyBool) (options : AllOptions) (s t : State)
        → changes_of halves options s t ≡ changes_below 65536 halves options s t }
    ensures nobody { connections_of ordinary (state_of ordinary []) ≡ [] }
    ensures no_policies { connections_of ordinary (state_of ordinary no_policies)
        ≡ wide_open_all judged (judged ++ unjudged) ++ wide_open_all unjudged judged }
{}

/// The ends of a state: endpoints and then named identities, each by the bytes of their names, reserved identities by number,
/// and regions, of IPv4 first, by their first address and then the shorter first.
pub fn ends_stand_in_order()
    ensures { names_told in_no_order ≡ name.Endpoint (codes "B") ∷ name.Endpoint a ∷ name.Endpoint (codes "a10")
        ∷ name.Endpoint b ∷ name.Identity (codes "X") ∷ name.Identity (codes "y") ∷ name.Reserved 1 ∷ name.Reserved 3
        ∷ name.Reserved 4 ∷ name.Reserved 5 ∷ name.Reserved 6 ∷ name.Reserved 7 ∷ name.Reserved 8
        ∷ name.Region (world Ipv4) ∷ name.Region net ∷ name.Region part ∷ name.Region far ∷ name.Region (world Ipv6)
        ∷ name.Region low6 ∷ name.Region net6 ∷ [] }
{}

/// An end of one kind isn't that of another kind with the same name.
pub fn a_name_of_another_kind_is_another_end()
    ensures endpoint { names_new (elsewhere a a ∷ []) (pod a 1 ∷ []) ≡ name.Endpoint a ∷ [] }
    ensures identity { names_new (pod a 1 ∷ []) (elsewhere a a ∷ []) ≡ name.Identity a ∷ [] }
{}
