//! What holds of a NetworkPolicy that is accepted, and of one that is refused.
ghost use Rattle.std.specs.Prelude.{◌≡◌, ◌≤◌, ℕ, false, List, Ok, Err, IsTrue};
ghost use Rattle.document_laws.specs.NetworkFaults.{is_network_fault_of};
ghost use Rattle.document_laws.specs.NetworkVerdicts.{AreOfObjects, word_of_objects};
ghost use Rattle.document_laws.specs.NetworkWhole.{IsWholeNetwork};
ghost use Rattle.pol_model.specs.State.{State};
ghost use Rattle.pol_model.specs.Verdict.{verdict_of};
ghost use Rattle.pol_model.specs.declared.options.Options.{Options};
ghost use Rattle.pol_model.specs.declared.row.Endpoint.{Endpoint};
ghost use Rattle.pol_netpol.specs.Translated.{translated_of};
ghost use Rattle.pol_netpol.specs.declared.raw.RawNetworkPolicy.{RawNetworkPolicy};
ghost use Rattle.pol_ports.specs.declared.Direction.{Direction};
ghost use Rattle.pol_ports.specs.declared.Proto.{Proto};
ghost use Rattle.pol_rule.specs.declared.fault.RuleFault.{RuleFault};
ghost use Rattle.pol_rule.specs.declared.policy.Policy.{Policy};
ghost use Rattle.pol_sanitize.specs.Order.{comes_before};
ghost use Rattle.pol_sanitize.specs.Ports.{port_max};

/// Nothing of a NetworkPolicy that is accepted is left out: it has a subject, each expression has an operator, each peer is of
/// exactly one kind, each block and each of its exceptions reads, and so does each port ('profile').
pub fn accepted_networks_are_whole()
    ensures { (raw : RawNetworkPolicy) (policy : Policy) → translated_of raw ≡ Ok policy → IsWholeNetwork raw policy }
{}

/// A NetworkPolicy is refused exactly where it has a fault. What it is refused for is one: its location leads to a part of the
/// object at which its cause holds. And no fault of the object comes before it ('profile').
pub fn first_faults_of_networks_are_told()
    ensures is_one { (raw : RawNetworkPolicy) (fault : RuleFault)
        → translated_of raw ≡ Err fault → IsTrue (is_network_fault_of raw fault) }
    ensures first { (raw : RawNetworkPolicy) (fault other : RuleFault) → translated_of raw ≡ Err fault
        → IsTrue (is_network_fault_of raw other) → comes_before other fault ≡ false }
    ensures none { (raw : RawNetworkPolicy) (policy : Policy) (fault : RuleFault) → translated_of raw ≡ Ok policy
        → is_network_fault_of raw fault ≡ false }
{}

/// From objects to verdicts: where each policy of a state is the translation of a NetworkPolicy, a packet is allowed exactly in mode
/// `never`, where the endpoint isn't isolated in its direction, where an object that isolates it there allows the packet, and where
/// it comes in from a local host that always may; else it is denied by default (Kubernetes, "Network Policies", The two sorts of pod
/// isolation; Cilium, Policy Enforcement Modes).
pub fn objects_decide()
    ensures { (options : Options) (s : State) (objects : List RawNetworkPolicy) → AreOfObjects objects s.policies
        → (endpoint : Endpoint) (dir : Direction) (number : ℕ) (proto : Proto) (port : ℕ)
        → port ≤ port_max → verdict_of options s endpoint dir number proto port
        ≡ word_of_objects options s objects endpoint dir number proto port }
{}
