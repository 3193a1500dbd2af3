//! What the parts of a rule cover, the peers aside: which remote a peer takes depends on the identities.
ghost use Rattle.std.specs.Prelude.{◌≡◌};
ghost use Rattle.std.specs.List.{list_any};
ghost use Rattle.pol_rule.specs.Covers.{has_effect, port_covers, ports_cover, section_of};

use crate::policy::{Entry, Peers, PortSpec, Rule, Section};
use pol_ports::Proto;

impl Rule {
    /// The entries of a section.
    pub fn entries_of(&self, section: Section) -> &[Entry]
        ensures entries { result.now ≡ section_of section self.now }
    {
        match section {
            Section::Ingress => self.ingress.as_slice(),
            Section::IngressDeny => self.ingress_deny.as_slice(),
            Section::Egress => self.egress.as_slice(),
            Section::EgressDeny => self.egress_deny.as_slice(),
        }
    }
}

impl PortSpec {
    /// Whether the packet's protocol and port are among these (Cilium, Network Policy, "Layer 4 Examples").
    pub fn covers(&self, proto: Proto, port: u16) -> bool
        ensures answer { result ≡ port_covers proto port self.now }
    {
        let takes_proto = match self.proto {
            None => true,
            Some(own) => own == proto,
        };
        takes_proto && self.range.first <= port && port <= self.range.last
    }
}

fn some_port_covers(ports: &[PortSpec], proto: Proto, port: u16) -> bool
    ensures { result ≡ list_any (port_covers proto port) ports.now }
{
    ports.iter().any(|spec| spec.covers(proto, port))
}

impl Entry {
    /// Whether the entry's ports have the packet's protocol and port; no ports are all ports.
    #[tactic(auto, using(crate::proofs::NoPorts::any_or_empty))]
    pub fn covers_port(&self, proto: Proto, port: u16) -> bool
        ensures answer { result ≡ ports_cover proto port self.now.ports }
    {
        let ports = self.ports.as_slice();
        ports.is_empty() || some_port_covers(ports, proto, port)
    }

    /// Whether the entry has a peer member or a port; without either it covers nothing ('profile').
    pub fn takes_effect(&self) -> bool
        ensures answer { result ≡ has_effect self.now }
    {
        match &self.peers {
            Peers::Every => !self.ports.is_empty(),
            Peers::Listed(_) => true,
        }
    }
}
