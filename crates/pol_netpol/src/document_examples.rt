//! Examples that compute: what small documents read as, and what they are refused for. Each function does nothing:
//! its contract is the example.
ghost use Rattle.std.specs.Prelude.{◌≡◌, ◌∷◌, [], true, codes, None, Some, Ok, Err};
ghost use Rattle.serde_json.specs.Data.{boolean, null, number, string, unsigned};
ghost use Rattle.pol_json.specs.declared.fault.DocFault.TheVariants as fault;
ghost use Rattle.pol_rule.specs.declared.cause.RuleCause.TheVariants as rule;
ghost use Rattle.pol_rule.specs.declared.policy.Section.TheVariants as section;
ghost use Rattle.pol_netpol.specs.Document.{netpol_of, read_document};
ghost use Rattle.pol_netpol.specs.Examples.{deny, lets_all_in, lets_block_in, web_to_db};
ghost use Rattle.pol_netpol.specs.Faults.{fault_at};
ghost use Rattle.pol_netpol.specs.Values.{fields, headed, items, named_np, network, of_app, only_item, with_entry, with_peer, with_port};
ghost use Rattle.pol_netpol.specs.declared.fault.NetFault.TheVariants.{Doc, Rule};

/// Documents read as the objects of `examples`, member by member.
pub fn documents_are_objects()
    ensures web { read_document (network ((
      codes "ingress",
      only_item (fields (
          (codes "from", only_item (fields ((codes "podSelector", of_app (codes "web")) ∷ [])))
          ∷ (codes "ports", only_item (fields ((codes "port", number (unsigned 5432)) ∷ (codes "protocol", string (codes "TCP")) ∷ []))) ∷ [])),
    )
        ∷ (codes "podSelector", of_app (codes "db"))
        ∷ (codes "policyTypes", only_item (string (codes "Ingress"))) ∷ [])) ≡ Ok web_to_db }
    ensures deny { read_document (network ((codes "podSelector", fields [])
        ∷ (codes "policyTypes", items (string (codes "Ingress") ∷ string (codes "Egress") ∷ [])) ∷ [])) ≡ Ok deny }
    ensures opened { read_document (with_entry (codes "ingress") []) ≡ Ok lets_all_in }
    ensures of_ipv6 { read_document (with_peer
        ((codes "ipBlock", fields ((codes "cidr", string (codes "::/0")) ∷ (codes "except", only_item (string (codes "2001:db8::/32"))) ∷ []))
        ∷ [])) ≡ Ok (lets_block_in (codes "::/0") (codes "2001:db8::/32" ∷ [])) }
    ensures null_members { read_document (with_entry (codes "ingress") ((codes "from", null) ∷ (codes "to", null) ∷ []))
        ≡ Ok lets_all_in }
{}

/// What is no NetworkPolicy is told before it has no name ('profile').
pub fn heads_are_told()
    ensures of_cilium { netpol_of (headed (codes "cilium.io/v2") (codes "NetworkPolicy") named_np [])
        ≡ Err (Doc fault.NotPolicy) }
    ensures kind { netpol_of (headed (codes "networking.k8s.io/v1") (codes "CiliumNetworkPolicy") (fields []) [])
        ≡ Err (Doc fault.NotPolicy) }
    ensures no_name { netpol_of (headed (codes "networking.k8s.io/v1") (codes "NetworkPolicy") (fields []) [])
        ≡ Err (Doc fault.NoName) }
    ensures no_selector { netpol_of (network []) ≡ Err (Rule (fault_at None rule.NoSelector)) }
{}

/// What a document is refused for by a member, and that this comes before what its object is refused for ('profile').
pub fn members_are_told()
    ensures of_cilium { netpol_of (with_entry (codes "ingress") ((codes "toPorts", items []) ∷ []))
        ≡ Err (Doc (fault.UnknownMember (codes "spec.ingress[0].toPorts"))) }
    ensures of_egress { netpol_of (with_entry (codes "ingress") ((codes "to", items []) ∷ []))
        ≡ Err (Doc (fault.UnknownMember (codes "spec.ingress[0].to"))) }
    ensures of_ingress { netpol_of (with_entry (codes "egress") ((codes "from", items []) ∷ []))
        ≡ Err (Doc (fault.UnknownMember (codes "spec.egress[0].from"))) }
    ensures named_port { netpol_of (with_port ((codes "port", string (codes "80")) ∷ []))
        ≡ Err (Doc (fault.Unsupported (codes "named-port"))) }
    ensures port { netpol_of (with_port ((codes "port", boolean true) ∷ []))
        ≡ Err (Doc (fault.WrongShape (codes "spec.ingress[0].ports[0].port"))) }
    ensures no_cidr { netpol_of (with_peer ((codes "ipBlock", fields []) ∷ []))
        ≡ Err (Doc (fault.WrongShape (codes "spec.ingress[0].from[0].ipBlock.cidr"))) }
    ensures document_first { netpol_of (network ((codes "x", items []) ∷ []))
        ≡ Err (Doc (fault.UnknownMember (codes "spec.x"))) }
    ensures no_member { netpol_of (with_peer []) ≡ Err (Rule (fault_at (Some (section.Ingress, 0)) rule.BadPeer)) }
{}
