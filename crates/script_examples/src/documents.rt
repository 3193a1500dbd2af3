//! What policy documents are refused for, on small documents.
ghost use Rattle.std.specs.Prelude.{◌≡◌, [], ◌∷◌, codes, map, replicate, true, false, None, Some, Err};
ghost use Rattle.serde_json.specs.Data.{unsigned, boolean, null, number};
ghost use Rattle.pol_json.specs.Document.{read_document};
ghost use Rattle.pol_json.specs.declared.fault.DocFault.TheVariants as fault;
ghost use Rattle.script_examples.specs.Values.{AreLeftOut, AreUnknown, IsRefused, Says, as_cidr, as_port, as_protocol, document, fields, headed, in_cidr_set, in_egress, in_ingress, in_port_item, in_rule, items, only_item, ruled, text, with_cidr_set};

/// A value that is no policy is told before it has no name, and that before it has no rule; all of them before what is
/// wrong further in ('profile').
pub fn heads_are_in_order()
    ensures no_policy { read_document (fields []) ≡ Err fault.NotPolicy }
    ensures version { read_document (fields ((codes "apiVersion", text (codes "cilium.io/v1"))
        ∷ (codes "kind", text (codes "CiliumNetworkPolicy")) ∷ [])) ≡ Err fault.NotPolicy }
    ensures of_another_kind { read_document (fields ((codes "apiVersion", text (codes "cilium.io/v2"))
        ∷ (codes "kind", text (codes "List")) ∷ (codes "metadata", fields []) ∷ [])) ≡ Err fault.NotPolicy }
    ensures no_metadata { read_document (headed []) ≡ Err fault.NoName }
    ensures no_name { read_document (headed ((codes "metadata", fields []) ∷ [])) ≡ Err fault.NoName }
    ensures empty_name { read_document (headed ((codes "metadata", fields ((codes "name", text []) ∷ [])) ∷ []))
        ≡ Err fault.NoName }
    ensures no_spec { read_document (document []) ≡ Err fault.NoSpec }
    ensures null_spec { read_document (document ((codes "spec", null) ∷ [])) ≡ Err fault.NoSpec }
    ensures empty_specs { read_document (document ((codes "specs", items []) ∷ [])) ≡ Err fault.NoSpec }
    ensures specs_of_text { read_document (document ((codes "specs", text (codes "x")) ∷ []))
        ≡ Err (fault.WrongShape (codes "specs")) }
    ensures specs_of_null { read_document (document ((codes "specs", only_item null) ∷ []))
        ≡ Err (fault.WrongShape (codes "specs[0]")) }
    ensures before_members { read_document (document ((codes "nothing", fields []) ∷ [])) ≡ Err fault.NoSpec }
{}

/// The first fault is told, with the path to it: members in byte order, a value before what it holds ('profile').
pub fn places_are_told()
    ensures unknown { read_document (ruled (codes "ingres") (items []))
        ≡ Err (fault.UnknownMember (codes "spec.ingres")) }
    ensures shape { read_document (ruled (codes "ingress") (fields []))
        ≡ Err (fault.WrongShape (codes "spec.ingress")) }
    ensures null_item { read_document (ruled (codes "ingress") (items (fields [] ∷ null ∷ [])))
        ≡ Err (fault.WrongShape (codes "spec.ingress[1]")) }
    ensures port { read_document (ruled (codes "ingress") (only_item (fields
        ((codes "toPorts", only_item (fields ((codes "ports", only_item (fields ((codes "port", number (unsigned 80)) ∷ []))) ∷ [])))
        ∷ [])))) ≡ Err (fault.WrongShape (codes "spec.ingress[0].toPorts[0].ports[0].port")) }
    ensures byte_order { read_document (document
        ((codes "spec", fields ((codes "a", null) ∷ (codes "b", items []) ∷ (codes "c", items []) ∷ [])) ∷ []))
        ≡ Err (fault.UnknownMember (codes "spec.b")) }
    ensures spec_before_specs { read_document (document ((codes "spec", fields ((codes "x", items []) ∷ []))
        ∷ (codes "specs", items (null ∷ [])) ∷ [])) ≡ Err (fault.UnknownMember (codes "spec.x")) }
{}

/// `cidrGroupRef` and `cidrGroupSelector` are found before the members of their item, also where `cidr` is lacking or of
/// another shape ('profile').
pub fn groups_of_prefixes_are_first()
    ensures alone { read_document (with_cidr_set ((codes "cidrGroupRef", text (codes "g")) ∷ []))
        ≡ Err (fault.Unsupported (codes "cidrGroupRef")) }
    ensures beside { read_document (with_cidr_set ((codes "cidr", items [])
        ∷ (codes "cidrGroupRef", text (codes "g")) ∷ [])) ≡ Err (fault.Unsupported (codes "cidrGroupRef")) }
    ensures selector { read_document (with_cidr_set ((codes "a", items [])
        ∷ (codes "cidrGroupSelector", fields []) ∷ [])) ≡ Err (fault.Unsupported (codes "cidrGroupSelector")) }
    ensures both { read_document (with_cidr_set ((codes "cidrGroupRef", text [])
        ∷ (codes "cidrGroupSelector", fields []) ∷ [])) ≡ Err (fault.Unsupported (codes "cidrGroupRef")) }
    ensures null_group { read_document (with_cidr_set ((codes "cidrGroupRef", null) ∷ []))
        ≡ Err (fault.WrongShape (codes "spec.egress[0].toCIDRSet[0].cidr")) }
    ensures lacks { read_document (with_cidr_set ((codes "a", items []) ∷ []))
        ≡ Err (fault.WrongShape (codes "spec.egress[0].toCIDRSet[0].cidr")) }
{}

/// `enableDefaultDeny` says true, false or nothing of each direction; a member that is null is absent. Another member is
/// unknown, and another shape is told with the path to it, that of the object before what it holds ('profile').
pub fn default_deny_is_told()
    ensures both { Says
        (fields ((codes "egress", boolean false) ∷ (codes "ingress", boolean true) ∷ [])) (Some true) (Some false) }
    ensures other_way { Says
        (fields ((codes "egress", boolean true) ∷ (codes "ingress", boolean false) ∷ [])) (Some false) (Some true) }
    ensures ingress { Says (fields ((codes "ingress", boolean false) ∷ [])) (Some false) None }
    ensures egress { Says (fields ((codes "egress", boolean false) ∷ [])) None (Some false) }
    ensures nothing { Says (fields []) None None }
    ensures null { Says null None None }
    ensures null_members { Says
        (fields ((codes "a", null) ∷ (codes "egress", null) ∷ (codes "ingress", boolean true) ∷ [])) (Some true) None }
    ensures unknown { IsRefused (fields ((codes "x", boolean true) ∷ []))
        (fault.UnknownMember (codes "spec.enableDefaultDeny.x")) }
    ensures of_text { IsRefused (text (codes "true")) (fault.WrongShape (codes "spec.enableDefaultDeny")) }
    ensures of_list { IsRefused (items []) (fault.WrongShape (codes "spec.enableDefaultDeny")) }
    ensures of_truth { IsRefused (boolean false) (fault.WrongShape (codes "spec.enableDefaultDeny")) }
    ensures word { IsRefused (fields ((codes "ingress", text (codes "yes")) ∷ []))
        (fault.WrongShape (codes "spec.enableDefaultDeny.ingress")) }
    ensures number { IsRefused (fields ((codes "egress", number (unsigned 1)) ∷ []))
        (fault.WrongShape (codes "spec.enableDefaultDeny.egress")) }
    ensures byte_order { IsRefused (fields ((codes "a", boolean true) ∷ (codes "egress", text (codes "no")) ∷ []))
        (fault.UnknownMember (codes "spec.enableDefaultDeny.a")) }
{}

/// Each name that is left out, and some that are unknown where they stand ('profile').
pub fn names_are_left_out()
    ensures rule { AreLeftOut in_rule (codes "nodeSelector" ∷ []) }
    ensures ingress { AreLeftOut in_ingress
        (codes "fromRequires" ∷ codes "fromNodes" ∷ codes "fromGroups" ∷ codes "icmps" ∷ codes "authentication" ∷ []) }
    ensures egress { AreLeftOut in_egress (codes "toRequires" ∷ codes "toNodes"
        ∷ codes "toGroups" ∷ codes "toFQDNs" ∷ codes "toServices" ∷ codes "icmps" ∷ codes "authentication" ∷ []) }
    ensures cidr_set { AreLeftOut in_cidr_set (codes "cidrGroupRef" ∷ codes "cidrGroupSelector" ∷ []) }
    ensures port_item { AreLeftOut in_port_item (codes "rules"
        ∷ codes "terminatingTLS" ∷ codes "originatingTLS" ∷ codes "listener" ∷ codes "serverNames" ∷ []) }
    ensures unknown_rule { AreUnknown (codes "spec.") in_rule (codes "icmps" ∷ codes "ingresses" ∷ []) }
    ensures unknown_ingress { AreUnknown (codes "spec.ingress[0].") in_ingress (codes "toRequires" ∷ codes "toFQDNs"
        ∷ codes "toEndpoints" ∷ codes "nodeSelector" ∷ codes "enableDefaultDeny" ∷ codes "rules" ∷ []) }
    ensures unknown_egress { AreUnknown (codes "spec.egress[0].") in_egress
        (codes "fromRequires" ∷ codes "fromNodes" ∷ codes "fromCIDR" ∷ codes "cidrGroupRef" ∷ []) }
    ensures unknown_port_item { AreUnknown
        (codes "spec.ingress[0].toPorts[0].") in_port_item (codes "icmps" ∷ codes "port" ∷ []) }
{}

/// Texts that are left out: a port with a letter, and ICMP by either name without ASCII case. No text of a prefix is: whether it
/// is one is told by its rule ('profile').
pub fn texts_are_left_out()
    ensures ports { map as_port (codes "http" ∷ codes "HTTP" ∷ codes "8o" ∷ [])
        ≡ replicate 3 (Some (fault.Unsupported (codes "named-port"))) }
    ensures no_ports { map as_port (codes "80" ∷ codes "" ∷ codes "-" ∷ codes "000080" ∷ []) ≡ replicate 4 None }
    ensures protocols { map as_protocol (codes "ICMP" ∷ codes "icmp" ∷ codes "ICMPv6" ∷ codes "icmpV6" ∷ [])
        ≡ replicate 4 (Some (fault.Unsupported (codes "icmp"))) }
    ensures no_protocols { map as_protocol (codes "ICMPv4" ∷ codes "TCP" ∷ codes "" ∷ []) ≡ replicate 3 None }
    ensures cidrs { map as_cidr (codes "::/0" ∷ codes "10.0.0.0:8" ∷ codes "10.0.0.0/8" ∷ codes "ten" ∷ [])
        ≡ replicate 4 None }
{}
