//! What selectors ask, and what rules are refused for, on small rules.
ghost use Rattle.std.specs.Prelude.{◌≡◌, [], ◌∷◌, codes, map, replicate, None, Some};
ghost use Rattle.pol_addr.specs.Address.{addr_of_groups, addr_of_octets};
ghost use Rattle.pol_ports.specs.declared.Proto.TheVariants.{Sctp, Tcp, Udp};
ghost use Rattle.pol_rule.specs.declared.policy.DefaultDeny.{DefaultDeny};
ghost use Rattle.pol_rule.specs.declared.policy.Entity.TheVariants as entity;
ghost use Rattle.pol_rule.specs.declared.policy.Peer.TheVariants as peer;
ghost use Rattle.pol_rule.specs.declared.policy.Section.TheVariants as section;
ghost use Rattle.pol_sanitize.specs.Faults.{first_fault};
ghost use Rattle.pol_sanitize.specs.Peers.{cidr_peer, entity_of};
ghost use Rattle.pol_sanitize.specs.Ports.{protocol_of};
ghost use Rattle.pol_sanitize.specs.Sanitized.{policy_of};
ghost use Rattle.pol_sanitize.specs.Selectors.{peer_selector, subject_selector};
ghost use Rattle.script_examples.specs.Rules.{any_has, any_is, asks_key, asks_label, asks_nothing, cluster_wide, in_namespace, namespace_key, said_by, saying, source_has, source_is, without};

/// A subject's label of Kubernetes' own namespace key is left out, whether its source is written or any, and the policy's
/// namespace takes its place. That of another source stays, and so does an expression. A cluster-wide subject that asks
/// for nothing asks for nothing.
pub fn subjects_are_of_the_namespace()
    ensures bare { subject_selector (in_namespace (codes "a")) (asks_label
        (codes "io.kubernetes.pod.namespace") (codes "b")) ≡ source_is (codes "k8s") namespace_key (codes "a") ∷ [] }
    ensures any { subject_selector (in_namespace (codes "a")) (asks_label (codes "any:io.kubernetes.pod.namespace")
        (codes "b")) ≡ source_is (codes "k8s") namespace_key (codes "a") ∷ [] }
    ensures k8s { subject_selector (in_namespace (codes "a")) (asks_label (codes "k8s:io.kubernetes.pod.namespace")
        (codes "b")) ≡ source_is (codes "k8s") namespace_key (codes "a") ∷ [] }
    ensures other { subject_selector (in_namespace (codes "a"))
        (asks_label (codes "cni:io.kubernetes.pod.namespace") (codes "b"))
        ≡ source_is (codes "cni") namespace_key (codes "b") ∷ source_is (codes "k8s") namespace_key (codes "a") ∷ [] }
    ensures expression { subject_selector (in_namespace (codes "a")) (asks_key (codes "io.kubernetes.pod.namespace"))
        ≡ any_has namespace_key ∷ source_is (codes "k8s") namespace_key (codes "a") ∷ [] }
    ensures init { subject_selector (in_namespace (codes "a")) (asks_key (codes "reserved:init"))
        ≡ source_has (codes "reserved") (codes "init") ∷ [] }
    ensures any_init { subject_selector (in_namespace (codes "a")) (asks_key (codes "init"))
        ≡ any_has (codes "init") ∷ source_is (codes "k8s") namespace_key (codes "a") ∷ [] }
    ensures nothing { subject_selector (in_namespace (codes "a")) asks_nothing
        ≡ source_is (codes "k8s") namespace_key (codes "a") ∷ [] }
    ensures wide_nothing { subject_selector cluster_wide asks_nothing ≡ [] }
    ensures wide_label { subject_selector cluster_wide
        (asks_label (codes "any:io.kubernetes.pod.namespace") (codes "b")) ≡ any_is namespace_key (codes "b") ∷ [] }
{}

/// A peer that says itself in which namespaces it is isn't bound to the policy's: by Kubernetes' own namespace key, by the
/// keys of a namespace's own labels, whether their source is written or any, or by any key of the source `reserved`. A
/// cluster-wide peer that asks for nothing has a namespace.
pub fn peers_say_their_namespaces()
    ensures any { peer_selector (in_namespace (codes "a"))
        (asks_label (codes "any:io.kubernetes.pod.namespace") (codes "b")) ≡ any_is namespace_key (codes "b") ∷ [] }
    ensures k8s { peer_selector (in_namespace (codes "a")) (asks_key (codes "k8s:io.kubernetes.pod.namespace"))
        ≡ source_has (codes "k8s") namespace_key ∷ [] }
    ensures other { peer_selector (in_namespace (codes "a"))
        (asks_label (codes "cni:io.kubernetes.pod.namespace") (codes "b"))
        ≡ source_is (codes "cni") namespace_key (codes "b") ∷ source_is (codes "k8s") namespace_key (codes "a") ∷ [] }
    ensures labels { peer_selector (in_namespace (codes "a")) (asks_key (codes "io.cilium.k8s.namespace.labels.team"))
        ≡ any_has (codes "io.cilium.k8s.namespace.labels.team") ∷ [] }
    ensures other_labels { peer_selector (in_namespace (codes "a"))
        (asks_key (codes "cni:io.cilium.k8s.namespace.labels.team")) ≡ source_has (codes "cni")
        (codes "io.cilium.k8s.namespace.labels.team") ∷ source_is (codes "k8s") namespace_key (codes "a") ∷ [] }
    ensures reserved { peer_selector (in_namespace (codes "a")) (asks_key (codes "reserved:host"))
        ≡ source_has (codes "reserved") (codes "host") ∷ [] }
    ensures nothing { peer_selector (in_namespace (codes "a")) asks_nothing
        ≡ source_is (codes "k8s") namespace_key (codes "a") ∷ [] }
    ensures wide_nothing { peer_selector cluster_wide asks_nothing ≡ source_has (codes "k8s") namespace_key ∷ [] }
    ensures wide_label { peer_selector cluster_wide (asks_label (codes "app") (codes "x"))
        ≡ any_is (codes "app") (codes "x") ∷ [] }
{}

/// An exception lies inside its prefix, which it may be itself, and is of its family ('profile').
pub fn exceptions_lie_inside()
    ensures outside { first_fault (without (codes "10.0.0.0/8") (codes "11.0.0.0/16"))
        ≡ Some (record { number = 19; rule = 0; «at» = Some (section.Egress, 0) }) }
    ensures wider { first_fault (without (codes "10.0.0.0/8") (codes "10.0.0.0/7"))
        ≡ Some (record { number = 19; rule = 0; «at» = Some (section.Egress, 0) }) }
    ensures itself { first_fault (without (codes "10.0.0.0/8") (codes "10.0.0.0/8")) ≡ None }
    ensures inside { first_fault (without (codes "10.0.0.0/8") (codes "10.255.255.255")) ≡ None }
    ensures wider_ipv6 { first_fault (without (codes "2001:db8::/32") (codes "2001:db8::/31"))
        ≡ Some (record { number = 19; rule = 0; «at» = Some (section.Egress, 0) }) }
    ensures of_ipv6 { first_fault (without (codes "10.0.0.0/8") (codes "2001:db8::/32"))
        ≡ Some (record { number = 19; rule = 0; «at» = Some (section.Egress, 0) }) }
    ensures of_ipv4 { first_fault (without (codes "::/0") (codes "0.0.0.0/0"))
        ≡ Some (record { number = 19; rule = 0; «at» = Some (section.Egress, 0) }) }
    ensures inside_ipv6 { first_fault (without (codes "2001:db8::/32") (codes "2001:DB8:1::/48")) ≡ None }
    ensures host_bits { first_fault (without (codes "1:2:3:4:8000::1/65") (codes "1:2:3:4:ffff::")) ≡ None }
    ensures bad_ipv6 { first_fault (without (codes "2001:db8::/32") (codes "2001:db8::1::/48"))
        ≡ Some (record { number = 18; rule = 0; «at» = Some (section.Egress, 0) }) }
    ensures bad { first_fault (without (codes "10.0.0.0/8") (codes "10.0.0/16"))
        ≡ Some (record { number = 18; rule = 0; «at» = Some (section.Egress, 0) }) }
{}

/// A text of either family is a prefix, with its host bits cleared, and its greatest length where it names none ('profile').
pub fn prefixes_are_of_either_family()
    ensures ipv4 { cidr_peer (codes "10.1.2.3/8")
        ≡ Some (peer.Cidr (record { addr = addr_of_octets 10 0 0 0; len = 8 }) []) }
    ensures ipv6 { cidr_peer (codes "2001:DB8::5/32")
        ≡ Some (peer.Cidr (record { addr = addr_of_groups (8193 ∷ 3512 ∷ 0 ∷ 0 ∷ 0 ∷ 0 ∷ 0 ∷ 0 ∷ []); len = 32 }) []) }
    ensures bare { cidr_peer (codes "fd00::1")
        ≡ Some (peer.Cidr (record { addr = addr_of_groups (64768 ∷ 0 ∷ 0 ∷ 0 ∷ 0 ∷ 0 ∷ 0 ∷ 1 ∷ []); len = 128 }) []) }
    ensures host_bits { cidr_peer (codes "1:2:3:4:ffff::1/65")
        ≡ Some (peer.Cidr (record { addr = addr_of_groups (1 ∷ 2 ∷ 3 ∷ 4 ∷ 32768 ∷ 0 ∷ 0 ∷ 0 ∷ []); len = 65 }) []) }
    ensures too_long { map cidr_peer (codes "::/129"
        ∷ codes "10.0.0.0/33" ∷ codes "::/00" ∷ codes "::ffff:10.0.0.0/104" ∷ []) ≡ replicate 4 None }
{}

/// What lies outside the cluster is named by three entities: all of it, and that of each family (Cilium, Network Policy, "Entities
/// based").
pub fn worlds_are_named()
    ensures named { map entity_of (codes "world" ∷ codes "world-ipv4" ∷ codes "world-ipv6" ∷ [])
        ≡ Some entity.World ∷ Some entity.WorldIpv4 ∷ Some entity.WorldIpv6 ∷ [] }
    ensures not_named { map entity_of (codes "world-ipv5" ∷ codes "World-IPv4" ∷ codes "worlds" ∷ codes "ipv6" ∷ [])
        ≡ replicate 4 None }
{}

/// What a rule says of default deny is kept as it was written, whatever it is.
pub fn default_deny_is_kept()
    ensures accepted { (said : DefaultDeny) → first_fault (saying said) ≡ None }
    ensures kept { (said : DefaultDeny) → said_by (policy_of (saying said)) ≡ said ∷ [] }
{}

/// Protocols are told without ASCII case, and a missing one is ANY ('profile').
pub fn protocols_are_told()
    ensures any { map protocol_of (codes "ANY" ∷ codes "aNy" ∷ codes "any" ∷ codes "" ∷ [])
        ≡ Some None ∷ Some None ∷ Some None ∷ Some None ∷ [] }
    ensures one { map protocol_of (codes "tCp" ∷ codes "UDP" ∷ codes "sctp" ∷ [])
        ≡ Some (Some Tcp) ∷ Some (Some Udp) ∷ Some (Some Sctp) ∷ [] }
    ensures none { map protocol_of (codes "IP" ∷ codes "TCP " ∷ codes "ANYS" ∷ []) ≡ None ∷ None ∷ None ∷ [] }
{}
