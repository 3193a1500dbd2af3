//! Refusals from the bytes of a line to the bytes of its answer: each fault of documents once, beside another one that stands
//! behind it.
ghost use Rattle.std.specs.Prelude.{codes};
ghost use Rattle.answer_examples.specs.Answered.{IsRefusedBy, cilium, network};

/// What is wrong at the top comes before all that stands further in, in the order 10, 11, 12 ('profile').
pub fn heads_are_answered()
    ensures not_policy { IsRefusedBy (codes
        "{\"apiVersion\":\"cilium.io/v1\",\"kind\":\"CiliumNetworkPolicy\",\"metadata\":{},\"spec\":{\"nodeSelector\":{}}}")
        (codes "10 not-policy") }
    ensures no_name { IsRefusedBy (codes
        "{\"apiVersion\":\"cilium.io/v2\",\"kind\":\"CiliumNetworkPolicy\",\"metadata\":{\"namespace\":\"shop\"},\"specs\":[]}")
        (codes "11 no-name") }
    ensures no_spec { IsRefusedBy (codes
        "{\"apiVersion\":\"cilium.io/v2\",\"kind\":\"CiliumClusterwideNetworkPolicy\",\"metadata\":{\"name\":\"p\"},\"nothing\":{},\"specs\":[]}")
        (codes "12 no-spec") }
{}

/// The first fault of the walk is told: `egress` comes before `ingress`, by the bytes of their names ('profile').
pub fn members_are_answered()
    ensures unknown_member { IsRefusedBy
        (cilium (codes "{\"egress\":[{\"toPort\":[]}],\"endpointSelector\":{},\"ingress\":[{\"icmps\":[]}]}"))
        (codes "13 unknown-member spec.egress[0].toPort") }
    ensures unsupported { IsRefusedBy
        (cilium (codes "{\"egress\":[{\"toFQDNs\":[]}],\"endpointSelector\":{},\"ingress\":[{\"fromPods\":[]}]}"))
        (codes "14 unsupported toFQDNs") }
    ensures wrong_shape { IsRefusedBy (cilium (codes
        "{\"egress\":[{},{\"toPorts\":[{\"ports\":[{\"port\":80}]}]}],\"endpointSelector\":{},\"ingress\":[{\"fromPods\":[]}]}"))
        (codes "25 wrong-shape spec.egress[1].toPorts[0].ports[0].port") }
{}

/// The subject of a rule comes before its sections, and these in the order `ingress`, `ingressDeny`, `egress`,
/// `egressDeny`, whatever the numbers of the faults; in one entry the least number comes ('profile').
pub fn rules_are_answered()
    ensures no_selector { IsRefusedBy (cilium
        (codes "{\"ingress\":[{\"toPorts\":[{\"ports\":[{\"port\":\"65536\"}]}]}]}")) (codes "15 no-selector #0") }
    ensures combining { IsRefusedBy (cilium (codes
        "{\"egress\":[{\"toEntities\":[\"word\"]}],\"endpointSelector\":{},\"ingress\":[{},{\"fromCIDR\":[\"10.0.0.0/33\"],\"fromEndpoints\":[{\"matchLabels\":{\"app\":\"a\"}}]}]}"))
        (codes "16 combining #0.ingress[1]") }
    ensures bad_selector { IsRefusedBy (cilium (codes
        "{\"egress\":[{\"toCIDR\":[\"10.0.0.0/33\"],\"toEntities\":[\"world\"]}],\"endpointSelector\":{},\"ingressDeny\":[{\"fromEndpoints\":[{\"matchExpressions\":[{\"key\":\"app\",\"operator\":\"Has\"}]}]}]}"))
        (codes "17 bad-selector #0.ingressDeny[0]") }
    ensures bad_cidr { IsRefusedBy (cilium (codes
        "{\"egress\":[{\"toCIDR\":[\"10.0.0.0/33\"]}],\"egressDeny\":[{\"toEndpoints\":[{\"matchExpressions\":[{\"key\":\"app\",\"operator\":\"In\"}]}]}],\"endpointSelector\":{}}"))
        (codes "18 bad-cidr #0.egress[0]") }
    ensures except_outside { IsRefusedBy (cilium (codes
        "{\"egressDeny\":[{\"toCIDR\":[\"ten\"]}],\"endpointSelector\":{},\"ingress\":[{\"fromCIDRSet\":[{\"cidr\":\"10.0.0.0/8\",\"except\":[\"10.1.0.0/16\",\"11.0.0.0/16\"]}]}]}"))
        (codes "19 except-outside #0.ingress[0]") }
    ensures unknown_entity { IsRefusedBy (cilium (codes
        "{\"egress\":[{\"toCIDRSet\":[{\"cidr\":\"10.0.0.0/8\",\"except\":[\"11.0.0.0/8\"]}]}],\"egressDeny\":[{\"toEntities\":[\"word\"]}],\"endpointSelector\":{},\"ingressDeny\":[{\"fromEntities\":[\"world\",\"node\"]}]}"))
        (codes "20 unknown-entity #0.ingressDeny[0]") }
    ensures bad_port { IsRefusedBy (cilium (codes
        "{\"endpointSelector\":{},\"ingress\":[{\"toPorts\":[{\"ports\":[{\"port\":\"80\",\"protocol\":\"TCP\"},{\"port\":\"65536\",\"protocol\":\"HTTP\"}]}]}],\"ingressDeny\":[{\"fromEntities\":[\"word\"]}]}"))
        (codes "21 bad-port #0.ingress[0]") }
    ensures bad_protocol { IsRefusedBy (cilium (codes
        "{\"egress\":[{\"toPorts\":[{\"ports\":[{\"port\":\"65536\"}]}]}],\"endpointSelector\":{},\"ingress\":[{\"toPorts\":[{\"ports\":[{\"port\":\"80\",\"protocol\":\"HTTP\"}]}]}]}"))
        (codes "22 bad-protocol #0.ingress[0]") }
    ensures too_many_ports { IsRefusedBy (cilium (codes
        "{\"egress\":[{\"toPorts\":[{\"ports\":[{\"port\":\"80\",\"protocol\":\"HTTP\"}]}]}],\"endpointSelector\":{},\"ingress\":[{\"toPorts\":[{\"ports\":[{\"port\":\"1\"},{\"port\":\"2\"},{\"port\":\"3\"},{\"port\":\"4\"},{\"port\":\"5\"},{\"port\":\"6\"},{\"port\":\"7\"},{\"port\":\"8\"},{\"port\":\"9\"},{\"port\":\"10\"},{\"port\":\"11\"},{\"port\":\"12\"},{\"port\":\"13\"},{\"port\":\"14\"},{\"port\":\"15\"},{\"port\":\"16\"},{\"port\":\"17\"},{\"port\":\"18\"},{\"port\":\"19\"},{\"port\":\"20\"},{\"port\":\"21\"},{\"port\":\"22\"},{\"port\":\"23\"},{\"port\":\"24\"},{\"port\":\"25\"},{\"port\":\"26\"},{\"port\":\"27\"},{\"port\":\"28\"},{\"port\":\"29\"},{\"port\":\"30\"},{\"port\":\"31\"},{\"port\":\"32\"},{\"port\":\"33\"},{\"port\":\"34\"},{\"port\":\"35\"},{\"port\":\"36\"},{\"port\":\"37\"},{\"port\":\"38\"},{\"port\":\"39\"},{\"port\":\"40\"},{\"port\":\"41\"}]}]}]}"))
        (codes "23 too-many-ports #0.ingress[0]") }
    ensures empty_ports { IsRefusedBy (cilium (codes
        "{\"egress\":[{\"toPorts\":[{\"ports\":[]}]}],\"egressDeny\":[{\"toPorts\":[{\"ports\":[{\"port\":\"80\",\"protocol\":\"HTTP\"}]}]}],\"endpointSelector\":{}}"))
        (codes "24 empty-ports #0.egress[0]") }
{}

/// A NetworkPolicy has the one `spec`, whatever stands in `specs`. The types come before `ingress`, and that before `egress`
/// ('profile').
pub fn networks_are_answered()
    ensures no_spec { IsRefusedBy (codes
        "{\"apiVersion\":\"networking.k8s.io/v1\",\"kind\":\"NetworkPolicy\",\"metadata\":{\"name\":\"p\"},\"specs\":[{\"podSelector\":{}}]}")
        (codes "12 no-spec") }
    ensures bad_exception { IsRefusedBy (network (codes
        "{\"egress\":[{\"to\":[{\"podSelector\":{\"matchExpressions\":[{\"key\":\"app\",\"operator\":\"Has\"}]}}]}],\"ingress\":[{\"from\":[{\"ipBlock\":{\"cidr\":\"10.0.0.0/8\",\"except\":[\"ten\"]}}]}],\"podSelector\":{}}"))
        (codes "18 bad-cidr #0.ingress[0]") }
    ensures other_family { IsRefusedBy (network (codes
        "{\"egress\":[{\"ports\":[{\"port\":0}]}],\"ingress\":[{\"from\":[{\"ipBlock\":{\"cidr\":\"::/0\",\"except\":[\"10.0.0.0/8\"]}}]}],\"podSelector\":{}}"))
        (codes "19 except-outside #0.ingress[0]") }
    ensures bad_policy_type { IsRefusedBy
        (network (codes "{\"ingress\":[{\"from\":[{}]}],\"podSelector\":{},\"policyTypes\":[\"Egress\",\"ingress\"]}"))
        (codes "26 bad-policy-type #0") }
    ensures bad_peer { IsRefusedBy (network (codes
        "{\"egress\":[{\"ports\":[{\"port\":0}]}],\"ingress\":[{\"from\":[{\"podSelector\":{}},{}],\"ports\":[{\"endPort\":80,\"port\":443}]}],\"podSelector\":{}}"))
        (codes "27 bad-peer #0.ingress[0]") }
    ensures bad_end_port { IsRefusedBy (network (codes
        "{\"egress\":[{\"to\":[{\"ipBlock\":{\"cidr\":\"10.0.0.0/8\"},\"podSelector\":{}}]}],\"ingress\":[{},{\"ports\":[{\"endPort\":80,\"port\":443}]}],\"podSelector\":{}}"))
        (codes "28 bad-end-port #0.ingress[1]") }
{}
