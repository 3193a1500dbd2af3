//! Examples that compute: what the definitions give of small objects, written out, and the wrong readings that
//! they refuse. Each function does nothing: its contract is the example.
ghost use Rattle.std.specs.Prelude.{◌≡◌, List, ◌∷◌, [], true, false, codes, None, Some};
ghost use Rattle.pol_labels.specs.declared.label.Label.{Label};
ghost use Rattle.pol_mapkey.specs.declared.Word.TheVariants.{Allowed, DeniedByDefault};
ghost use Rattle.pol_model.specs.declared.options.Options.{Options as AllOptions};
ghost use Rattle.pol_ports.specs.declared.Direction.TheVariants.{Egress, Ingress};
ghost use Rattle.pol_ports.specs.declared.Proto.TheVariants.{Tcp, Udp};
ghost use Rattle.pol_rule.specs.Covers.{entry_covers};
ghost use Rattle.pol_rule.specs.declared.policy.Peers.TheVariants.{Every};
ghost use Rattle.pol_rule.specs.declared.cause.RuleCause.TheVariants as rule;
ghost use Rattle.pol_rule.specs.declared.policy.Section.TheVariants as section;
ghost use Rattle.pol_netpol.specs.Examples.{anything, asking, bare, block, deny, entry, namespaces, net, net6, object, lets_all_in, lets_block_in, pod, pod_of_team, pods, pods_in, port, port_with, row, web_to_db, word_at};
ghost use Rattle.pol_netpol.specs.Faults.{fault_at, first_fault};
ghost use Rattle.pol_netpol.specs.Meaning.{allows, isolates, meets, of_pod, peer_takes, port_takes};

/// An entry that says nothing allows all, of numbers without a row too. In a rule such an entry covers nothing.
pub fn empty_entries_allow_all()
    ensures allowed { allows lets_all_in [] Ingress 4000000000 Udp 53 ≡ true }
    ensures no_entries { allows deny [] Ingress 4000000000 Udp 53 ≡ false }
    ensures in_a_rule { entry_covers (λ _. true) Udp 53 (record { peers = Every; ports = [] }) ≡ false }
{}

/// Without `policyTypes` an object isolates for ingress, and for egress where it has an entry of it: not always, and
/// not never.
pub fn types_have_defaults()
    ensures ingress { isolates lets_all_in Ingress ≡ true }
    ensures not_always { isolates lets_all_in Egress ≡ false }
    ensures not_never { isolates (object anything [] [] (entry [] [] ∷ [])) Egress ≡ true }
    ensures listed { isolates (object anything (codes "Egress" ∷ []) [] []) Egress ≡ true }
    ensures not_listed { isolates (object anything (codes "Egress" ∷ []) (entry [] [] ∷ []) []) Ingress ≡ false }
{}

/// A `podSelector` beside a `namespaceSelector` asks for both, and isn't a peer of its own.
pub fn selectors_of_one_peer_are_both_met()
    ensures both { peer_takes (codes "default") (pods_in (asking (codes "app") (codes "web")) (asking
        (codes "team") (codes "red"))) (row (pod_of_team (codes "other") (codes "web") (codes "red")) None) ≡ true }
    ensures pods_alone { peer_takes (codes "default") (pods_in (asking (codes "app") (codes "web")) (asking
        (codes "team") (codes "red"))) (row (pod_of_team (codes "default") (codes "web") (codes "blue")) None) ≡ false }
    ensures namespaces_alone { peer_takes (codes "default") (pods_in (asking (codes "app") (codes "web")) (asking
        (codes "team") (codes "red"))) (row (pod_of_team (codes "other") (codes "db") (codes "red")) None) ≡ false }
    ensures own_namespace { peer_takes (codes "default")
        (pods (asking (codes "app") (codes "web"))) (row (pod (codes "other") (codes "web")) None) ≡ false }
{}

/// A `namespaceSelector` that asks nothing selects the pods of every namespace, and nothing but pods.
pub fn empty_namespace_selectors_select_pods()
    ensures every_pod { peer_takes (codes "default")
        (namespaces anything) (row (pod (codes "other") (codes "web")) None) ≡ true }
    ensures no_pod { peer_takes (codes "default") (namespaces anything) (net 1) ≡ false }
{}

/// An expression whose operator isn't known is met by nothing, whatever the labels; no object that is accepted has one.
pub fn unknown_operators_select_nothing()
    ensures has { (labels : List Label) → meets (of_pod labels)
        (record { labels = []; expressions = record { key = codes "app"; operator = codes "Has"; values = [] } ∷ [] })
        ≡ false }
    ensures of_another_case { (labels : List Label) → meets (of_pod labels)
        (record { labels = []; expressions = record { key = codes "app"; operator = codes "exists"; values = [] } ∷ [] })
        ≡ false }
{}

/// An `ipBlock` takes what lies in its range, but nothing that lies in an exception, and no pod.
pub fn blocks_except()
    ensures within { peer_takes (codes "default") (block (codes "10.0.0.0/8") (codes "10.1.0.0/16" ∷ [])) (net 2)
        ≡ true }
    ensures excepted { peer_takes (codes "default") (block (codes "10.0.0.0/8") (codes "10.1.0.0/16" ∷ [])) (net 1)
        ≡ false }
    ensures no_prefix { peer_takes (codes "default")
        (block (codes "0.0.0.0/0") []) (row (pod (codes "default") (codes "web")) None) ≡ false }
{}

/// A range takes nothing of the other family, not even 0.0.0.0/0 or ::/0 does; and an exception of the other family doesn't lie
/// inside its range ('profile').
pub fn blocks_are_of_one_family()
    ensures within { peer_takes (codes "default")
        (block (codes "2001:db8::/32") (codes "2001:DB8:1::/48" ∷ [])) (net6 2) ≡ true }
    ensures excepted { peer_takes (codes "default")
        (block (codes "2001:db8::/32") (codes "2001:DB8:1::/48" ∷ [])) (net6 1) ≡ false }
    ensures ipv6_world { peer_takes (codes "default") (block (codes "::/0") []) (net6 1) ≡ true }
    ensures not_ipv4 { peer_takes (codes "default") (block (codes "::/0") []) (net 1) ≡ false }
    ensures not_ipv6 { peer_takes (codes "default") (block (codes "0.0.0.0/0") []) (net6 1) ≡ false }
    ensures same_family { first_fault (lets_block_in (codes "::/0") (codes "2001:db8::/32" ∷ [])) ≡ None }
    ensures except_of_ipv6 { first_fault (lets_block_in (codes "10.0.0.0/8") (codes "2001:db8::/32" ∷ []))
        ≡ Some (fault_at (Some (section.Ingress, 0)) rule.ExceptOutside) }
    ensures except_of_ipv4 { first_fault (lets_block_in (codes "::/0") (codes "10.0.0.0/8" ∷ []))
        ≡ Some (fault_at (Some (section.Ingress, 0)) rule.ExceptOutside) }
    ensures bad_text { first_fault (lets_block_in (codes "1::2::3/64") [])
        ≡ Some (fault_at (Some (section.Ingress, 0)) rule.BadCidr) }
{}

/// A port without a protocol is of TCP alone; without `endPort` it is one port, and without `port` every port.
pub fn ports_have_defaults()
    ensures tcp { port_takes Tcp 53 (port (Some 53) None) ≡ true }
    ensures not_udp { port_takes Udp 53 (port (Some 53) None) ≡ false }
    ensures one_port { port_takes Tcp 54 (port (Some 53) None) ≡ false }
    ensures last_port { port_takes Tcp 60 (port (Some 53) (Some 60)) ≡ true }
    ensures above { port_takes Tcp 61 (port (Some 53) (Some 60)) ≡ false }
    ensures every_port { port_takes Tcp 65535 (port None None) ≡ true }
{}

/// Each fault of an object.
pub fn objects_are_refused()
    ensures no_subject { first_fault (record deny { subject = None }) ≡ Some (fault_at None rule.NoSelector) }
    ensures bad_selector { first_fault (object (asking (codes "k8s:app") (codes "db")) [] [] [])
        ≡ Some (fault_at None rule.BadSelector) }
    ensures bad_type { first_fault (object anything (codes "ingress" ∷ []) [] [])
        ≡ Some (fault_at None rule.BadPolicyType) }
    ensures no_member { first_fault (object anything [] (entry (bare ∷ []) [] ∷ []) [])
        ≡ Some (fault_at (Some (section.Ingress, 0)) rule.BadPeer) }
    ensures bad_protocol { first_fault (object anything [] [] (entry [] [] ∷ entry [] (port_with (codes "tcp") 80 ∷ [])
        ∷ [])) ≡ Some (fault_at (Some (section.Egress, 1)) rule.BadProtocol) }
    ensures port_zero { first_fault (object anything [] (entry [] (port (Some 0) None ∷ []) ∷ []) [])
        ≡ Some (fault_at (Some (section.Ingress, 0)) rule.BadPort) }
    ensures end_below { first_fault (object anything [] (entry [] (port (Some 80) (Some 79) ∷ []) ∷ []) [])
        ≡ Some (fault_at (Some (section.Ingress, 0)) rule.BadEndPort) }
    ensures end_alone { first_fault (object anything [] (entry [] (port None (Some 79) ∷ []) ∷ []) [])
        ≡ Some (fault_at (Some (section.Ingress, 0)) rule.BadEndPort) }
    ensures by_number { first_fault (object anything [] (entry (bare ∷ []) (port (Some 0) None ∷ []) ∷ []) [])
        ≡ Some (fault_at (Some (section.Ingress, 0)) rule.BadPort) }
    ensures none { first_fault web_to_db ≡ None }
{}

/// The verdicts of translated objects: pods `web` come to pods `db` on one port, and nothing else does; a direction
/// without entries denies; and an entry that says nothing lets all in.
pub fn objects_have_verdicts()
    ensures web { (options : AllOptions) → word_at options web_to_db Ingress 256 Tcp 5432 ≡ Allowed }
    ensures db { (options : AllOptions) → word_at options web_to_db Ingress 257 Tcp 5432 ≡ DeniedByDefault }
    ensures egress { (options : AllOptions) → word_at options web_to_db Egress 2 Tcp 80 ≡ Allowed }
    ensures denied { (options : AllOptions) → word_at options deny Egress 2 Tcp 80 ≡ DeniedByDefault }
    ensures opened { (options : AllOptions) → word_at options lets_all_in Ingress 4000000000 Udp 53 ≡ Allowed }
{}
