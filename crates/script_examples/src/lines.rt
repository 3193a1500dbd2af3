//! What lines of the script ask, and what they are refused for, on small lines; and that each command is read again.
ghost use Rattle.std.specs.Prelude.{◌≡◌, ℕ, List, [], ◌∷◌, codes, map, replicate, None, Ok, Err};
ghost use Rattle.serde_json.specs.Data.{Data, unsigned, null, number};
ghost use Rattle.pol_addr.specs.Address.{addr_of_groups, addr_of_octets};
ghost use Rattle.pol_model.specs.declared.options.Mode.TheVariants as mode;
ghost use Rattle.pol_model.specs.declared.request.Remote.TheVariants as remote;
ghost use Rattle.pol_model.specs.declared.request.Request.TheVariants as request;
ghost use Rattle.pol_ports.specs.declared.Direction.TheVariants.{Ingress};
ghost use Rattle.pol_ports.specs.declared.Proto.TheVariants.{Tcp};
ghost use Rattle.pol_script.specs.Reading.{object_of, read_object, reading_of};
ghost use Rattle.pol_script.specs.declared.command.Command.{Command};
ghost use Rattle.pol_script.specs.declared.command.Command.TheVariants as command;
ghost use Rattle.pol_script.specs.declared.line_fault.LineFault.TheVariants as fault;
ghost use Rattle.script_examples.specs.Answers.{own, wide};
ghost use Rattle.script_examples.specs.Commands.{Writes};
ghost use Rattle.script_examples.specs.Endpoints.{IsReadAt, at_address};
ghost use Rattle.script_examples.specs.Printed.{address_query_line};
ghost use Rattle.script_examples.specs.Values.{fields, items, text};

/// A `delete` takes each name of the script, also one that no policy can have; a namespace that isn't named is `default`,
/// and a cluster-wide policy has none, whatever is named ('profile').
pub fn deletes_name_policies()
    ensures name { read_object (fields ((codes "kind", text (codes "CiliumNetworkPolicy"))
        ∷ (codes "name", text (codes "A/b_C.d-1")) ∷ (codes "op", text (codes "delete")) ∷ []))
        ≡ Ok (command.Commit 1 (request.Remove (own (codes "A/b_C.d-1")))) }
    ensures namespace { read_object (fields ((codes "kind", text (codes "CiliumNetworkPolicy"))
        ∷ (codes "name", text (codes "p")) ∷ (codes "namespace", text (codes "N/s"))
        ∷ (codes "op", text (codes "delete")) ∷ (codes "session", number (unsigned 8)) ∷ []))
        ≡ Ok (command.Commit 8 (request.Remove (record (own (codes "p")) { namespace = codes "N/s" }))) }
    ensures cluster_wide { read_object (fields ((codes "kind", text (codes "CiliumClusterwideNetworkPolicy"))
        ∷ (codes "name", text (codes "p")) ∷ (codes "namespace", text (codes "n"))
        ∷ (codes "op", text (codes "delete")) ∷ [])) ≡ Ok (command.Commit 1 (request.Remove (wide (codes "p")))) }
    ensures bad_namespace { read_object (fields ((codes "kind", text (codes "CiliumClusterwideNetworkPolicy"))
        ∷ (codes "name", text (codes "a b")) ∷ (codes "namespace", text []) ∷ (codes "op", text (codes "delete")) ∷ []))
        ≡ Err (fault.BadField (codes "namespace")) }
    ensures bad_name { read_object (fields ((codes "kind", text (codes "CiliumNetworkPolicy"))
        ∷ (codes "name", text (codes "a b")) ∷ (codes "op", text (codes "delete")) ∷ []))
        ≡ Err (fault.BadField (codes "name")) }
    ensures bad_kind { read_object (fields ((codes "kind", text (codes "networkPolicy"))
        ∷ (codes "name", text (codes "a b")) ∷ (codes "op", text (codes "delete")) ∷ []))
        ≡ Err (fault.BadField (codes "kind")) }
    ensures network { read_object (fields ((codes "kind", text (codes "NetworkPolicy"))
        ∷ (codes "name", text (codes "p")) ∷ (codes "op", text (codes "delete")) ∷ []))
        ≡ Ok (command.Commit 1 (request.Remove (own (codes "networkpolicy/p")))) }
    ensures network_by_its_key { read_object (fields ((codes "kind", text (codes "CiliumNetworkPolicy"))
        ∷ (codes "name", text (codes "networkpolicy/p")) ∷ (codes "op", text (codes "delete")) ∷ []))
        ≡ Ok (command.Commit 1 (request.Remove (own (codes "networkpolicy/p")))) }
{}

/// A member that is lacking or of another form is told before one of another name, and that before what the members hold;
/// `session` is the last of them ('profile').
pub fn faults_of_lines_are_in_order()
    ensures no_operation { read_object (fields ((codes "oq", text []) ∷ [])) ≡ Err fault.NoOp }
    ensures another_operation { read_object (fields ((codes "op", text (codes "fly")) ∷ [])) ≡ Err fault.NoOp }
    ensures address_before_session { read_object (fields ((codes "labels", items []) ∷ (codes "name", text (codes "a"))
        ∷ (codes "op", text (codes "endpoint")) ∷ (codes "session", number (unsigned 9)) ∷ []))
        ≡ Err (fault.BadField (codes "address")) }
    ensures session_before_names { read_object (fields ((codes "and", text []) ∷ (codes "op", text (codes "sync"))
        ∷ (codes "session", number (unsigned 0)) ∷ [])) ≡ Err (fault.BadField (codes "session")) }
    ensures names_before_labels { read_object (fields ((codes "labels", items (text (codes "k8s:") ∷ []))
        ∷ (codes "name", text (codes "a")) ∷ (codes "op", text (codes "identity")) ∷ (codes "other", text []) ∷ []))
        ≡ Err (fault.UnknownField (codes "other")) }
    ensures labels_before_address { read_object
        (fields ((codes "address", text (codes "x")) ∷ (codes "labels", items (text (codes "k8s:") ∷ []))
        ∷ (codes "name", text (codes "a")) ∷ (codes "op", text (codes "endpoint")) ∷ [])) ≡ Err fault.BadLabel }
    ensures bad_label_before_twice { read_object
        (fields ((codes "labels", items (text (codes "a=1") ∷ text (codes "a=2") ∷ text (codes "k8s:") ∷ []))
        ∷ (codes "name", text (codes "a")) ∷ (codes "op", text (codes "identity")) ∷ [])) ≡ Err fault.BadLabel }
    ensures twice { read_object (fields ((codes "labels", items (text (codes "a=1") ∷ text (codes "a=2") ∷ []))
        ∷ (codes "name", text (codes "a")) ∷ (codes "op", text (codes "identity")) ∷ []))
        ≡ Err fault.DuplicateLabelKey }
    ensures bad_address { read_object (fields ((codes "address", text (codes "10.0.0.256")) ∷ (codes "labels", items [])
        ∷ (codes "name", text (codes "a")) ∷ (codes "op", text (codes "endpoint")) ∷ [])) ≡ Err fault.BadAddress }
    ensures null_is_absent { read_object (fields ((codes "enable", text (codes "always"))
        ∷ (codes "op", text (codes "mode")) ∷ (codes "other", null) ∷ (codes "session", null) ∷ []))
        ≡ Ok (command.Commit 1 (request.SetMode mode.Always)) }
    ensures phase_has_no_session { read_object (fields ((codes "op", text (codes "phase"))
        ∷ (codes "session", number (unsigned 1)) ∷ [])) ≡ Err (fault.UnknownField (codes "session")) }
{}

/// An address is one of either family, in any of its texts ('profile').
pub fn addresses_are_of_either_family()
    ensures ipv4 { IsReadAt (codes "10.0.0.1") (addr_of_octets 10 0 0 1) }
    ensures ipv6 { IsReadAt (codes "fd00::1") (addr_of_groups (64768 ∷ 0 ∷ 0 ∷ 0 ∷ 0 ∷ 0 ∷ 0 ∷ 1 ∷ [])) }
    ensures eight_groups { IsReadAt (codes "FD00:0:0:0:0:0:0:1")
        (addr_of_groups (64768 ∷ 0 ∷ 0 ∷ 0 ∷ 0 ∷ 0 ∷ 0 ∷ 1 ∷ [])) }
    ensures zeros { IsReadAt (codes "fd00::0001") (addr_of_groups (64768 ∷ 0 ∷ 0 ∷ 0 ∷ 0 ∷ 0 ∷ 0 ∷ 1 ∷ [])) }
    ensures nothing { IsReadAt (codes "::") (addr_of_groups (0 ∷ 0 ∷ 0 ∷ 0 ∷ 0 ∷ 0 ∷ 0 ∷ 0 ∷ [])) }
    ensures query { read_object (address_query_line (codes "trace") None (codes "web") Ingress
        (codes "2001:db9::1") Tcp 80) ≡ Ok (command.Trace 1 (record {
          endpoint = codes "web";
          dir = Ingress;
          remote = remote.Address (addr_of_groups (8193 ∷ 3513 ∷ 0 ∷ 0 ∷ 0 ∷ 0 ∷ 0 ∷ 1 ∷ []));
          proto = Tcp;
          port = 80;
        })) }
    ensures none { map at_address (codes "1::2::3" ∷ codes "1:2:3:4::5:6:7:8"
        ∷ codes "1:2:3:4:5:6:7:8:9" ∷ codes "1:2:3:4:5:6:7" ∷ codes "::00001" ∷ codes "::fffg"
        ∷ codes "::ffff:10.0.0.1" ∷ codes "fe80::1%1" ∷ codes "::/128" ∷ []) ≡ replicate 9 (Err fault.BadAddress) }
    ensures of_a_query { read_object (address_query_line
        (codes "verdict") None (codes "web") Ingress (codes "::1::") Tcp 80) ≡ Err fault.BadAddress }
{}

/// Every command is read again from each value that writes it ('profile'): a session or a namespace that is the one left out
/// may be named or not, labels and addresses stand as any of their texts, and a policy as the document of any policy of
/// Cilium's or Kubernetes' that says it. So it is from whatever bytes are read as that value.
pub fn every_command_is_read_again()
    ensures value { (d : Data) (asked : Command) → Writes d asked → read_object d ≡ Ok asked }
    ensures bytes { (line : List ℕ) (d : Data) (asked : Command)
        → object_of line ≡ Ok d → Writes d asked → reading_of line ≡ Ok asked }
{}

/// What is read is a command that some value writes, so that no condition of a written command could be left out.
pub fn what_is_read_is_written()
    ensures { (d : Data) (asked : Command) → read_object d ≡ Ok asked → (e : Data) × Writes e asked }
{}
