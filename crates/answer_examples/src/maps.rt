//! What is written of the map of an endpoint, at the end of a script.
ghost use Rattle.std.specs.Prelude.{◌≡◌, ◌∷◌, [], codes, true, false};
ghost use Rattle.answer_examples.specs.Answered.{answered, by_default};
ghost use Rattle.answer_examples.specs.Script.{web_to_db};
ghost use Rattle.pol_audit.specs.Text.{text_of};
ghost use Rattle.pol_mapkey.specs.MapKey.{port_key};
ghost use Rattle.pol_mapkey.specs.declared.Kind.TheVariants.{Deny};
ghost use Rattle.pol_map_dump.specs.AtEnd.{is_live, map_text};
ghost use Rattle.pol_ports.specs.PortPrefix.{prefix_at};
ghost use Rattle.pol_ports.specs.declared.Direction.TheVariants.{Egress};
ghost use Rattle.pol_ports.specs.declared.Proto.TheVariants.{Udp};

/// The table of the map, with a line for each entry; or that none of the name is live, behind the requests of the script. The
/// script itself is answered line by line ('profile').
pub fn what_maps_are_written()
    ensures answers { answered web_to_db ≡ codes "ok 1 identity 256\nok 2 identity 257\nok 3\n" }
    ensures isolated { map_text by_default (codes "db") web_to_db
        ≡ codes "ingress 1 every 0/0 allow\ningress 257 every 0/0 allow\negress 0 every 0/0 allow\n" }
    ensures not_isolated { map_text by_default (codes "web") web_to_db
        ≡ codes "ingress 0 every 0/0 allow\ningress 1 every 0/0 allow\negress 0 every 0/0 allow\n" }
    ensures nobody { map_text by_default (codes "api") web_to_db ≡ codes "noendpoint at 3\n" }
    ensures ports { text_of ((port_key Egress 257 Udp (prefix_at 1024 6), Deny) ∷ [])
        ≡ codes "egress 257 UDP 1024/6 deny\n" }
    ensures lives { is_live by_default (codes "db") web_to_db ≡ true }
    ensures lives_not { is_live by_default (codes "api") web_to_db ≡ false }
{}
