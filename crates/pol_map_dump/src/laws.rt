//! Laws of maps and of what an audit finds of them. Each function does nothing: its contract is the law.
ghost use Rattle.std.specs.Prelude.{◌≡◌, ◌↔◌, ◌<◌, ◌^◌, ℕ, List, []};
ghost use Rattle.pol_ports.specs.declared.Direction.{Direction};
ghost use Rattle.pol_ports.specs.declared.Proto.{Proto};
ghost use Rattle.pol_mapkey.specs.Entries.{Entry, read_map};
ghost use Rattle.pol_audit.specs.declared.difference.Difference.{Difference};
ghost use Rattle.pol_audit.specs.declared.packet.Audit.TheVariants.{Same, Differs};
ghost use Rattle.pol_audit.specs.declared.packet.Packet.{Packet};
ghost use Rattle.pol_audit.specs.Audit.{IsAudit};
ghost use Rattle.pol_audit.specs.Difference.{IsDifference};
ghost use Rattle.pol_model.specs.declared.options.Options.{Options as AllOptions};
ghost use Rattle.pol_model.specs.declared.request.Request.{Request};
ghost use Rattle.pol_model.specs.declared.row.Endpoint.{Endpoint};
ghost use Rattle.pol_model.specs.After.{state_of};
ghost use Rattle.pol_model.specs.PolicyMap.{policy_map};
ghost use Rattle.pol_model.specs.Verdict.{verdict_of};

/// The maps of two endpoints, each in a state of its own, say the same of a packet exactly where the verdicts of the two scans
/// are the same: whoever compares two maps compares what the rules of the two states mean.
pub fn maps_agree_where_verdicts_do()
    ensures { (options later : AllOptions) (requests more : List Request)
        (endpoint other : Endpoint) (dir : Direction) (number : ℕ) (proto : Proto) (port : ℕ)
        → port < 2 ^ 16 → (read_map (policy_map options (state_of options requests) endpoint) dir number proto port
        ≡ read_map (policy_map later (state_of later more) other) dir number proto port)
        ↔ (verdict_of options (state_of options requests) endpoint dir number proto port
        ≡ verdict_of later (state_of later more) other dir number proto port) }
{}

/// So an audit of two such maps that finds them the same says that all verdicts are the same; and one that finds a packet says
/// that its two words are the verdicts of the two scans. Tables that an audit finds the same have no difference.
pub fn an_audit_of_maps_compares_verdicts()
    ensures same { (options later : AllOptions) (requests more : List Request) (endpoint other : Endpoint)
        → IsAudit (policy_map options (state_of options requests) endpoint)
        (policy_map later (state_of later more) other) Same ↔ ((dir : Direction) (number : ℕ) (proto : Proto) (port : ℕ)
        → port < 2 ^ 16 → verdict_of options (state_of options requests) endpoint dir number proto port
        ≡ verdict_of later (state_of later more) other dir number proto port) }
    ensures differs { (options later : AllOptions) (requests more : List Request) (endpoint other : Endpoint)
        (p : Packet) → p.port < 2 ^ 16 → IsAudit (policy_map options (state_of options requests) endpoint)
        (policy_map later (state_of later more) other) (Differs p)
        → (verdict_of options (state_of options requests) endpoint p.dir p.id p.proto p.port ≡ p.left)
        × (verdict_of later (state_of later more) other p.dir p.id p.proto p.port ≡ p.right) }
    ensures no_difference { (left right : List Entry) (list : List Difference)
        → IsAudit left right Same → IsDifference left right list → list ≡ [] }
{}
