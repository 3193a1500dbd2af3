//! Laws of the lines of a script, over the definitions alone.
//! Each function does nothing: its contract is the law.
ghost use Rattle.std.specs.Prelude.{◌≡◌, ◌≢◌, ℕ, true, false, List, [], ◌∷◌, ◌++◌, IsTrue, Result, Ok, Err};
ghost use Rattle.std.specs.List.{flat_map, list_all};
ghost use Rattle.serde_json.specs.Data.{Data};
ghost use Rattle.pol_addr.specs.declared.address.Addr.{Addr};
ghost use Rattle.pol_json.specs.Texts.{is_dns_name, is_name};
ghost use Rattle.pol_labels.specs.declared.label.Label.{Label};
ghost use Rattle.pol_model.specs.declared.request.Request.TheVariants.{AddEndpoint, Apply};
ghost use Rattle.pol_rule.specs.declared.policy.Policy.{Policy};
ghost use Rattle.pol_script.specs.Commands.{make};
ghost use Rattle.pol_script.specs.Lines.{newline, lines_of, ended, is_one_line};
ghost use Rattle.pol_script.specs.Members.{given};
ghost use Rattle.pol_script.specs.Names.{is_applied_name};
ghost use Rattle.pol_script.specs.Reading.{object_of, op_of, reading_of};
ghost use Rattle.pol_script.specs.Table.{rows};
ghost use Rattle.pol_script.specs.Unknown.{is_unknown, HasLeastUnknown, IsLeastUnknown};
ghost use Rattle.pol_script.specs.declared.command.Command.{Command};
ghost use Rattle.pol_script.specs.declared.command.Command.TheVariants.{Commit};
ghost use Rattle.pol_script.specs.declared.line_fault.LineFault.{LineFault};
ghost use Rattle.pol_script.specs.declared.line_fault.LineFault.TheVariants.{UnknownField};
ghost use Rattle.pol_script.specs.declared.op.Op.{Op};

/// What the lines of a script are: lines that were ended by a newline each are read again, a last piece
/// without a newline is read as if it had one, no line holds a newline, and the lines of a script that
/// ends with a newline are the script again.
pub fn script_lines()
    ensures again { (lines : List (List ℕ))
        → IsTrue (list_all is_one_line lines) → lines_of (flat_map ended lines) ≡ lines }
    ensures open_end { (bytes : List ℕ) (byte : ℕ)
        → byte ≢ newline → lines_of (bytes ++ byte ∷ []) ≡ lines_of (ended (bytes ++ byte ∷ [])) }
    ensures empty { lines_of [] ≡ [] }
    ensures apart { (bytes : List ℕ) → IsTrue (list_all is_one_line (lines_of bytes)) }
    ensures whole { (bytes : List ℕ) → flat_map ended (lines_of (ended bytes)) ≡ ended bytes }
{}

/// Which member a line is refused for that its operation doesn't have: where each member of the operation is
/// there and of its form, it is the least one by the bytes of its name, in whatever order the line has
/// them; and no line is refused for another one. Where there is one there is a least one, and where there is
/// none the line is read ('profile').
pub fn the_least_unknown_member_is_told()
    ensures least { (line : List ℕ) (d : Data) (op : Op) (command : Result Command LineFault) (name : List ℕ)
        → object_of line ≡ Ok d → op_of d ≡ Ok op → given (rows op) (make op) d ≡ Ok command
        → IsLeastUnknown op d name → reading_of line ≡ Err (UnknownField name) }
    ensures told { (line name : List ℕ) → reading_of line ≡ Err (UnknownField name) → HasLeastUnknown line name }
    ensures none { (line : List ℕ) (d : Data) (op : Op) (command : Result Command LineFault)
        → object_of line ≡ Ok d → op_of d ≡ Ok op → given (rows op) (make op) d ≡ Ok command
        → ((name : List ℕ) → is_unknown op d name ≡ false) → reading_of line ≡ command }
    ensures some { (line : List ℕ) (d : Data) (op : Op) (other : List ℕ)
        → object_of line ≡ Ok d → IsTrue (is_unknown op d other) → (name : List ℕ) × IsLeastUnknown op d name }
{}

/// The names that a line asks for have their forms: an endpoint's name is a name of the script, and the key of a policy
/// is that of a document that is read, with `networkpolicy/` in front of the name of a NetworkPolicy, which is of a
/// namespace.
pub fn names_have_their_forms()
    ensures endpoint { (line : List ℕ) (session : ℕ) (name : List ℕ) (labels : List Label) (address : Addr)
        → reading_of line ≡ Ok (Commit session (AddEndpoint name labels address)) → IsTrue (is_name name) }
    ensures policy { (line : List ℕ) (session : ℕ) (policy : Policy)
        → reading_of line ≡ Ok (Commit session (Apply policy)) → IsTrue (is_applied_name policy.key.name) }
    ensures namespace { (line : List ℕ) (session : ℕ) (policy : Policy)
        → reading_of line ≡ Ok (Commit session (Apply policy))
        → policy.key.cluster_wide ≡ false → IsTrue (is_dns_name policy.key.namespace) }
    ensures cluster_wide { (line : List ℕ) (session : ℕ) (policy : Policy)
        → reading_of line ≡ Ok (Commit session (Apply policy))
        → policy.key.cluster_wide ≡ true → policy.key.namespace ≡ [] }
    ensures of_cilium { (line : List ℕ) (session : ℕ) (policy : Policy)
        → reading_of line ≡ Ok (Commit session (Apply policy))
        → policy.key.cluster_wide ≡ true → IsTrue (is_dns_name policy.key.name) }
{}
