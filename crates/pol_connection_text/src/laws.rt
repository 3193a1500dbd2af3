//! Laws of the lines. Each function does nothing: its contract is the law.
ghost use Rattle.std.specs.Prelude.{◌≡◌, ◌<◌, ◌^◌, ℕ, Option, Some};
ghost use Rattle.json.specs.Json.{document};
ghost use Rattle.json.specs.Print.{print};
ghost use Rattle.json.specs.Tree.{json_tokens};
ghost use Rattle.pol_answer.specs.declared.answer.Answer.{Answer as OneAnswer};
ghost use Rattle.pol_connections.specs.declared.end.Connection.{Connection as OneConnection};
ghost use Rattle.pol_connections.specs.declared.end.EndName.{EndName as OneName};
ghost use Rattle.pol_connection_text.specs.declared.side.ChangeSide.{ChangeSide as OneSide};
ghost use Rattle.pol_connection_text.specs.Lines.{connection_json, name_json, refusal_json};

/// What stands before the newline byte of a line is read as the JSON value that the line is written for (RFC 8259), whatever
/// names hold; its numbers have the bits that a program's have.
pub fn lines_are_read_as_json()
    ensures connections { (c : OneConnection) → c.range.first < 2 ^ 16 → c.range.last < 2 ^ 16
        → document (print (json_tokens (connection_json c))) ≡ Some (connection_json c) }
    ensures names { (side : OneSide) (name : OneName)
        → document (print (json_tokens (name_json side name))) ≡ Some (name_json side name) }
    ensures refusals { (side : Option OneSide) (line : ℕ) (answer : OneAnswer) → line < 2 ^ 64
        → document (print (json_tokens (refusal_json side line answer))) ≡ Some (refusal_json side line answer) }
{}
