//! Laws of the answers of runs, over the definitions alone.
ghost use Rattle.std.specs.Prelude.{◌≡◌, ◌<◌, ◌≤◌, ◌+◌, ◌^◌, ℕ, List, Some, Ok, Err, length, map, IsTrue};
ghost use Rattle.std.specs.List.{list_all, zip};
ghost use Rattle.answer_laws.specs.Nodes.{nodes};
ghost use Rattle.answer_laws.specs.Numbers.{has_read_numbers, has_read_sizes};
ghost use Rattle.answer_laws.specs.Short.{IsShortFault, IsShortPolicy};
ghost use Rattle.pol_answer.specs.Shown.{has_read_parts, shown};
ghost use Rattle.pol_answer.specs.declared.answer.Answer.{Answer};
ghost use Rattle.pol_model.specs.declared.options.Options.{Options};
ghost use Rattle.pol_model.specs.declared.request.Request.{Request};
ghost use Rattle.pol_model_laws.specs.Keeps.{Keeps};
ghost use Rattle.pol_model_laws.specs.Valid.{IsValid};
ghost use Rattle.pol_run.specs.History.{state_at};
ghost use Rattle.pol_run.specs.Run.{IsRunOf, readings_of};
ghost use Rattle.pol_run.specs.Spots.{spots_of};
ghost use Rattle.pol_rule.specs.declared.fault.RuleFault.{RuleFault};
ghost use Rattle.pol_rule.specs.declared.policy.Policy.{Policy};
ghost use Rattle.pol_model.specs.declared.request.Request.TheVariants as request;
ghost use Rattle.pol_script.specs.Lines.{lines_of};
ghost use Rattle.pol_script.specs.Reading.{reading_of};
ghost use Rattle.pol_script.specs.declared.command.Command.TheVariants as command;
ghost use Rattle.pol_script.specs.declared.line_fault.LineFault.TheVariants as line_fault;
ghost use Rattle.serde_json.specs.Data.{Data};
ghost use Rattle.serde_json.specs.Read.{read};

/// The revisions, phases and numbers of identities of commits that a run prints have 64 bits, its rows have names of the form
/// that a script's have, and its explanations keys of the form that metadata gives: of any script of fewer than 2^64 lines ('profile').
pub fn answers_of_runs_are_small()
    ensures { (options : Options) (script written : List ℕ) (ended : ℕ) (run : IsRunOf options script written ended)
        → length (lines_of script) < 2 ^ 64 → IsTrue (list_all has_read_numbers run.answers) }
{}

/// An answer with such numbers and names lacks only sizes of what reading gives (`has_read_parts`): the entries of a map, places in a
/// policy, the number of the other side of an explanation, and faults of rules ('profile').
pub fn sizes_are_left()
    ensures { (answer : Answer) → IsTrue (has_read_numbers answer)
        → IsTrue (has_read_sizes answer) → IsTrue (has_read_parts answer) }
{}

/// What a line asks to commit is well formed: addresses and prefixes lie within their bits, and labels are a label set
/// ('profile').
pub fn what_is_read_is_valid()
    ensures { (line : List ℕ) (session : ℕ) (asked : Request)
        → reading_of line ≡ Ok (command.Commit session asked) → IsValid asked }
{}

/// So each state of a run keeps what states keep: its requests commit one after another, whatever its sessions ('profile').
pub fn states_of_runs_keep()
    ensures { (options : Options) (script written : List ℕ) (ended : ℕ) (run : IsRunOf options script written ended)
        (revision : ℕ) → Keeps (state_at options (spots_of (zip (readings_of script) run.answers)) revision) }
{}

/// A JSON value has at most one node more than its text has bytes (RFC 8259).
pub fn values_have_few_nodes()
    ensures { (text : List ℕ) (value : Data) → read text ≡ Some value → nodes value ≤ length text + 1 }
{}

/// So a policy that is read has no more rules than its line has bytes, and none of its sections more entries; and a rule's
/// fault that is told has the number of a cause, and stands at one of so many rules and entries ('profile').
pub fn policies_are_short()
    ensures policies { (line : List ℕ) (session : ℕ) (policy : Policy)
        → reading_of line ≡ Ok (command.Commit session (request.Apply policy)) → IsShortPolicy (length line) policy }
    ensures faults { (line : List ℕ) (fault : RuleFault)
        → reading_of line ≡ Err (line_fault.Rule fault) → IsShortFault (length line) fault }
{}

/// The sizes of each answer of a run are such as reading gives, of any script of fewer than 2^64 bytes: its places and faults
/// stand at rules and entries of policies that were read, the entries of a map are fewer than the keys that there are, and
/// the other side of an explanation has a number that the query names or the state ('profile').
pub fn sizes_of_runs_are_read()
    ensures { (options : Options) (script written : List ℕ) (ended : ℕ) (run : IsRunOf options script written ended)
        → length script < 2 ^ 64 → IsTrue (list_all has_read_sizes run.answers) }
{}

/// So all parts of each answer of a run are such as reading gives ('profile').
pub fn answers_of_runs_are_read()
    ensures { (options : Options) (script written : List ℕ) (ended : ℕ) (run : IsRunOf options script written ended)
        → length script < 2 ^ 64 → IsTrue (list_all has_read_parts run.answers) }
{}

/// So the bytes of an output tell its answers, whichever answers witness the run and whatever the options, but for the bytes of names
/// that are printed as `?`: of any script of fewer than 2^64 bytes; and of one of fewer than 2^64 lines, where the sizes of the answers
/// are such as reading gives ('profile').
pub fn the_output_tells_the_answers()
    ensures all { (options other : Options) (script written : List ℕ) (ended other_ended : ℕ)
        (a : IsRunOf options script written ended) (b : IsRunOf other script written other_ended)
        → length script < 2 ^ 64 → map shown a.answers ≡ map shown b.answers }
    ensures by_lines { (options other : Options) (script written : List ℕ) (ended other_ended : ℕ)
        (a : IsRunOf options script written ended) (b : IsRunOf other script written other_ended)
        → length (lines_of script) < 2 ^ 64 → IsTrue (list_all has_read_sizes a.answers)
        → IsTrue (list_all has_read_sizes b.answers) → map shown a.answers ≡ map shown b.answers }
{}
