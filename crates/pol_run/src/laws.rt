//! Laws of runs, over the definitions alone: which answers are a run, and what a run says.
ghost use Rattle.std.specs.Prelude.{◌≡◌, ◌<◌, ◌≤◌, ◌^◌, ℕ, true, false, List, [], ◌∷◌, codes, length, map, Option, None, Ok, IsTrue};
ghost use Rattle.std.specs.List.{list_all, zip};
ghost use Rattle.pol_model.specs.declared.options.Options.{Options};
ghost use Rattle.pol_model.specs.declared.request.Request.{Request};
ghost use Rattle.pol_script.specs.Lines.{lines_of};
ghost use Rattle.pol_script.specs.Reading.{reading_of};
ghost use Rattle.pol_script.specs.declared.command.Command.TheVariants as command;
ghost use Rattle.pol_run.specs.ExampleLines.{add_db, add_web};
ghost use Rattle.pol_run.specs.History.{commits_of, history_of};
ghost use Rattle.pol_run.specs.InShort.{IsRunInShort, IsRunOfInShort, begins_marked};
ghost use Rattle.pol_run.specs.Moments.{IsCutBeforeLater, cap};
ghost use Rattle.pol_run.specs.Run.{IsRun, IsRunOf, is_marked, readings_of, status_of};
ghost use Rattle.pol_run.specs.Serial.{serial_answers};
ghost use Rattle.pol_run.specs.SerialLines.{IsSerial};
ghost use Rattle.pol_run.specs.Spots.{Line, Reading, Spot, spots_of};
ghost use Rattle.pol_run.specs.Told.{has_read_names, history_told, is_ok_line, requests_told, tells_commit};
ghost use Rattle.pol_answer.specs.Shown.{has_read_parts};
ghost use Rattle.pol_answer.specs.Text.{text_of, texts_of};
ghost use Rattle.pol_answer.specs.declared.answer.Answer.{Answer};

/// The law of serial runs: lines that are answered in input order, each from the state after the
/// commits of the lines before it, are a run of the policy machine. It holds for every command, and for any
/// sessions and phases, where verdicts are at the newest revision and no `synced` line has a row ('profile').
pub fn serial_lines_are_a_run()
    ensures { (options : Options) (lines : List Line) → IsSerial options lines → IsRun options (spots_of lines) }
{}

/// Where maps have no limit, each line may be answered from the state alone: a verdict where the
/// endpoint is live, and `synced` without a row ('profile').
pub fn serial_answers_are_in_order()
    ensures { (options : Options) (readings : List Reading) → options.map_max ≡ None
        → IsSerial options (zip readings (serial_answers options readings)) }
{}

/// So these answers to a script, their text and their status are a run of the policy machine
/// ('profile').
pub fn serial_answers_are_a_run()
    ensures { (options : Options) (script : List ℕ) → options.map_max ≡ None
        → IsRunOf options script (texts_of (serial_answers options (readings_of script)))
        (status_of (serial_answers options (readings_of script))) }
{}

/// What a run says, line by line, in words of its own: there is one history; each number is carried once;
/// commits ascend in each session and over phases; no line is ahead of what comes after it; what a session has
/// seen bounds each answer from below; rows are exact; a printed map fits the limit; phases are numbered
/// from 1. And lines of which all that holds are a run ('profile').
pub fn runs_in_short()
    ensures said { (options : Options) (lines : List Line)
        → IsRun options (spots_of lines) → IsRunInShort options lines }
    ensures all { (options : Options) (lines : List Line)
        → IsRunInShort options lines → IsRun options (spots_of lines) }
{}

/// What an output says: it is the texts of one answer for each line of the script, in order; the lines with
/// these answers say what a run does; and the status is 1 where a text begins with `refused`, `notyet` or
/// `noendpoint`, else 0. And this is all ('profile').
pub fn outputs_in_short()
    ensures said { (options : Options) (script written : List ℕ) (ended : ℕ) → IsRunOf options script written ended
        → IsRunOfInShort options script written ended }
    ensures all { (options : Options) (script written : List ℕ) (ended : ℕ)
        → IsRunOfInShort options script written ended → IsRunOf options script written ended }
{}

/// What a line that is read asks for has names of their forms: an endpoint's name is a name of the script, and the key
/// of a policy is one that metadata gives ('profile').
pub fn what_is_read_has_names()
    ensures { (line : List ℕ) (session : ℕ) (request : Request) → reading_of line ≡ Ok (command.Commit session request)
        → IsTrue (has_read_names request) }
{}

/// Each answer of a run tells its commit by its text (`tells_commit`): it is one line, since the names that it prints
/// were read, and the numbers of an `ok` line have 64 bits. So it is of any script of fewer than 2^64 lines.
pub fn answers_of_runs_tell()
    ensures { (options : Options) (script written : List ℕ) (ended : ℕ) (run : IsRunOf options script written ended)
        → length (lines_of script) < 2 ^ 64 → IsTrue (list_all tells_commit run.answers) }
{}

/// The bytes of an output tell which lines commit, with which requests and numbers: where each answer tells its
/// commit, any other answers of the same bytes that do so too have the same commits. Answers whose parts are all
/// such as reading gives do.
pub fn the_output_tells_the_commits()
    ensures commits { (readings : List Reading) (a b : List Answer)
        → IsTrue (list_all tells_commit a) → IsTrue (list_all tells_commit b)
        → texts_of a ≡ texts_of b → commits_of (spots_of (zip readings a)) ≡ commits_of (spots_of (zip readings b)) }
    ensures parts { (answers : List Answer)
        → IsTrue (list_all has_read_parts answers) → IsTrue (list_all tells_commit answers) }
{}

/// The output of a script tells its history, whichever answers witness the run, and whatever the options: all runs of
/// these bytes have the same commits, and their history is the one that is read from the bytes (`history_told`), where
/// the script has fewer than 2^64 lines.
pub fn the_output_tells_the_history()
    ensures commits { (options other : Options) (script written : List ℕ) (ended other_ended : ℕ)
        (a : IsRunOf options script written ended) (b : IsRunOf other script written other_ended)
        → length (lines_of script) < 2 ^ 64 → commits_of (spots_of (zip (readings_of script) a.answers))
        ≡ commits_of (spots_of (zip (readings_of script) b.answers)) }
    ensures history { (options : Options) (script written : List ℕ)
        (ended : ℕ) (run : IsRunOf options script written ended) → length (lines_of script) < 2 ^ 64
        → history_of (spots_of (zip (readings_of script) run.answers)) ≡ history_told script written }
{}

/// Which lines of an output are `ok 1`, and the history that four lines tell, written out: it is in the order of the
/// numbers, not of the lines ('profile').
pub fn lines_that_tell()
    ensures first { map (is_ok_line 1) (codes "ok 1" ∷ codes "ok 1 identity 256" ∷ codes "ok 10" ∷ codes "ok 1identity"
        ∷ codes "ok" ∷ codes "synced 1" ∷ []) ≡ true ∷ true ∷ false ∷ false ∷ false ∷ false ∷ [] }
    ensures order { requests_told 4 ((Ok (command.Commit 1 add_web), codes "ok 2 identity 256")
        ∷ (Ok (command.Sync 2), codes "synced 2") ∷ (Ok (command.Commit 2 add_db), codes "ok 1 identity 257")
        ∷ (Ok (command.Commit 2 add_db), codes "refused 30 duplicate-endpoint at 2") ∷ []) ≡ add_db ∷ add_web ∷ [] }
{}

/// The cap of a line is the greatest revision whose commits hold none that stands behind the line in
/// its session, and none of a later phase ('profile').
pub fn caps_are_the_greatest()
    ensures none_later { (options : Options) (spots : List Spot) (spot : Spot) (revision : ℕ) → IsRun options spots
        → revision ≤ cap spots spot → IsCutBeforeLater spots spot revision }
    ensures greatest { (options : Options) (spots : List Spot) (spot : Spot) (revision : ℕ) → IsRun options spots
        → IsCutBeforeLater spots spot revision → revision ≤ cap spots spot }
{}

/// Which answers make the status 1: those whose text begins with `refused`, `notyet` or `noendpoint`
/// ('profile').
pub fn marks_are_by_word()
    ensures { (answer : Answer) → is_marked answer ≡ begins_marked (text_of answer) }
{}
