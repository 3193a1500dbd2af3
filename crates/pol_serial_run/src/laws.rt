//! Laws of serial runs, over the definitions alone. Each function does nothing: its contract is the law.
ghost use Rattle.std.specs.Prelude.{◌≡◌, ◌++◌, List, [], length};
ghost use Rattle.pol_answer.specs.declared.answer.Answer.{Answer};
ghost use Rattle.pol_history.specs.Commits.{commits_in};
ghost use Rattle.pol_machine.specs.Serial.{machine_of};
ghost use Rattle.pol_model.specs.declared.options.Options.{Options as AllOptions};
ghost use Rattle.pol_model.specs.declared.request.Request.{Request as AnyRequest};
ghost use Rattle.pol_run.specs.Spots.{Reading};
ghost use Rattle.pol_serial_run.specs.Accepted.{accepted, ok_lines};
ghost use Rattle.pol_serial_run.specs.SerialRun.{IsSerial, machine_after_lines};
ghost use Rattle.pol_serial_run.specs.Worked as worked;
ghost use Rattle.pol_serial_run.specs.WorkedLimits.{narrow, narrow_answers, narrow_lines};

/// What a small script is answered, and which of its requests are accepted; and what a script is answered that is played after those
/// requests: no map is published before its sync ('profile'), and an address that nothing holds is number 9, or 10 where it is of IPv6.
pub fn worked_scripts()
    ensures first { IsSerial worked.usual [] worked.lines worked.answers }
    ensures accepted { accepted worked.usual [] worked.lines ≡ worked.requests }
    ensures later { IsSerial worked.usual worked.requests worked.later_lines worked.later_answers }
    ensures none_accepted { accepted worked.usual worked.requests worked.later_lines ≡ [] }
{}

/// What a small script is answered under a limit of three entries a map: a line that isn't read is refused, no endpoint is live at
/// first, two maps of three are too large and told by name, and what isn't published isn't read ('profile').
pub fn worked_limits()
    ensures { IsSerial narrow [] narrow_lines narrow_answers }
{}

/// The accepted requests are those of the `ok` lines: there are as many, and the machine has committed them behind those before, where
/// these were committed.
pub fn accepted_requests_are_told()
    ensures as_many { (options : AllOptions) (start : List AnyRequest) (readings : List Reading) (answers : List Answer)
        → IsSerial options start readings answers → ok_lines answers ≡ length (accepted options start readings) }
    ensures committed { (options : AllOptions) (start : List AnyRequest) (readings : List Reading)
        → commits_in (machine_after_lines options (machine_of options start) readings).history
        ≡ commits_in (machine_of options start).history ++ accepted options start readings }
{}

/// A script has one serial run after the same requests, and so one text: the rows of a sync have names that differ, so sorted they are
/// one list.
pub fn serial_runs_have_one_text()
    ensures { (options : AllOptions) (start : List AnyRequest) (readings : List Reading) (answers others : List Answer)
        → IsSerial options start readings answers → IsSerial options start readings others → answers ≡ others }
{}
