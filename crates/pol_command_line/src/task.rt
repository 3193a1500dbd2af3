//! What is to be done, as the words say it.
ghost use Rattle.std.specs.Prelude.{◌≡◌, ◌≤◌, codes, None, Some, IfOk, IfSome};
ghost use Rattle.std.specs.Str.{bytes_eq};
ghost use Rattle.clap.specs.Words.{first_of, found_of, rows_of};
ghost use Rattle.pol_command_line.specs.Given.{IsInRange, audit_in, crash_in, generate_in, is_set, map_in, task_asked, task_in, task_of};

use crate::{number_if_given, text_in};
use clap::ArgMatches;
use pol_data::{Memory, Text};
use std::alloc::Global;

/// What is to be done ('profile').
#[derive(Debug, Drop, PartialEq, Eq)]
pub enum Task {
    /// A script is read, and its lines are answered.
    Play,
    /// A script of so many rounds, 1 to 10,000, is generated and played, and its summary is told.
    Generate(u32),
    /// A script is read, and the map of the endpoint of that name at its end is written.
    Map(Text),
    /// Two tables are read, and compared by what they say.
    Audit,
    /// A script is read, and its lines are answered over a disk that fails from that call on, 1 to 1,000,000; what is found on
    /// it after the crash is told.
    Crash(u32),
}

// The number of a script, which may be left out.
fn generate_in(matches: &ArgMatches) -> Option<Option<u32>>
    ensures given { result ≡ generate_in (rows_of (found_of matches.now)) }
    ensures range { IfSome result (λ given. IfSome given (λ n. (1 ≤ n) × (n ≤ 10000))) }
{
    number_if_given(matches, "generate", 1, 10000)
}

// The name of an endpoint, which may be left out.
fn map_in(alloc: Global, matches: &ArgMatches) -> Result<Option<Text>, Memory>
    ensures { IfOk result (λ name. name ≡ map_in (rows_of (found_of matches.now))) }
{
    match text_in(matches, "map") {
        None => Ok(None),
        Some(name) => Ok(Some(Text::from_str(alloc, name)?)),
    }
}

fn is_true(text: &str) -> bool
    ensures { result ≡ bytes_eq text.now (codes "true") }
{
    match text {
        "true" => true,
        _ => false,
    }
}

/// Whether an option without a value is given.
pub(crate) fn is_set(matches: &ArgMatches, name: &str) -> bool
    ensures { result ≡ is_set (first_of name.now (rows_of (found_of matches.now))) }
{
    match text_in(matches, name) {
        None => false,
        Some(text) => is_true(text),
    }
}

fn audit_in(matches: &ArgMatches) -> bool
    ensures { result ≡ audit_in (rows_of (found_of matches.now)) }
{
    is_set(matches, "audit")
}

// The first call of a disk that fails, which may be left out.
fn crash_in(matches: &ArgMatches) -> Option<Option<u32>>
    ensures given { result ≡ crash_in (rows_of (found_of matches.now)) }
    ensures range { IfSome result (λ given. IfSome given (λ call. (1 ≤ call) × (call ≤ 1000000))) }
{
    number_if_given(matches, "crash-at", 1, 1000000)
}

// A script is played, or the one of the four others that is asked for is done.
fn task_of(rounds: Option<u32>, name: Option<Text>, audit: bool, call: Option<u32>) -> Option<Task>
    requires rounds { IfSome rounds (λ n. (1 ≤ n) × (n ≤ 10000)) }
    requires call { IfSome call (λ n. (1 ≤ n) × (n ≤ 1000000)) }
    ensures task { result ≡ task_of rounds name audit call }
    ensures range { IfSome result IsInRange }
{
    match (rounds, name, audit, call) {
        (None, None, false, None) => Some(Task::Play),
        (Some(rounds), None, false, None) => Some(Task::Generate(rounds)),
        (None, Some(name), false, None) => Some(Task::Map(name)),
        (None, None, true, None) => Some(Task::Audit),
        (None, None, false, Some(call)) => Some(Task::Crash(call)),
        _ => None,
    }
}

/// What is to be done, where the options that say it fit, each by itself and together.
pub(crate) fn task_in(alloc: Global, matches: &ArgMatches) -> Result<Option<Task>, Memory>
    ensures task { IfOk result (λ task. task ≡ task_in (rows_of (found_of matches.now))) }
    ensures range { IfOk result (λ task. IfSome task IsInRange) }
{
    let name = map_in(alloc, matches)?;
    let audit = audit_in(matches);
    match (generate_in(matches), crash_in(matches)) {
        (Some(rounds), Some(call)) => Ok(task_of(rounds, name, audit, call)),
        _ => Ok(None),
    }
}
