//! The words of the program `connections`.
ghost use Rattle.std.specs.Prelude.{◌≡◌, map, string_bytes, None, Some, IfOk, IfSome, IsErrOf};
ghost use Rattle.clap.specs.Words.{app_of, found_of, rows_of};
ghost use Rattle.pol_command_line.specs.Grammar.{connections_grammar};
ghost use Rattle.pol_command_line.specs.Options.{halves_in, options_given, options_in, options_of};

use crate::task::is_set;
use crate::{WordsError, flag, localhost_in, mode_in, no_options, option, or_default};
use clap::error::ErrorKind;
use clap::{ArgMatches, Command};
use pol_data::Memory;
use pol_model::{Mode, Options};
use std::alloc::Global;

/// What the words of `connections` ask for ('profile').
#[derive(Clone, Copy, Debug, PartialEq, Eq)]
pub struct ConnectionWords {
    /// The options of the scripts. No map has a limit.
    pub options: Options,
    /// Whether a change of two scripts is told wherever a half of a connection has another word, and not only where the
    /// connection opens or shuts.
    pub halves: bool,
}

// The command: three options, each once at most.
fn connections_command<'a>(alloc: Global) -> Result<Command<'a>, Memory>
    ensures { IfOk result (λ command. app_of command ≡ connections_grammar) }
{
    let mode = or_default(option(alloc, "enable-policy"), "default");
    let localhost = or_default(option(alloc, "allow-localhost"), "always");
    let halves = flag(alloc, "halves");
    no_options(alloc, "connections")
        .arg(mode)?
        .arg(localhost)?
        .arg(halves)
}

fn halves_in(matches: &ArgMatches) -> bool
    ensures { result ≡ halves_in (rows_of (found_of matches.now)) }
{
    is_set(matches, "halves")
}

fn options_of(mode: Option<Mode>, localhost: Option<bool>, halves: bool) -> Option<ConnectionWords>
    ensures options { result ≡ options_of mode localhost halves }
    ensures no_limit { IfSome result (λ asked. asked.options.map_max ≡ None) }
{
    match (mode, localhost) {
        (Some(mode), Some(localhost)) => Some(ConnectionWords {
            options: Options {
                mode,
                localhost,
                map_max: None,
            },
            halves,
        }),
        _ => None,
    }
}

// What the matches give, or that they give nothing.
fn options_found(matches: &ArgMatches) -> Result<ConnectionWords, WordsError>
    ensures given { IfOk result (λ asked. options_in (rows_of (found_of matches.now)) ≡ Some asked) }
    ensures misfit { IsErrOf result WordsError.Misfit → options_in (rows_of (found_of matches.now)) ≡ None }
    ensures no_limit { IfOk result (λ asked. asked.options.map_max ≡ None) }
{
    match options_of(mode_in(matches), localhost_in(matches), halves_in(matches)) {
        Some(asked) => Ok(asked),
        None => Err(WordsError::Misfit),
    }
}

/// What the words behind the name of the program `connections` give: the options of its scripts, whose maps have no limit, and
/// whether halves are told. `Misfit` comes exactly where they don't fit the command
/// `[--enable-policy default|always|never] [--allow-localhost always|policy] [--halves]`. The defaults are `default` and
/// `always` ('profile').
pub fn read_options(alloc: Global, words: &[String]) -> Result<ConnectionWords, WordsError>
    ensures given { IfOk result (λ asked. options_given (map string_bytes words.now) ≡ Some asked) }
    ensures misfit { IsErrOf result WordsError.Misfit → options_given (map string_bytes words.now) ≡ None }
    ensures no_limit { IfOk result (λ asked. asked.options.map_max ≡ None) }
{
    let command = match connections_command(alloc) {
        Ok(command) => command,
        Err(Memory) => return Err(WordsError::Memory),
    };
    match command.try_get_matches_from(words) {
        Ok(matches) => options_found(&matches),
        Err(error) => match error.kind() {
            ErrorKind::OutOfMemory => Err(WordsError::Memory),
            _ => Err(WordsError::Misfit),
        },
    }
}
