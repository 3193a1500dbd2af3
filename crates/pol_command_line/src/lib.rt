//! The words of the command line, by `clap`.
//!
//! `specs/Grammar` is the command as clap's contracts see it, and `specs/Given` says which lists of words fit it
//! and what they give. `specs/Options` says the same of the program `connections`.
#![tactic(auto)]

ghost use Rattle.std.specs.Prelude.{◌≡◌, ◌≤◌, false, map, string_bytes, option_map, None, Some, IfSome, IfOk, IsErrOf, IsSomeAnd};
ghost use Rattle.clap.specs.Words.{app_of, first_of, found_of, rows_of, rule_of};
ghost use Rattle.pol_command_line.specs.Grammar.{option, number, flag, or_default, no_options, grammar};
ghost use Rattle.pol_command_line.specs.Given.{HasDefault, IsInRange, if_given, number_in, mode_named, localhost_named, workers_in, mode_in, localhost_in, words_of, words_in, words_given};

use clap::builder::ValueParser;
use clap::error::ErrorKind;
use clap::{Arg, ArgAction, ArgMatches, Command};
use pol_data::Memory;
use pol_model::{Mode, Options};
use std::alloc::Global;

mod connections;
pub mod laws;
mod limit;
mod task;

pub use connections::{ConnectionWords, read_options};
use limit::{limit_of, map_max_in};
pub use task::Task;
use task::task_in;

/// The most entries of a policy map that is published, where no word says it (Cilium, `bpf-policy-map-max`).
pub const MAP_MAX: u32 = 16_384;

/// What the words of a command line say ('profile').
#[derive(Debug, Drop, PartialEq, Eq)]
pub struct Words {
    /// The options of the run, with the most entries of a map that is published: 256 to 65,536, `MAP_MAX` where no word
    /// says it.
    pub options: Options,
    /// How many workers, 0 to 8.
    pub workers: u64,
    /// What is to be done.
    pub task: Task,
}

/// Why words give nothing.
#[derive(Clone, Copy, Debug, Drop, PartialEq, Eq, thiserror::Error)]
pub enum WordsError {
    /// They don't fit the command, or ask for help.
    #[error("the words don't fit the command")]
    Misfit,
    /// Want of memory.
    #[error("out of memory")]
    Memory,
}

// An option with a text.
fn option<'a>(alloc: Global, name: &'a str) -> Arg<'a>
    ensures rule { rule_of result ≡ option name.entry.now }
    ensures local { result.global ≡ false }
{
    Arg::new(alloc, name).long(name)
}

// An option with a whole number.
fn number<'a>(alloc: Global, name: &'a str, least: u64, greatest: u64) -> Arg<'a>
    ensures rule { rule_of result ≡ number name.entry.now least greatest }
    ensures local { result.global ≡ false }
{
    option(alloc, name).value_parser(ValueParser::unsigned(least, greatest))
}

// An option without a value.
fn flag<'a>(alloc: Global, name: &'a str) -> Arg<'a>
    ensures rule { rule_of result ≡ flag name.entry.now }
    ensures local { result.global ≡ false }
{
    option(alloc, name).action(ArgAction::SetTrue)
}

fn or_default<'a>(arg: Arg<'a>, text: &'a str) -> Arg<'a>
    ensures rule { rule_of result ≡ or_default text.entry.now (rule_of arg.entry) }
    ensures local { result.global ≡ arg.entry.global }
{
    arg.default_value(text)
}

// The command of a program without its options.
fn no_options<'a>(alloc: Global, name: &'a str) -> Command<'a>
    ensures { app_of result ≡ no_options name.entry.now }
{
    Command::new(alloc, name).no_binary_name(true)
}

// The command: eight options, each once at most.
fn command<'a>(alloc: Global) -> Result<Command<'a>, Memory>
    ensures { IfOk result (λ command. app_of command ≡ grammar) }
{
    let workers = or_default(number(alloc, "workers", 0, 8), "2");
    let mode = or_default(option(alloc, "enable-policy"), "default");
    let localhost = or_default(option(alloc, "allow-localhost"), "always");
    let map_max = number(alloc, "policy-map-max", 256, 65536);
    let generate = number(alloc, "generate", 1, 10000);
    let map = option(alloc, "map");
    let audit = flag(alloc, "audit");
    let crash_at = number(alloc, "crash-at", 1, 1000000);
    no_options(alloc, "policyd")
        .arg(workers)?
        .arg(mode)?
        .arg(localhost)?
        .arg(map_max)?
        .arg(generate)?
        .arg(map)?
        .arg(audit)?
        .arg(crash_at)
}

fn number_in(text: &str, least: u64, greatest: u64) -> Option<u64>
    ensures number { result ≡ number_in least greatest text.now }
    ensures range { IfSome result (λ n. (least ≤ n) × (n ≤ greatest)) }
{
    match text.parse::<u64>() {
        Ok(number) => {
            if least <= number && number <= greatest {
                Some(number)
            } else {
                None
            }
        }
        Err(_) => None,
    }
}

fn mode_named(text: &str) -> Option<Mode>
    ensures { result ≡ mode_named text.now }
{
    match text {
        "default" => Some(Mode::Default),
        "always" => Some(Mode::Always),
        "never" => Some(Mode::Never),
        _ => None,
    }
}

fn localhost_named(text: &str) -> Option<bool>
    ensures { result ≡ localhost_named text.now }
{
    match text {
        "always" => Some(true),
        "policy" => Some(false),
        _ => None,
    }
}

// The text of an option.
fn text_in<'a>(matches: &ArgMatches<'a>, name: &str) -> Option<&'a str>
    ensures { option_map (λ text. text.now) result ≡ first_of name.now (rows_of (found_of matches.now)) }
{
    matches.get_str(name)
}

// The number of an option, from the least to the greatest, which may be left out.
fn number_if_given(
    matches: &ArgMatches,
    name: &str,
    least: u32,
    greatest: u32,
) -> Option<Option<u32>>
    ensures given { result ≡ if_given (number_in least greatest) (first_of name.now (rows_of (found_of matches.now))) }
    ensures range { IfSome result (λ given. IfSome given (λ n. (least ≤ n) × (n ≤ greatest))) }
{
    match text_in(matches, name) {
        None => Some(None),
        Some(text) => match number_in(text, least as u64, greatest as u64) {
            None => None,
            Some(number) => Some(Some(number as u32)),
        },
    }
}

fn workers_in(matches: &ArgMatches) -> Option<u64>
    ensures given { result ≡ workers_in (rows_of (found_of matches.now)) }
    ensures range { IfSome result (λ workers. workers ≤ 8) }
{
    match text_in(matches, "workers") {
        None => None,
        Some(text) => number_in(text, 0, 8),
    }
}

fn mode_in(matches: &ArgMatches) -> Option<Mode>
    ensures { result ≡ mode_in (rows_of (found_of matches.now)) }
{
    match text_in(matches, "enable-policy") {
        None => None,
        Some(text) => mode_named(text),
    }
}

fn localhost_in(matches: &ArgMatches) -> Option<bool>
    ensures { result ≡ localhost_in (rows_of (found_of matches.now)) }
{
    match text_in(matches, "allow-localhost") {
        None => None,
        Some(text) => localhost_named(text),
    }
}

fn words_of(
    workers: Option<u64>,
    mode: Option<Mode>,
    localhost: Option<bool>,
    asked: Option<Option<u32>>,
    task: Option<Task>,
) -> Option<Words>
    requires { IfSome asked (λ asked. IfSome asked (λ limit. (256 ≤ limit) × (limit ≤ 65536))) }
    ensures words { result ≡ words_of workers mode localhost asked task }
    ensures least { IfSome result (λ given. IsSomeAnd given.options.map_max (λ limit. 256 ≤ limit)) }
    ensures greatest { IfSome result (λ given. IsSomeAnd given.options.map_max (λ limit. limit ≤ 65536)) }
    ensures default { IfSome result (λ given. HasDefault given.task given.options.map_max) }
    ensures workers { IfSome result (λ given. Some given.workers ≡ workers) }
    ensures task { IfSome result (λ given. Some given.task ≡ task) }
{
    match (workers, mode, localhost, asked) {
        (Some(workers), Some(mode), Some(localhost), Some(asked)) => match task {
            None => None,
            Some(task) => match limit_of(&task, asked) {
                None => None,
                Some(limit) => Some(Words {
                    options: Options {
                        mode,
                        localhost,
                        map_max: Some(limit),
                    },
                    workers,
                    task,
                }),
            },
        },
        _ => None,
    }
}

fn words_in(alloc: Global, matches: &ArgMatches) -> Result<Option<Words>, Memory>
    ensures given { IfOk result (λ found. found ≡ words_in (rows_of (found_of matches.now))) }
    ensures least { IfOk result (λ found.
        IfSome found (λ given. IsSomeAnd given.options.map_max (λ limit. 256 ≤ limit))) }
    ensures greatest { IfOk result (λ found.
        IfSome found (λ given. IsSomeAnd given.options.map_max (λ limit. limit ≤ 65536))) }
    ensures default { IfOk result (λ found. IfSome found (λ given. HasDefault given.task given.options.map_max)) }
    ensures workers { IfOk result (λ found. IfSome found (λ given. given.workers ≤ 8)) }
    ensures rounds { IfOk result (λ found. IfSome found (λ given. IsInRange given.task)) }
{
    let workers = workers_in(matches);
    let task = task_in(alloc, matches)?;
    let asked = map_max_in(matches);
    Ok(words_of(
        workers,
        mode_in(matches),
        localhost_in(matches),
        asked,
        task,
    ))
}

// What the matches give, or that they give nothing.
fn words_found(alloc: Global, matches: &ArgMatches) -> Result<Words, WordsError>
    ensures given { IfOk result (λ given. words_in (rows_of (found_of matches.now)) ≡ Some given) }
    ensures misfit { IsErrOf result WordsError.Misfit → words_in (rows_of (found_of matches.now)) ≡ None }
    ensures least { IfOk result (λ given. IsSomeAnd given.options.map_max (λ limit. 256 ≤ limit)) }
    ensures greatest { IfOk result (λ given. IsSomeAnd given.options.map_max (λ limit. limit ≤ 65536)) }
    ensures default { IfOk result (λ given. HasDefault given.task given.options.map_max) }
    ensures workers { IfOk result (λ given. given.workers ≤ 8) }
    ensures rounds { IfOk result (λ given. IsInRange given.task) }
{
    match words_in(alloc, matches) {
        Ok(Some(given)) => Ok(given),
        Ok(None) => Err(WordsError::Misfit),
        Err(Memory) => Err(WordsError::Memory),
    }
}

/// What the words behind the program's name give. `Misfit` comes exactly where they don't fit the command:
/// `[--workers 0..8] [--enable-policy default|always|never] [--allow-localhost always|policy]
/// [--policy-map-max 256..65536] [--generate 1..10000] [--map NAME] [--audit] [--crash-at 1..1000000]`, with both ends of
/// each range, or more than one of the last four stands among them, or `--policy-map-max` beside `--generate`. The defaults
/// are 2, `default`, `always` and `MAP_MAX`; where none of the last four stands there, a script is to be played ('profile').
pub fn read_words(alloc: Global, words: &[String]) -> Result<Words, WordsError>
    ensures given { IfOk result (λ given. words_given (map string_bytes words.now) ≡ Some given) }
    ensures misfit { IsErrOf result WordsError.Misfit → words_given (map string_bytes words.now) ≡ None }
    ensures least { IfOk result (λ given. IsSomeAnd given.options.map_max (λ limit. 256 ≤ limit)) }
    ensures greatest { IfOk result (λ given. IsSomeAnd given.options.map_max (λ limit. limit ≤ 65536)) }
    ensures default { IfOk result (λ given. HasDefault given.task given.options.map_max) }
    ensures workers { IfOk result (λ given. given.workers ≤ 8) }
    ensures rounds { IfOk result (λ given. IsInRange given.task) }
{
    let command = match command(alloc) {
        Ok(command) => command,
        Err(Memory) => return Err(WordsError::Memory),
    };
    match command.try_get_matches_from(words) {
        Ok(matches) => words_found(alloc, &matches),
        Err(error) => match error.kind() {
            ErrorKind::OutOfMemory => Err(WordsError::Memory),
            _ => Err(WordsError::Misfit),
        },
    }
}
