//! The most entries of a map that is published, as the words say it.
ghost use Rattle.std.specs.Prelude.{◌≡◌, ◌≤◌, IfSome, Some};
ghost use Rattle.clap.specs.Words.{found_of, rows_of};
ghost use Rattle.pol_command_line.specs.Given.{HasDefault, limit_of, map_max_in};

use crate::{MAP_MAX, Task, number_if_given};
use clap::ArgMatches;

/// The limit that is asked for, which may be left out.
pub(crate) fn map_max_in(matches: &ArgMatches) -> Option<Option<u32>>
    ensures given { result ≡ map_max_in (rows_of (found_of matches.now)) }
    ensures range { IfSome result (λ asked. IfSome asked (λ limit. (256 ≤ limit) × (limit ≤ 65536))) }
{
    number_if_given(matches, "policy-map-max", 256, 65536)
}

/// The limit of maps, where one may be asked for beside what is to be done.
pub(crate) fn limit_of(task: &Task, asked: Option<u32>) -> Option<u32>
    requires { IfSome asked (λ limit. (256 ≤ limit) × (limit ≤ 65536)) }
    ensures limit { result ≡ limit_of task.now asked }
    ensures least { IfSome result (λ limit. 256 ≤ limit) }
    ensures greatest { IfSome result (λ limit. limit ≤ 65536) }
    ensures default { IfSome result (λ limit. HasDefault task.now (Some limit)) }
{
    match asked {
        None => Some(MAP_MAX),
        Some(limit) => match task {
            Task::Generate(_) => None,
            Task::Play | Task::Map(_) | Task::Audit | Task::Crash(_) => Some(limit),
        },
    }
}
