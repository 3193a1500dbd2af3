//! The requests of each script are committed in order, and what is told of what they leave.
ghost use Rattle.std.specs.Prelude.{◌≡◌, [], None, IfOk, IsTrue};
ghost use Rattle.pol_run.specs.Run.{readings_of};
ghost use Rattle.connections.specs.Ends.{is_answered, status_number};
ghost use Rattle.connections.specs.Told.{one_status, one_text, told_status, told_text, two_status, two_text};

use crate::states::{one_state, two_states};
use crate::status::RunEnd;
use pol_command_line::ConnectionWords;
use pol_compare::parts_of;
use pol_data::Memory;
use pol_model::Options;
use pol_repo::Repo;
use pol_script::{Reading, read_script};
use pol_script_commits::commit_all;
use std::alloc::Global;

/// What is told of the input.
#[derive(Drop)]
pub(crate) struct Told {
    pub(crate) text: Vec<u8>,
    pub(crate) status: RunEnd,
}

/// What is told of the input: of one script, or of two with the line `--` between them.
pub(crate) fn tell(alloc: Global, asked: ConnectionWords, input: &[u8]) -> Result<Told, Memory>
    requires { asked.options.map_max ≡ None }
    ensures text { IfOk result (λ told. told.text.items ≡ told_text asked input.now) }
    ensures status { IfOk result (λ told. status_number told.status ≡ told_status asked input.now) }
    ensures answered { IfOk result (λ told. IsTrue (is_answered told.status)) }
{
    let (front, back) = parts_of(input);
    match back {
        None => one_script(alloc, asked.options, front),
        Some(back) => two_scripts(alloc, asked, front, back),
    }
}

/// What is told of one script.
fn one_script(alloc: Global, options: Options, script: &[u8]) -> Result<Told, Memory>
    requires { options.map_max ≡ None }
    ensures text { IfOk result (λ told. told.text.items ≡ one_text options (readings_of script.now)) }
    ensures status { IfOk result (λ told. status_number told.status ≡ one_status options (readings_of script.now)) }
    ensures answered { IfOk result (λ told. IsTrue (is_answered told.status)) }
{
    let readings = read_script(alloc, script)?;
    let mut repo = Repo::new(alloc, options.mode, options.localhost)?;
    one_over(alloc, &mut repo, readings)
}

/// The same, over a repository without a request.
fn one_over(alloc: Global, repo: &mut Repo, readings: Vec<Reading>) -> Result<Told, Memory>
    requires first { repo.old.journal ≡ [] }
    requires idle { repo.old.prepared ≡ None }
    ensures text { IfOk result (λ told. told.text.items ≡ one_text repo.old.options readings.items) }
    ensures status { IfOk result (λ told. status_number told.status ≡ one_status repo.old.options readings.items) }
    ensures answered { IfOk result (λ told. IsTrue (is_answered told.status)) }
{
    let refusals = commit_all(alloc, repo, readings)?;
    one_state(alloc, repo, refusals.as_slice())
}

/// What is told of two scripts.
fn two_scripts(
    alloc: Global,
    asked: ConnectionWords,
    front: &[u8],
    back: &[u8],
) -> Result<Told, Memory>
    requires { asked.options.map_max ≡ None }
    ensures text { IfOk result (λ told.
        told.text.items ≡ two_text asked.halves asked.options (readings_of front.now) (readings_of back.now)) }
    ensures status { IfOk result (λ told. status_number told.status
        ≡ two_status asked.halves asked.options (readings_of front.now) (readings_of back.now)) }
    ensures answered { IfOk result (λ told. IsTrue (is_answered told.status)) }
{
    let one = read_script(alloc, front)?;
    let other = read_script(alloc, back)?;
    let mut before = Repo::new(alloc, asked.options.mode, asked.options.localhost)?;
    two_beside(alloc, asked, &mut before, one, other)
}

/// The same, beside a repository without a request.
fn two_beside(
    alloc: Global,
    asked: ConnectionWords,
    before: &mut Repo,
    one: Vec<Reading>,
    other: Vec<Reading>,
) -> Result<Told, Memory>
    requires first { before.old.journal ≡ [] }
    requires idle { before.old.prepared ≡ None }
    requires options { before.old.options ≡ asked.options }
    requires no_limit { asked.options.map_max ≡ None }
    ensures text { IfOk result (λ told. told.text.items ≡ two_text asked.halves asked.options one.items other.items) }
    ensures status { IfOk result (λ told.
        status_number told.status ≡ two_status asked.halves asked.options one.items other.items) }
    ensures answered { IfOk result (λ told. IsTrue (is_answered told.status)) }
{
    let mut after = Repo::new(alloc, asked.options.mode, asked.options.localhost)?;
    two_over(alloc, asked.halves, before, &mut after, one, other)
}

/// The same, over two repositories without a request.
fn two_over(
    alloc: Global,
    halves: bool,
    before: &mut Repo,
    after: &mut Repo,
    one: Vec<Reading>,
    other: Vec<Reading>,
) -> Result<Told, Memory>
    requires first { before.old.journal ≡ [] }
    requires first_after { after.old.journal ≡ [] }
    requires idle { before.old.prepared ≡ None }
    requires idle_after { after.old.prepared ≡ None }
    requires options { before.old.options ≡ after.old.options }
    ensures text { IfOk result (λ told. told.text.items ≡ two_text halves after.old.options one.items other.items) }
    ensures status { IfOk result (λ told.
        status_number told.status ≡ two_status halves after.old.options one.items other.items) }
    ensures answered { IfOk result (λ told. IsTrue (is_answered told.status)) }
{
    let refused_before = commit_all(alloc, before, one)?;
    let refused_after = commit_all(alloc, after, other)?;
    two_states(
        alloc,
        halves,
        before,
        after,
        refused_before.as_slice(),
        refused_after.as_slice(),
    )
}
