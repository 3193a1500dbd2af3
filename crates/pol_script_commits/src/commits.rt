//! The requests of a script are committed one after another.
ghost use Rattle.std.specs.Prelude.{◌≡◌, ◌++◌, None, IfErr, IfOk, OnErr, OnOk};
ghost use Rattle.pol_model.specs.Commits.{Commits};
ghost use Rattle.pol_model.specs.Fault.{fault_of};
ghost use Rattle.pol_model.specs.Sizes.{IsShort};
ghost use Rattle.pol_repo.specs.Causes.{IsCause};
ghost use Rattle.pol_repo.specs.Repository.{state_in};
ghost use Rattle.pol_run.specs.Serial.{state_committed, state_then};
ghost use Rattle.pol_script_commits.specs.Left.{state_left};
ghost use Rattle.pol_script_commits.specs.Refused.{at_line, refusals_from, refused_by, refused_in};

use crate::refusal::Refusal;
use pol_answer::Answer;
use pol_data::{Memory, Steps};
use pol_model::{CommitError, Committed, Request};
use pol_repo::Repo;
use pol_script::{Command, Reading};
use std::alloc::Global;
use std::marker::Brand;
use std::sync::ledger::{Blank, Ledger};

/// Commits the requests of the lines, in order, and tells the lines that are refused. Those, and what isn't a request, change
/// nothing. The one error is want of memory.
pub fn commit_all(
    alloc: Global,
    repo: &mut Repo,
    readings: Vec<Reading>,
) -> Result<Vec<Refusal>, Memory>
    requires { repo.old.prepared ≡ None }
    ensures state { OnOk result (state_in repo.new ≡ state_left (state_in repo.old) readings.items) }
    ensures refused { IfOk result (λ refusals. refusals.items ≡ refusals_from 0 (state_in repo.old) readings.items) }
    ensures options { OnOk result (repo.new.options ≡ repo.old.options) }
    ensures idle { OnOk result (repo.new.prepared ≡ None) }
{
    let mut refusals = Vec::new(alloc);
    let mut line = 0u64;
    for reading in readings {
        line += 1;
        let found = commit_line(repo, reading)?;
        push_found(&mut refusals, line, found)?;
    }
    Ok(refusals)
}

/// Appends the line, if it is refused.
fn push_found(refusals: &mut Vec<Refusal>, line: u64, found: Option<Answer>) -> Result<(), Memory>
    ensures { OnOk result (refusals.new.items ≡ refusals.old.items ++ at_line line found) }
{
    match found {
        None => Ok(()),
        Some(answer) => {
            refusals.push(Refusal { line, answer })?;
            Ok(())
        }
    }
}

/// Commits the request of the line, if it has one that has no fault. What is answered where it is refused.
fn commit_line(repo: &mut Repo, reading: Reading) -> Result<Option<Answer>, Memory>
    requires { repo.old.prepared ≡ None }
    ensures state { OnOk result (state_in repo.new ≡ state_then (state_in repo.old) reading) }
    ensures refused { IfOk result (λ found. found ≡ refused_in (state_in repo.old) reading) }
    ensures options { OnOk result (repo.new.options ≡ repo.old.options) }
    ensures idle { OnOk result (repo.new.prepared ≡ None) }
{
    match reading {
        Err(fault) => Ok(Some(Answer::BadLine(fault))),
        Ok(
            Command::Commit {
                session: _,
                request,
            },
        ) => commit(repo, request),
        Ok(Command::Look { .. }) => Ok(None),
        Ok(Command::Trace { .. }) => Ok(None),
        Ok(Command::Sync { session: _ }) => Ok(None),
        Ok(Command::Phase) => Ok(None),
    }
}

/// Commits the request, if it has no fault. What is answered where it has one.
fn commit(repo: &mut Repo, request: Request) -> Result<Option<Answer>, Memory>
    requires { repo.old.prepared ≡ None }
    ensures state { OnOk result (state_in repo.new ≡ state_committed (state_in repo.old) request) }
    ensures refused { IfOk result (λ found.
        found ≡ refused_by (state_in repo.old) (fault_of (state_in repo.old) request)) }
    ensures options { OnOk result (repo.new.options ≡ repo.old.options) }
    ensures idle { OnOk result (repo.new.prepared ≡ None) }
{
    // A place has no numbers for a list so long.
    if !request.is_short() {
        return Err(Memory);
    }
    match commit_over::<Brand>(Blank::new(1), repo, request) {
        Ok(_done) => Ok(None),
        Err(CommitError::Refused(refused)) => Ok(Some(Answer::Refused(refused))),
        Err(CommitError::Memory) => Err(Memory),
    }
}

// Nothing here asks how many steps a commit takes.
fn commit_over<L: Ledger>(
    blank: Blank,
    repo: &mut Repo,
    request: Request,
) -> Result<Committed, CommitError>
    requires name { blank.name ≡ L.name }
    requires parts { blank.parts ≡ L.parts }
    requires some { blank.parts ≡ 1 }
    requires idle { repo.old.prepared ≡ None }
    requires short { IsShort request }
    ensures committed { IfOk result (λ done. Commits (state_in repo.old) (state_in repo.new) request done) }
    ensures options { OnOk result (repo.new.options ≡ repo.old.options) }
    ensures idle { OnOk result (repo.new.prepared ≡ None) }
    ensures cause { IfErr result (IsCause (state_in repo.old) request) }
    ensures stays { OnErr result (repo.new ≡ repo.old) }
{
    let mut steps = Steps::<L>::new(blank);
    repo.commit(request, &mut steps)
}
