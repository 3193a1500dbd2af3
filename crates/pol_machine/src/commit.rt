//! A commit.
ghost use Rattle.std.specs.Prelude.{◌≡◌, ◌+◌, ◌≤◌, None, Some, ℕ, List, OnErr, OnOk, false};
ghost use Rattle.pol_model.specs.After.{after};
ghost use Rattle.pol_model.specs.Committed.{committed_of};
ghost use Rattle.pol_model.specs.Fault.{fault_of};
ghost use Rattle.pol_model.specs.Sizes.{IsShort};
ghost use Rattle.pol_requests.specs.Prepared.{is_of_policy};
ghost use Rattle.pol_repo.specs.Cost.{label_peers};
ghost use Rattle.pol_repo.specs.Repository.{state_in};
ghost use Rattle.pol_machine.specs.Parts.{Commits};
ghost use Rattle.pol_machine.specs.Rows.{SameRows, by_name, new_row, rows_after, with_one};

use crate::row::{MachineRow, Rows};
use pol_data::{Memory, Steps, Text};
use pol_history::Reply;
use pol_model::{CommitError, Request};
use pol_repo::{Ready, Repo};
use std::alloc::Global;
use std::sync::ledger::Ledger;

/// An endpoint comes, with the commit of this number.
fn add_row(alloc: Global, rows: &mut Rows, name: &Text, revision: u64) -> Result<(), Memory>
    ensures ok { OnOk result ((other : List ℕ)
        → by_name rows.new other ≡ with_one name.now (Some (new_row revision)) (by_name rows.old) other) }
    ensures err { OnErr result (SameRows (by_name rows.old) (by_name rows.new)) }
{
    let key = name.copy(alloc)?;
    rows.insert(
        key,
        MachineRow {
            added: revision,
            report: None,
            map: None,
            work: None,
            full: None,
        },
    )?;
    Ok(())
}

/// An endpoint goes. It takes no memory.
fn remove_row(rows: &mut Rows, name: &Text)
    ensures { (other : List ℕ) → by_name rows.new other ≡ with_one name.now None (by_name rows.old) other }
{
    rows.swap_remove(name);
}

/// The rows after a request, which is the commit of this number. The one error is want of memory, and then the rows are as
/// before.
fn take_in(alloc: Global, rows: &mut Rows, request: &Request, revision: u64) -> Result<(), Memory>
    ensures ok { OnOk result ((other : List ℕ)
        → by_name rows.new other ≡ rows_after revision request.now (by_name rows.old) other) }
    ensures err { OnErr result (SameRows (by_name rows.old) (by_name rows.new)) }
{
    match request {
        Request::AddEndpoint {
            name,
            labels: _,
            address: _,
        } => add_row(alloc, rows, name, revision),
        Request::RemoveEndpoint { name } => {
            remove_row(rows, name);
            Ok(())
        }
        Request::AddIdentity { name: _, labels: _ } => Ok(()),
        Request::RemoveIdentity { name: _ } => Ok(()),
        Request::Apply(_) => Ok(()),
        Request::Remove(_) => Ok(()),
        Request::SetMode(_) => Ok(()),
    }
}

/// Does what was prepared, in the rows and then in the repository. The one error is want of memory, and then it is given up.
fn accept(alloc: Global, repo: &mut Repo, rows: &mut Rows, ready: Ready) -> Result<Reply, Memory>
    requires request { repo.old.prepared ≡ Some ready.request }
    requires no_fault { fault_of (state_in repo.old) ready.request ≡ None }
    requires done { ready.done ≡ committed_of (after (state_in repo.old) ready.request) ready.request }
    ensures { Commits (record repo.old { prepared = None }) repo.new
        (by_name rows.old) (by_name rows.new) ready.request result }
{
    match take_in(alloc, rows, &ready.request, ready.done.revision) {
        Ok(()) => Ok(Reply::Committed(repo.accept(ready))),
        Err(_) => {
            repo.withdraw(ready);
            Err(Memory)
        }
    }
}

/// Does the request, if it has no fault. The one error is want of memory, and then all is as before.
pub(crate) fn commit<L: Ledger>(
    alloc: Global,
    repo: &mut Repo,
    rows: &mut Rows,
    request: Request,
    steps: &mut Steps<L>,
) -> Result<Reply, Memory>
    requires idle { repo.old.prepared ≡ None }
    requires short { IsShort request }
    ensures commits { Commits repo.old repo.new (by_name rows.old) (by_name rows.new) request result }
    ensures cost { is_of_policy request ≡ false → steps.new ≤ steps.old + label_peers (state_in repo.old).policies }
{
    match repo.prepare(request, steps) {
        Ok(ready) => accept(alloc, repo, rows, ready),
        Err(CommitError::Refused(refused)) => Ok(Reply::Refused(refused)),
        Err(CommitError::Memory) => Err(Memory),
    }
}
