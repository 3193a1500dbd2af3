//! What is told of states, behind what was refused on the way to them.
ghost use Rattle.std.specs.Prelude.{◌≡◌, ◌++◌, ◌&&◌, not, false, None, Some, IfOk, IsTrue};
ghost use Rattle.pol_connections.specs.Connections.{connections_of};
ghost use Rattle.pol_connection_text.specs.Text.{connections_text};
ghost use Rattle.pol_repo.specs.Repository.{state_in};
ghost use Rattle.connections.specs.Ends.{is_answered, status_number};
ghost use Rattle.connections.specs.Told.{is_empty, is_same, refusals_text, states_text, status_of};

use crate::status::RunEnd;
use crate::tell::Told;
use pol_connection_lists::{changed_connections, ends_alone, open_connections};
use pol_connection_text::{ChangeSide, change_text, connections_text, refusal_text};
use pol_data::Memory;
use pol_repo::Repo;
use pol_script_commits::Refusal;
use std::alloc::Global;

/// How it ends where all is written.
fn status_of(refused: bool, changes: bool) -> RunEnd
    ensures status { status_number result ≡ status_of refused changes }
    ensures answered { IsTrue (is_answered result) }
{
    if refused {
        RunEnd::Refused
    } else if changes {
        RunEnd::Changes
    } else {
        RunEnd::Same
    }
}

/// The text with the refused lines of a script behind it.
fn with_refusals(
    alloc: Global,
    mut text: Vec<u8>,
    side: Option<ChangeSide>,
    refusals: &[Refusal],
) -> Result<Vec<u8>, Memory>
    ensures { IfOk result (λ more. more.items ≡ text.items ++ refusals_text side refusals.now) }
{
    for refusal in refusals {
        text = refusal_text(alloc, text, side, refusal.line, &refusal.answer)?;
    }
    Ok(text)
}

/// What is told of one state.
pub(crate) fn one_state(alloc: Global, repo: &Repo, refused: &[Refusal]) -> Result<Told, Memory>
    requires { repo.now.prepared ≡ None }
    ensures text { IfOk result (λ told. told.text.items
        ≡ refusals_text None refused.now ++ connections_text (connections_of repo.now.options (state_in repo.now))) }
    ensures status { IfOk result (λ told. status_number told.status ≡ status_of (not (is_empty refused.now)) false) }
    ensures answered { IfOk result (λ told. IsTrue (is_answered told.status)) }
{
    let text = with_refusals(alloc, Vec::new(alloc), None, refused)?;
    let open = open_connections(alloc, repo)?;
    let text = connections_text(alloc, text, open.as_slice())?;
    Ok(Told {
        text,
        status: status_of(!refused.is_empty(), false),
    })
}

/// The refused lines of two scripts.
fn both_refused(alloc: Global, before: &[Refusal], after: &[Refusal]) -> Result<Vec<u8>, Memory>
    ensures { IfOk result (λ text. text.items
        ≡ refusals_text (Some ChangeSide.Before) before.now ++ refusals_text (Some ChangeSide.After) after.now) }
{
    let text = with_refusals(alloc, Vec::new(alloc), Some(ChangeSide::Before), before)?;
    with_refusals(alloc, text, Some(ChangeSide::After), after)
}

/// The text with what changes from one state to another behind it, and whether something does.
fn with_change(
    alloc: Global,
    halves: bool,
    text: Vec<u8>,
    before: &Repo,
    after: &Repo,
) -> Result<(Vec<u8>, bool), Memory>
    requires idle { before.now.prepared ≡ None }
    requires idle_after { after.now.prepared ≡ None }
    requires options { before.now.options ≡ after.now.options }
    ensures text { IfOk result (λ told.
        told.0.items ≡ text.items ++ states_text halves after.now.options (state_in before.now) (state_in after.now)) }
    ensures changes { IfOk result (λ told.
        told.1 ≡ not (is_same halves after.now.options (state_in before.now) (state_in after.now))) }
{
    let gone = ends_alone(alloc, after, before)?;
    let new = ends_alone(alloc, before, after)?;
    let changed = changed_connections(alloc, halves, before, after)?;
    let same = gone.is_empty() && new.is_empty() && changed.is_empty();
    let text = change_text(
        alloc,
        text,
        gone.as_slice(),
        new.as_slice(),
        changed.as_slice(),
    )?;
    Ok((text, !same))
}

/// What is told of two states.
pub(crate) fn two_states(
    alloc: Global,
    halves: bool,
    before: &Repo,
    after: &Repo,
    refused_before: &[Refusal],
    refused_after: &[Refusal],
) -> Result<Told, Memory>
    requires idle { before.now.prepared ≡ None }
    requires idle_after { after.now.prepared ≡ None }
    requires options { before.now.options ≡ after.now.options }
    ensures text { IfOk result (λ told. told.text.items ≡ refusals_text (Some ChangeSide.Before) refused_before.now
        ++ refusals_text (Some ChangeSide.After) refused_after.now
        ++ states_text halves after.now.options (state_in before.now) (state_in after.now)) }
    ensures status { IfOk result (λ told. status_number told.status
        ≡ status_of (not (is_empty refused_before.now && is_empty refused_after.now))
        (not (is_same halves after.now.options (state_in before.now) (state_in after.now)))) }
    ensures answered { IfOk result (λ told. IsTrue (is_answered told.status)) }
{
    let text = both_refused(alloc, refused_before, refused_after)?;
    let (text, changes) = with_change(alloc, halves, text, before, after)?;
    let refused = !(refused_before.is_empty() && refused_after.is_empty());
    Ok(Told {
        text,
        status: status_of(refused, changes),
    })
}
