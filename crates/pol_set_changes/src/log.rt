//! The log of changes.
ghost use Rattle.std.specs.Prelude.{◌≡◌, ◌↔◌, ◌+◌, ◌-◌, ◌<◌, ◌≤◌, ◌%◌, length, max, IfOk, IsOk, OnOk, OnErr, IsNone};
ghost use Rattle.pol_arena.specs.Twin.{on_chain};
ghost use Rattle.pol_set_changes.specs.Log.{empty_log, newest, recorded, since, unchanged_since, IsSound};
ghost use Rattle.pol_set_changes.specs.Net.{net};
ghost use Rattle.pol_set_changes.specs.Nodes.{with_place, horizon_with_place, found_in};

use crate::SetChange;
use crate::net::net_of;
use pol_arena::Twin;
use pol_data::Memory;
use pol_sets::Move;
use std::alloc::Global;
use std::marker::Model;

/// How many changes are kept.
const KEPT: usize = 65_536;

/// How many chains there are. Selectors whose numbers are the same modulo this share a chain.
const CHAINS: u64 = 65_536;

/// The last 65,536 changes of all selectors' sets, and all where there are fewer. The limit is profile.
#[derive(Drop)]
pub struct ChangeLog {
    nodes: Twin<SetChange>,
    count: usize,
    horizon: u64,
    // The revision of the newest change so far, 0 before the first.
    latest: u64,
    spare: usize,
}

impl Model for ChangeLog {
    ghost use Rattle.pol_set_changes.specs.Log.{Log};

    ghost Value = { Log };

    ghost use Rattle.pol_set_changes.specs.Nodes.{log_of, IsKept};

    ghost view = { λ log. log_of log.nodes log.horizon log.spare };

    ghost invariant = { λ log. IsKept log.nodes log.count log.horizon log.latest log.spare };
}

/// The chain of a selector.
fn chain_of(selector: u64) -> u64
    ensures { result ≡ selector % 65536 }
{
    selector % CHAINS
}

/// The net change of a selector's set since the revision, by a walk from its chain's newest node to the first that
/// isn't later.
fn net_on_chain(
    alloc: Global,
    nodes: &Twin<SetChange>,
    selector: u64,
    revision: u64,
) -> Result<Move, Memory>
    ensures { IfOk result (λ m.
        m ≡ net selector (found_in selector revision (on_chain (selector % 65536) nodes.now.ages))) }
{
    let mut came = Vec::new(alloc);
    let mut went = Vec::new(alloc);
    let mut node = nodes.newest(chain_of(selector));
    while let Some(at) = node {
        let change = nodes.get(at);
        if change.revision <= revision {
            break;
        }
        if change.selector == selector {
            change.gained.push_to(&mut came)?;
            change.lost.push_to(&mut went)?;
        }
        node = nodes.older(at);
    }
    net_of(alloc, selector, came, went)
}

/// Drops the oldest node where as many are kept as may be, and gives the horizon then.
fn make_place(nodes: &mut Twin<SetChange>, count: usize, horizon: u64) -> u64
    requires counted { count ≡ length nodes.old.ages }
    ensures nodes { nodes.new ≡ with_place nodes.old }
    ensures horizon { result ≡ horizon_with_place nodes.old horizon }
{
    if count < KEPT {
        return horizon;
    }
    match nodes.drop_oldest() {
        Some(oldest) => oldest.revision,
        None => unreachable!(),
    }
}

impl ChangeLog {
    /// A log without changes. It takes no memory yet.
    pub fn new(alloc: Global) -> ChangeLog
        ensures log { result ≡ empty_log }
        ensures sound { IsSound result }
    {
        ChangeLog {
            nodes: Twin::new(alloc),
            count: 0,
            horizon: 0,
            latest: 0,
            spare: 0,
        }
    }

    /// Makes room, so that at least so many changes can be recorded without memory. The one error is want of memory, and
    /// then the log is as before. Where there is that room it takes no memory.
    pub fn reserve(&mut self, changes: usize) -> Result<(), Memory>
        ensures ok { OnOk result (self.new ≡ record self.old { spare = max self.old.spare changes }) }
        ensures err { OnErr result (self.new ≡ self.old) }
        ensures succeeds { changes ≤ self.old.spare → IsOk result }
        ensures sound { IsSound self.new }
    {
        if changes <= self.spare {
            return Ok(());
        }
        let nodes = changes.min(KEPT - self.count) as u32;
        self.nodes.reserve(nodes, CHAINS)?;
        self.spare = changes;
        Ok(())
    }

    /// Records a change, which is no older than any so far. There must be room for one, and it takes no memory. Where
    /// 65,536 are kept the oldest goes, and its revision is the horizon from then on.
    pub fn record(&mut self, change: SetChange)
        requires in_order { newest self.old ≤ change.revision }
        requires spare { 1 ≤ self.old.spare }
        ensures log { self.new ≡ recorded self.old change }
        ensures sound { IsSound self.new }
    {
        self.horizon = make_place(&mut self.nodes, self.count, self.horizon);
        self.count = KEPT.min(self.count + 1);
        self.latest = change.revision;
        self.nodes.push(chain_of(change.selector), change);
        self.spare -= 1;
    }

    /// What the set of a selector gained and lost in all since a revision: the net change of its changes of a later
    /// revision. None exactly where the revision is below the horizon. The one error is want of memory.
    pub fn since(&self, alloc: Global, selector: u64, revision: u64) -> Result<Option<Move>, Memory>
        ensures since { IfOk result (λ m. m ≡ since self.now selector revision) }
        ensures none { IfOk result (λ m. IsNone m ↔ (revision < self.now.horizon)) }
        ensures sound { IsSound self.now }
    {
        if revision < self.horizon {
            return Ok(None);
        }
        Ok(Some(net_on_chain(alloc, &self.nodes, selector, revision)?))
    }

    /// A revision since which the set of a selector hasn't changed: that of the newest change of the selectors that share its
    /// chain, and the horizon where none is kept.
    pub fn unchanged_since(&self, selector: u64) -> u64
        ensures unchanged { result ≡ unchanged_since selector self.now }
        ensures sound { IsSound self.now }
    {
        match self.nodes.newest(chain_of(selector)) {
            Some(node) => self.nodes.get(node).revision,
            None => self.horizon,
        }
    }

    /// The revision of the newest change so far, 0 before the first.
    pub fn newest(&self) -> u64
        ensures newest { result ≡ newest self.now }
        ensures sound { IsSound self.now }
    {
        self.latest
    }

    /// The revision of the newest change that was dropped, 0 if none was.
    pub fn horizon(&self) -> u64
        ensures horizon { result ≡ self.now.horizon }
        ensures sound { IsSound self.now }
    {
        self.horizon
    }
}
