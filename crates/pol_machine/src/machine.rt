//! The machine.
ghost use Rattle.std.specs.Prelude.{◌≡◌, ◌+◌, ◌≤◌, IfOk, None, Some, false};
ghost use Rattle.pol_history.specs.Commits.{commits_in};
ghost use Rattle.pol_history.specs.declared.machine.Event.TheVariants as step;
ghost use Rattle.pol_history.specs.Machine.{Machine as OneMachine, machine_from, machine_start, step_of};
ghost use Rattle.pol_model.specs.Sizes.{IsShort};
ghost use Rattle.pol_repo.specs.Cost.{label_peers};
ghost use Rattle.pol_repo.specs.Repository.{state_in};
ghost use Rattle.pol_requests.specs.Prepared.{is_of_policy};
ghost use Rattle.pol_machine.specs.Cost.{Costs};
ghost use Rattle.pol_machine.specs.Serial.{LedTo, ListsRows, turn_of, turns_at, turns_in};
ghost use Rattle.pol_machine.specs.Stands.{IsGiven, Stands, StepsTo, options_in};

use crate::commit::commit;
use crate::finish::finish;
use crate::full::{full_rows, slots_of};
use crate::row::{Rows, look};
use crate::take::{Takes, take};
use indexmap::IndexMap;
use pol_data::{Memory, Steps};
use pol_history::{Event, Reply};
use pol_model::{FullList, Mode, Query, Request};
use pol_repo::Repo;
use std::alloc::Global;
use std::marker::Model;
use std::sync::ledger::Ledger;

/// The policy core of one node, without threads: a repository, and for each live endpoint its published map with the map that
/// was made last. Contracts see what it keeps, and the machine that this stands for (`specs/Stands`).
pub struct Machine {
    alloc: Global,
    limit: u32,
    repo: Repo,
    rows: Rows,
    takes: Takes,
}

impl Model for Machine {
    ghost use Rattle.std.specs.Coded.{codes};
    ghost use Rattle.pol_prefixes.specs.AddressTable.{address_code};
    ghost use Rattle.pol_trie.specs.PolicyMap.{policy_map_code};
    ghost use Rattle.pol_machine.specs.Stands.{Stored};

    ghost Value = { Stored };

    ghost coded = { Prim.hlevel (codes, address_code, policy_map_code) };

    ghost use Rattle.pol_machine.specs.Stands.{StandsForSome, kept_of};

    ghost view = { λ m. record { limit = m.limit; repo = m.repo; rows = m.rows.entries; takes = m.takes.entries } };

    ghost invariant = { λ m. StandsForSome
        (kept_of (record { limit = m.limit; repo = m.repo; rows = m.rows.entries; takes = m.takes.entries })) };
}

/// A destructor of its own, so that how the parts go is proved here, and not in each crate that lets a machine go.
impl Drop for Machine {
    fn drop(self) {
        let Machine {
            alloc: _alloc,
            limit: _limit,
            repo: _repo,
            rows: _rows,
            takes: _takes,
        } = self;
    }
}

/// The port of a query.
fn port_of(query: &Query) -> u16
    ensures { result ≡ query.now.port }
{
    query.port
}

impl Machine {
    /// The machine before the first event, with this mode, with or without leave for the local host (Cilium,
    /// `--allow-localhost`), and with this limit on the entries of a published map ('profile'). The one error is want of
    /// memory.
    pub fn new(alloc: Global, mode: Mode, localhost: bool, map_max: u32) -> Result<Machine, Memory>
        requires limit { map_max ≤ 65536 }
        ensures options { IfOk result (λ machine.
            options_in machine ≡ record { mode = mode; localhost = localhost; map_max = Some map_max }) }
        ensures start { IfOk result (λ machine. Stands machine machine_start) }
    {
        Ok(Machine {
            alloc,
            limit: map_max,
            repo: Repo::new(alloc, mode, localhost)?,
            rows: IndexMap::new(alloc),
            takes: IndexMap::new(alloc),
        })
    }

    /// The repository after the commits of the machine's history. It takes no memory.
    pub fn repo(&self) -> &Repo
        ensures repo { result.now ≡ self.now.repo }
        ensures commits { (m : OneMachine) → Stands self.now m → result.now.journal ≡ commits_in m.history }
        ensures idle { result.now.prepared ≡ None }
    {
        &self.repo
    }

    /// The request is committed, or refused with its fault.
    fn commit<L: Ledger>(&mut self, request: Request, steps: &mut Steps<L>) -> Result<Reply, Memory>
        requires short { IsShort request }
        ensures options { options_in self.new ≡ options_in self.old }
        ensures step { (m : OneMachine) → Stands self.old m
            → StepsTo (options_in self.old) m (step.Commit request) self.new result }
        ensures cost { is_of_policy request ≡ false
            → steps.new ≤ steps.old + label_peers (state_in self.old.repo).policies }
    {
        commit(self.alloc, &mut self.repo, &mut self.rows, request, steps)
    }

    /// The slot's endpoint is taken.
    fn take(&mut self, slot: u32) -> Result<Reply, Memory>
        ensures options { options_in self.new ≡ options_in self.old }
        ensures step { (m : OneMachine) → Stands self.old m
            → StepsTo (options_in self.old) m (step.Take slot) self.new result }
    {
        self.repo.refresh(self.alloc, slot);
        take(self.alloc, &self.repo, &self.rows, &mut self.takes, slot)
    }

    /// What was taken for the slot is published, or reported as too large.
    fn finish(&mut self, slot: u32) -> Result<Reply, Memory>
        ensures options { options_in self.new ≡ options_in self.old }
        ensures step { (m : OneMachine) → Stands self.old m
            → StepsTo (options_in self.old) m (step.Finish slot) self.new result }
    {
        let commits = self.repo.revision();
        finish(
            self.alloc,
            self.limit as u64,
            commits,
            &mut self.rows,
            &mut self.takes,
            slot,
        )
    }

    /// What a look-up finds, with at most 36 steps. It takes no memory.
    fn look<L: Ledger>(&self, query: &Query, steps: &mut Steps<L>) -> Reply
        ensures found { (m : OneMachine)
            → Stands self.now m → result ≡ (step_of (options_in self.now) m (step.Look query.now)).0 }
        ensures cost { steps.new ≤ steps.old + 36 }
    {
        // A port is below 2 ^ 16.
        let _port = port_of(query);
        let commits = self.repo.revision();
        look(commits, &self.rows, query, steps)
    }

    /// The machine does the event, and replies as the definition says. The one error is want of memory, and then the machine
    /// is as before, though maps may have been made that it keeps. A step of the counter is a match of a label peer, or a node of
    /// a map that a look-up visits.
    pub fn step<L: Ledger>(&mut self, event: Event, steps: &mut Steps<L>) -> Result<Reply, Memory>
        requires given { IsGiven event }
        ensures options { options_in self.new ≡ options_in self.old }
        ensures step { (m : OneMachine) → Stands self.old m → StepsTo (options_in self.old) m event self.new result }
        ensures cost { Costs (state_in self.old.repo) event steps.old steps.new }
    {
        match event {
            Event::Commit(request) => self.commit(request, steps),
            Event::Take(slot) => self.take(slot),
            Event::Finish(slot) => self.finish(slot),
            Event::Look(query) => Ok(self.look(&query, steps)),
        }
    }

    /// The slot's endpoint is taken, and what was taken is finished.
    fn turn(&mut self, slot: u32) -> Result<Reply, Memory>
        ensures options { options_in self.new ≡ options_in self.old }
        ensures led { (m : OneMachine) → Stands self.old m
            → LedTo (options_in self.old) m (turn_of slot) self.new result }
    {
        match self.take(slot) {
            Ok(_) => self.finish(slot),
            Err(_) => Err(Memory),
        }
    }

    /// The same for each of these slots, one after another.
    fn turns(&mut self, slots: &[u32]) -> Result<(), Memory>
        ensures options { options_in self.new ≡ options_in self.old }
        ensures led { (m : OneMachine) → Stands self.old m
            → LedTo (options_in self.old) m (turns_at slots.now) self.new result }
    {
        for slot in slots {
            match self.turn(*slot) {
                Ok(_) => {}
                Err(_) => return Err(Memory),
            }
        }
        Ok(())
    }

    /// The rows of the live endpoints whose maps, where they were reported last, are too large.
    fn full(&self) -> Result<FullList, Memory>
        ensures { (m : OneMachine) → Stands self.now m → IfOk result (ListsRows (options_in self.now) m.history) }
    {
        full_rows(self.alloc, &self.rows, self.repo.endpoints())
    }

    /// These slots are taken and finished, and the rows told.
    fn sync_at(&mut self, slots: &[u32]) -> Result<FullList, Memory>
        ensures options { options_in self.new ≡ options_in self.old }
        ensures led { (m : OneMachine) → Stands self.old m
            → LedTo (options_in self.old) m (turns_at slots.now) self.new result }
        ensures full { (m : OneMachine) → Stands self.old m → IfOk result
            (ListsRows (options_in self.old) (machine_from (options_in self.old) m (turns_at slots.now)).history) }
    {
        match self.turns(slots) {
            Ok(_) => self.full(),
            Err(_) => Err(Memory),
        }
    }

    /// The slot of each live endpoint is taken and finished, in the order of the slots. The rows are of the live endpoints
    /// whose maps are too large, also where that was reported before, by name and then revision ('profile').
    ///
    /// The one error is want of memory. Then some slots were finished, from the first on.
    pub fn sync(&mut self) -> Result<FullList, Memory>
        ensures options { options_in self.new ≡ options_in self.old }
        ensures led { (m : OneMachine) → Stands self.old m
            → LedTo (options_in self.old) m (turns_in (options_in self.old) m.history) self.new result }
        ensures full { (m : OneMachine) → Stands self.old m → IfOk result (ListsRows (options_in self.old)
            (machine_from (options_in self.old) m (turns_in (options_in self.old) m.history)).history) }
    {
        match slots_of(self.alloc, self.repo().endpoints()) {
            Ok(slots) => self.sync_at(slots.as_slice()),
            Err(_) => Err(Memory),
        }
    }
}
