//! A machine with the disk on which its requests are kept.
ghost use Rattle.std.specs.Prelude.{◌≡◌, ◌≤◌, ◌↔◌, ◌^◌, ◌++◌, ◌∷◌, [], IfErr, IfOk, IsErrOf, None, OnErr, OnOk, Some, false, length, true};
ghost use Rattle.pol_disk.specs.Calls.{Runs, StopsIn};
ghost use Rattle.pol_disk.specs.Images.{LeavesOnly};
ghost use Rattle.pol_history.specs.Machine.{Machine as OneMachine};
ghost use Rattle.pol_history.specs.declared.machine.Event.TheVariants as step;
ghost use Rattle.pol_journal.specs.Journal.{IsJournal, IsJournalOrOneMore, asked_in};
ghost use Rattle.pol_kept.specs.Calls.{StopsOpening, calls_of_commit, calls_of_open};
ghost use Rattle.pol_kept.specs.Errors.{loses};
ghost use Rattle.pol_kept.specs.Keeps.{Commits, HoldsUnlessFailed, IsKept, IsOpened, KeepsJournal, TellsDamage, asks_other, is_other, options_of, requests_in};
ghost use Rattle.pol_kept.specs.Kept.{disk_after};
ghost use Rattle.pol_machine.specs.Cost.{Costs};
ghost use Rattle.pol_machine.specs.Serial.{LedTo, SaidTo, events_of};
ghost use Rattle.pol_machine.specs.Stands.{Stands, StepsTo, options_in};
ghost use Rattle.pol_model.specs.Endpoints.{endpoint_of};
ghost use Rattle.pol_model.specs.Explain.{explain_of};
ghost use Rattle.pol_record_log.specs.Steps.{calls_later, cut_to_log};
ghost use Rattle.pol_repo.specs.Repository.{state_in};
ghost use Rattle.pol_streams.specs.Faults.{Rose};

use crate::committing::{commit_over, loses};
use crate::config::KeptConfig;
use crate::error::{Closed, KeptError, OpenError};
use crate::opening::open_over;
use pol_data::{Memory, Steps};
use pol_disk::Disk;
use pol_history::{Event, Reply};
use pol_machine::{Asked, Machine, SerialAnswer, answer};
use pol_model::{Committed, Query, Request, Trace};
use pol_repo::Repo;
use pol_trace::{ExplainError, explain};
use std::alloc::Global;
use std::marker::Model;
use std::sync::ledger::Ledger;

/// A machine whose accepted requests are kept on a disk. Contracts see the disk, the machine, and whether a call of the disk has
/// failed; until one has, the disk keeps the machine's requests (`fits_together`).
#[derive(Drop)]
pub struct Kept<D: Disk> {
    alloc: Global,
    disk: D,
    machine: Machine,
    lost: bool,
}

impl<D: Disk> Model for Kept<D> {
    ghost use Rattle.std.specs.Coded.{codes};
    ghost use Rattle.pol_prefixes.specs.AddressTable.{address_code};
    ghost use Rattle.pol_trie.specs.PolicyMap.{policy_map_code};
    ghost use Rattle.pol_kept.specs.Kept.{KeptState};

    ghost Value = { KeptState D };

    ghost coded = { Prim.hlevel (codes, address_code, policy_map_code, D.code) };

    ghost use Rattle.std.specs.Prelude.{◌≡◌, false};
    ghost use Rattle.pol_kept.specs.Keeps.{IsKept};

    ghost view = { λ k. record { disk = k.disk; machine = k.machine; lost = k.lost } };

    ghost invariant = { λ k. k.lost ≡ false → IsKept D.seen D.may_leave k.disk k.machine };
}

impl<D: Disk> Kept<D> {
    /// The machine of the journal on the disk. It syncs. Where there is at most one byte, it writes a closed gate and syncs;
    /// otherwise it reads, cuts behind the closed gate that ends the journal, and syncs.
    ///
    /// `Damaged` comes exactly where the bytes aren't a journal, want of memory aside, if no call of the disk failed before that was
    /// known; nothing is written then. `Disk` comes only at a fault of the disk. `Memory` is want of memory, and comes also where a
    /// request's list is longer than a place has numbers for.
    pub fn open(alloc: Global, mut disk: D, config: KeptConfig) -> Result<Kept<D>, Closed<D>>
        requires limit { config.map_max ≤ 65536 }

        // On success the machine is the one that committed the journal's requests, and a crash leaves their records alone, cut behind
        // the closed gate that ends them.
        ensures opened { IfOk result (λ kept. IsOpened (options_of config) (requests_in kept.machine) kept.machine) }
        ensures journal { IfOk result (λ kept. IsJournal (options_of config) (requests_in kept.machine) (D.seen disk)) }
        ensures images { IfOk result (λ kept. IsKept D.seen D.may_leave kept.disk kept.machine) }
        ensures cut { IfOk result (λ kept. D.seen kept.disk ≡ cut_to_log (D.seen disk)) }
        ensures lost { IfOk result (λ kept. kept.lost ≡ false) }

        // On failure. The disk holds what it held, unless one of its calls failed.
        ensures damaged { IfErr result (λ closed. TellsDamage (options_of config) (D.seen disk) closed.why) }
        ensures failed { IfErr result (λ closed.
            closed.why ≡ OpenError.Disk → Rose (D.faults disk) (D.faults closed.disk)) }
        ensures stays { IfErr result
            (λ closed. HoldsUnlessFailed D.seen D.may_leave D.moment D.left_since disk closed.why closed.disk) }

        // A crash at any moment leaves what it might have left before, or a journal of the same requests.
        ensures any_moment { LeavesOnly D.moment D.left_since disk
            (disk_after result) (KeepsJournal (options_of config) (D.seen disk) (D.may_leave disk)) }

        // The calls, and the counts.
        ensures calls { IfOk result
            (λ kept. Runs D.does D.fails disk (calls_of_open (D.seen disk)) kept.disk) }
        ensures stops { IfErr result (λ closed. StopsOpening D.does D.fails (D.seen disk) disk closed.why closed.disk) }
        ensures clock { length (D.seen disk) ≤ 1
            → IfOk result (λ kept. D.clock kept.disk ≡ calls_later 3 (D.clock disk)) }
        ensures never_falls { D.faults disk ≤ D.faults (disk_after result) }
    {
        match open_over(alloc, &mut disk, config) {
            Ok(machine) => Ok(Kept {
                alloc,
                disk,
                machine,
                lost: false,
            }),
            Err(why) => Err(Closed { why, disk }),
        }
    }

    /// The call tells that the disk keeps the machine's requests, where none of its calls has failed.
    pub fn fits_together(&self)
        ensures kept { self.now.lost ≡ false → IsKept D.seen D.may_leave self.now.disk self.now.machine }
    {
        let _ = &self.lost;
    }

    /// A request and its line are kept: the machine commits the request, the line is written behind the last gate with a closed
    /// gate behind it and synced, and then the last gate is opened and synced. All memory is taken before.
    ///
    /// `Refused` comes exactly where the request has a fault, `Disk` only at a fault of the disk; the machine has made the step
    /// then, and the disk is lost. `Memory` is want of memory, and comes also where the line, or a list of the request, is longer
    /// than a record or a place has numbers for. After `Refused` and `Memory` the disk is as before, and no call of it was made.
    pub fn commit<L: Ledger>(
        &mut self,
        line: &[u8],
        request: Request,
        steps: &mut Steps<L>,
    ) -> Result<Committed, KeptError>
        requires read { asked_in line.now ≡ Some request }
        requires not_lost { self.old.lost ≡ false }

        // The machine.
        ensures options { options_in self.new.machine ≡ options_in self.old.machine }
        ensures machine { (m : OneMachine)
            → Stands self.old.machine m → Commits (options_in self.old.machine) m request self.new.machine result }
        ensures accepted { OnOk result (requests_in self.new.machine ≡ requests_in self.old.machine ++ request ∷ []) }
        ensures too_long { 2 ^ 32 ≤ length line.now → IsErrOf result KeptError.Memory }
        ensures cost { Costs (state_in self.old.machine.repo) (step.Commit request) steps.old steps.new }

        // The disk, which is lost where one of its calls failed.
        ensures lost { self.new.lost ≡ loses result }
        ensures kept { loses result ≡ false → IsKept D.seen D.may_leave self.new.disk self.new.machine }
        ensures untouched { OnErr result (loses result ≡ false → self.new.disk ≡ self.old.disk) }
        ensures failed { IsErrOf result KeptError.Disk → Rose (D.faults self.old.disk) (D.faults self.new.disk) }

        // A crash at any moment leaves a journal of the requests before, or of this one more.
        ensures any_moment { LeavesOnly D.moment D.left_since self.old.disk self.new.disk
            (IsJournalOrOneMore (options_in self.old.machine) (requests_in self.old.machine) request) }

        // The calls, and the counts.
        ensures calls { OnOk result
            (Runs D.does D.fails self.old.disk (calls_of_commit (D.seen self.old.disk) line.now) self.new.disk) }
        ensures stops { IsErrOf result KeptError.Disk
            → StopsIn D.does D.fails self.old.disk (calls_of_commit (D.seen self.old.disk) line.now) self.new.disk }
        ensures clock { OnOk result (D.clock self.new.disk ≡ calls_later 4 (D.clock self.old.disk)) }
        ensures never_falls { D.faults self.old.disk ≤ D.faults self.new.disk }
    {
        self.lost = true;
        let done = commit_over(
            self.alloc,
            &mut self.disk,
            &mut self.machine,
            line,
            request,
            steps,
        );
        self.lost = loses(&done);
        done
    }

    /// The machine does an event that commits nothing, and replies as the definition says. No call of the disk is made. The one
    /// error is want of memory, and then the machine is as before.
    pub fn other<L: Ledger>(&mut self, event: Event, steps: &mut Steps<L>) -> Result<Reply, Memory>
        requires other { is_other event ≡ true }
        requires not_lost { self.old.lost ≡ false }
        ensures options { options_in self.new.machine ≡ options_in self.old.machine }
        ensures step { (m : OneMachine) → Stands self.old.machine m
            → StepsTo (options_in self.old.machine) m event self.new.machine result }
        ensures requests { requests_in self.new.machine ≡ requests_in self.old.machine }
        ensures disk { (self.new.disk ≡ self.old.disk) × (self.new.lost ≡ false) }
        ensures cost { Costs (state_in self.old.machine.repo) event steps.old steps.new }
    {
        self.machine.step(event, steps)
    }

    /// The machine does what is asked, which is no commit, and the answer is that of the definition ('profile'). No call of the
    /// disk is made. The one error is want of memory. Then a sync has finished some slots, from the first on, and nothing else was
    /// done.
    pub fn answer<L: Ledger>(
        &mut self,
        asked: Asked,
        steps: &mut Steps<L>,
    ) -> Result<SerialAnswer, Memory>
        requires other { asks_other asked ≡ true }
        requires not_lost { self.old.lost ≡ false }
        ensures options { options_in self.new.machine ≡ options_in self.old.machine }
        ensures led { (m : OneMachine) → Stands self.old.machine m → LedTo
            (options_in self.old.machine) m (events_of (options_in self.old.machine) m asked) self.new.machine result }
        ensures said { (m : OneMachine) → Stands self.old.machine m
            → SaidTo (options_in self.old.machine) m asked result }
        ensures requests { requests_in self.new.machine ≡ requests_in self.old.machine }
        ensures disk { (self.new.disk ≡ self.old.disk) × (self.new.lost ≡ false) }
    {
        answer(self.alloc, &mut self.machine, asked, steps)
    }

    /// Whether a call of the disk has failed in a commit. It takes no memory.
    pub fn lost(&self) -> bool
        ensures { result ≡ self.now.lost }
    {
        self.lost
    }

    /// The disk. It takes no memory.
    pub fn close(self) -> D
        ensures { result ≡ self.disk }
    {
        let Kept {
            alloc: _alloc,
            disk,
            machine: _machine,
            lost: _lost,
        } = self;
        disk
    }

    /// The repository after the machine's commits. It takes no memory.
    pub fn repo(&self) -> &Repo
        ensures repo { result.now ≡ self.now.machine.repo }
        ensures idle { result.now.prepared ≡ None }
    {
        self.machine.repo()
    }

    /// Why the query's packet is allowed or denied in the present state. `NoEndpoint` comes exactly where no endpoint of that name
    /// is live. `Memory` is want of memory.
    pub fn trace(&self, alloc: Global, query: &Query) -> Result<Trace, ExplainError>
        ensures trace { IfOk result (λ trace.
            explain_of (options_in self.now.machine) (state_in self.now.machine.repo) query.now ≡ Some trace) }
        ensures no_endpoint { IsErrOf result ExplainError.NoEndpoint
            ↔ (endpoint_of query.now.endpoint (state_in self.now.machine.repo).endpoints ≡ None) }
    {
        explain(alloc, self.machine.repo(), query)
    }
}
