//! The repository, and what is told at any time.
ghost use Rattle.std.specs.Prelude.{◌≡◌, [], None, IfOk};
ghost use Rattle.pol_model_laws.specs.WithoutFaults.{WithoutFaults};
ghost use Rattle.pol_repo.specs.Repository.{state_in};

use pol_data::Memory;
use pol_model::{Mode, Options, Request};
use pol_requests::Prepared;
use pol_store::Store;
use std::alloc::Global;
use std::marker::Model;

/// The state that the requests so far have made, under its indexes. Contracts see the options, these requests, and the
/// request that is prepared, if there is one (`specs/Repository`).
pub struct Repo {
    pub(crate) options: Options,
    pub(crate) journal: Vec<Request>,
    // For each revision, from 0 on, the number that the next new selector would have taken.
    pub(crate) nexts: Vec<u64>,
    pub(crate) store: Store,
    pub(crate) prepared: Option<Prepared>,
}

impl Model for Repo {
    ghost use Rattle.pol_repo.specs.Repository.{Repository};

    ghost Value = { Repository };

    ghost use Rattle.std.specs.Prelude.{vec_len};
    ghost use Rattle.std.specs.Vec.{vec_capacity};
    ghost use Rattle.pol_repo.specs.Inside.{IsSound, IsTold, seen_as};

    ghost view = { λ repo. seen_as repo.options repo.journal.items repo.store repo.prepared };

    ghost invariant = { λ repo. IsSound repo.options repo.journal.items (vec_len repo.journal)
        (vec_capacity repo.journal) repo.store repo.prepared × IsTold repo.options repo.journal.items repo.nexts.items
        (vec_len repo.nexts) (vec_capacity repo.nexts) repo.store repo.prepared };
}

/// A destructor of its own, so that how the parts go is proved here, and not in each crate that lets a repository go.
impl Drop for Repo {
    fn drop(self) {
        let Repo {
            options: _options,
            journal: _journal,
            nexts: _nexts,
            store: _store,
            prepared: _prepared,
        } = self;
    }
}

impl Repo {
    /// The repository before the first request, with this mode, and with or without leave for the local host (Cilium,
    /// `--allow-localhost`). Maps have no limit. The one error is want of memory.
    pub fn new(alloc: Global, mode: Mode, localhost: bool) -> Result<Repo, Memory>
        ensures start { IfOk result (λ repo. repo ≡ record {
          options = record { mode = mode; localhost = localhost; map_max = None };
          journal = [];
          prepared = None;
        }) }
    {
        let options = Options {
            mode,
            localhost,
            map_max: None,
        };
        let mut nexts = Vec::new(alloc);
        nexts.push(0)?;
        Ok(Repo {
            options,
            journal: Vec::new(alloc),
            nexts,
            store: Store::new(alloc, mode)?,
            prepared: None,
        })
    }

    /// The requests so far, in the order in which they were accepted. Each was valid, and had no fault in the state that
    /// those before it had made.
    pub fn journal(&self) -> &[Request]
        ensures requests { result.now ≡ self.now.journal }
        ensures without_faults { WithoutFaults self.now.options self.now.journal }
    {
        self.fits_together();
        self.journal.as_slice()
    }

    /// The call tells that no request of the journal had a fault.
    pub fn fits_together(&self)
        ensures without_faults { WithoutFaults self.now.options self.now.journal }
    {
        let _ = &self.journal;
    }

    /// How many requests were accepted so far.
    pub fn revision(&self) -> u64
        ensures revision { result ≡ (state_in self.now).revision }
    {
        self.store.revision()
    }
}
