//! The rows of a repository's state.
ghost use Rattle.std.specs.Prelude.{◌≡◌, None, IfOk};
ghost use Rattle.pol_connection_maps.specs.Rows.{AreRowsOf, AreSound};
ghost use Rattle.pol_connections.specs.Ends.{by_name};
ghost use Rattle.pol_model_laws.specs.Keeps.{Keeps};
ghost use Rattle.pol_repo.specs.Repository.{state_in};

use crate::named::named_by_name;
use crate::numbers::rows_of;
use pol_connection_maps::StateRows;
use pol_data::Memory;
use pol_model::{IdentityRow, NamedIdentity};
use pol_repo::Repo;
use std::alloc::Global;

/// The rows of a state that its repository doesn't lend as lists.
#[derive(Drop)]
pub(crate) struct OwnRows {
    identities: Vec<IdentityRow>,
    named: Vec<NamedIdentity>,
}

impl OwnRows {
    /// Those of the repository's state.
    pub(crate) fn of(alloc: Global, repo: &Repo) -> Result<OwnRows, Memory>
        requires idle { repo.now.prepared ≡ None }
        ensures identities { IfOk result (λ own. own.identities.items ≡ (state_in repo.now).identities) }
        ensures named { IfOk result (λ own.
            own.named.items ≡ by_name (λ identity. identity.name) (state_in repo.now).named) }
    {
        let identities = rows_of(alloc, repo.identities())?;
        let named = named_by_name(alloc, repo.journal(), repo.identities())?;
        Ok(OwnRows { identities, named })
    }

    /// The rows of the repository's state, of which these are.
    pub(crate) fn rows<'a>(&'a self, repo: &'a Repo) -> StateRows<'a>
        requires idle { repo.now.prepared ≡ None }
        requires identities { self.now.identities.items ≡ (state_in repo.now).identities }
        requires named { self.now.named.items ≡ by_name (λ identity. identity.name) (state_in repo.now).named }
        ensures rows { AreRowsOf repo.now.options (state_in repo.now) result }
        ensures sound { AreSound result }
        ensures keeps { Keeps (state_in repo.now) }
    {
        repo.fits_together();
        StateRows {
            mode: repo.mode(),
            localhost: repo.localhost(),
            policies: repo.policies(),
            identities: self.identities.as_slice(),
            endpoints: repo.endpoints(),
            named: self.named.as_slice(),
        }
    }
}
