//! Prefixes, taken and given up.
ghost use Rattle.std.specs.Prelude.{◌≡◌, ◌<◌, ◌+◌, ◌↔◌, true, IfOk, OnOk, OnErr, IsErrOf};
ghost use Rattle.std.specs.List.{AllByRecursion, IsDistinct};
ghost use Rattle.pol_addr.specs.Cidr.{IsPrefix};
ghost use Rattle.pol_addr.specs.Prefix.{same_prefix};
ghost use Rattle.pol_model.specs.declared.limits.TheConstants.{LOCAL_IDENTITIES as MOST};
ghost use Rattle.pol_model.specs.Fault.{locals_held, locals_wanted};
ghost use Rattle.pol_model.specs.Prefixes.{prefixes_held, prefixes_released};
ghost use Rattle.pol_model_laws.specs.Holding.{has_row};
ghost use Rattle.pol_model_laws.specs.Keeps.{KeepsRows};
ghost use Rattle.pol_set_changes.specs.Log.{newest};
ghost use Rattle.pol_selcache.specs.Live.{AreExact, rows_without};
ghost use Rattle.pol_prefixes.specs.Beyond.{AreBeyond};
ghost use Rattle.pol_allocator.specs.Held.{Prepares, with_log_room};

use crate::Allocator;
use crate::shared::{once_held, once_planned, once_released};
use pol_addr::Prefix;
use pol_data::{Memory, Steps};
use pol_ident::IdentError;
use pol_prefixes::{gone_numbers, hold_prefixes, release_prefixes};
use pol_selcache::Plan;
use std::sync::ledger::Ledger;

impl Allocator {
    /// Holds the prefixes once more, and gives the numbers that are new.
    pub(crate) fn take(&mut self, prefixes: &[Prefix]) -> Result<Vec<u32>, IdentError>
        ensures rows { OnOk result (self.new ≡ record self.old { rows = prefixes_held prefixes.now self.old.rows }) }
        ensures come { IfOk result (λ come. AreBeyond self.old.rows self.new.rows come.items) }
        ensures err { OnErr result (self.new ≡ self.old) }
        ensures exhausted { IsErrOf result IdentError.Exhausted
            ↔ (MOST < locals_held self.old.rows + locals_wanted self.old.rows prefixes.now) }
        ensures within { OnOk result (AllByRecursion IsPrefix prefixes.now) }
        ensures sound { KeepsRows self.old.rows }
    {
        let held = hold_prefixes(
            self.alloc,
            &mut self.identities,
            &mut self.prefixes,
            prefixes,
        );
        self.identities.fits_together();
        let come = held?;
        let shared = self.shared.take();
        self.shared = once_held(shared, come.is_empty(), &self.identities, prefixes);
        Ok(come)
    }

    /// Takes one holder away from each prefix. With its last one a prefix loses its number. The sets stay as they are. It
    /// takes no memory.
    pub fn release_prefixes(&mut self, prefixes: &[Prefix])
        ensures rows { self.new ≡ record self.old { rows = prefixes_released prefixes.now self.old.rows } }
    {
        release_prefixes(&mut self.identities, &mut self.prefixes, prefixes);
        let shared = self.shared.take();
        self.shared = once_released(shared, &self.identities, prefixes);
    }

    /// The numbers that a release of the prefixes lets go.
    fn gone(&self, prefixes: &[Prefix]) -> Result<Vec<u32>, Memory>
        requires once { IsDistinct same_prefix prefixes.now }
        ensures gone { IfOk result (λ gone.
            AreBeyond (prefixes_released prefixes.now self.now.rows) self.now.rows gone.items) }
        ensures sound { KeepsRows self.now.rows }
    {
        let gone = gone_numbers(self.alloc, &self.identities, prefixes)?;
        Ok(gone)
    }

    /// Makes the table that is handed out anew where it isn't there, or where a release would lose it. Without memory there
    /// is none.
    fn prepare_shared(&mut self, numbers_go: bool)
        ensures same { self.new ≡ self.old }
    {
        let shared = self.shared.take();
        self.shared = once_planned(self.alloc, shared, &self.prefixes, numbers_go);
    }

    /// What changes of the sets where these numbers came and the prefixes are released.
    pub(crate) fn plan_moves<L: Ledger>(
        &mut self,
        revision: u64,
        come: &[u32],
        given_up: &[Prefix],
        steps: &mut Steps<L>,
    ) -> Result<Plan, Memory>
        requires once { IsDistinct same_prefix given_up.now }
        requires newer { newest self.old.cache.log < revision }
        requires held { AllByRecursion (λ number. has_row number self.old.rows ≡ true) come.now }
        requires stay { AllByRecursion (λ number.
            has_row number (prefixes_released given_up.now self.old.rows) ≡ true) come.now }
        requires exact { AreExact (rows_without come.now self.old.rows) self.old.cache.live }
        ensures plan { IfOk result (λ plan.
            Prepares revision (prefixes_released given_up.now self.old.rows) self.new.cache plan) }
        ensures same { self.new ≡ with_log_room self.new.cache.log.spare self.old }
        ensures err { OnErr result (self.new ≡ self.old) }
    {
        let gone = self.gone(given_up)?;
        let plan = self.plan(revision, come, gone.as_slice(), steps)?;
        self.prepare_shared(!gone.is_empty());
        Ok(plan)
    }
}
