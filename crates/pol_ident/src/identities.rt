//! The identities of a cluster and of prefixes.
ghost use Rattle.std.specs.Prelude.{◌≡◌, IfOk};
ghost use Rattle.pol_model.specs.Identities.{reserved_identities};
ghost use Rattle.pol_model_laws.specs.Keeps.{KeepsRows};

use pol_data::Memory;
use pol_label_sets::LabelSets;
use pol_local_prefixes::LocalPrefixes;
use pol_model::{IdentityRow, reserved_rows};
use std::alloc::Global;
use std::marker::Model;

/// The security identities that are held: the reserved ones, those of label sets and those of prefixes (Cilium,
/// Terminology, "Identity" and "Special Identities"). Contracts see the list of their rows, which ascends by number.
#[derive(Drop)]
pub struct Identities {
    pub(crate) reserved: Vec<IdentityRow>,
    pub(crate) cluster: LabelSets,
    pub(crate) local: LocalPrefixes,
}

impl Model for Identities {
    ghost use Rattle.std.specs.Prelude.{List};
    ghost use Rattle.pol_model.specs.declared.row.IdentityRow.{IdentityRow as OneRow};
    ghost use Rattle.pol_ident.specs.Rows.{IsIdentities, rows_of};

    ghost Value = { List OneRow };

    ghost view = { λ i. rows_of i.cluster i.local };

    ghost invariant = { λ i. IsIdentities i.reserved.items i.cluster i.local };
}

impl Identities {
    /// The reserved identities alone, each with one holder. The one error is want of memory.
    pub fn new(alloc: Global) -> Result<Identities, Memory>
        ensures rows { IfOk result (λ identities. identities ≡ reserved_identities) }
        ensures sound { IfOk result (λ identities. KeepsRows identities) }
    {
        Ok(Identities {
            reserved: reserved_rows(alloc)?,
            cluster: LabelSets::new(alloc),
            local: LocalPrefixes::new(alloc),
        })
    }
}
