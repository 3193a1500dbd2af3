//! Numbers taken by label sets and prefixes.
ghost use Rattle.std.specs.Prelude.{◌≡◌, ◌&&◌, ◌↔◌, not, true, false, None, IfOk, OnOk, OnErr, IsErrOf};
ghost use Rattle.pol_model.specs.Fault.{has_reserved, is_exhausted, is_init, locals_held};
ghost use Rattle.pol_model.specs.Identities.{labels_held, number_for};
ghost use Rattle.pol_model.specs.Prefixes.{number_of_prefix, prefix_held};
ghost use Rattle.pol_model_laws.specs.Keeps.{KeepsRows};
ghost use Rattle.pol_ident.specs.Look.{number_for_prefix};

use crate::{IdentError, Identities};
use pol_addr::Prefix;
use pol_labels::LabelSet;
use pol_model::{
    CLUSTER_FIRST, CLUSTER_IDENTITIES, INIT_IDENTITY, LOCAL_FIRST, LOCAL_IDENTITIES, is_init,
    world_identity,
};

impl Identities {
    /// Gives the label set's number and adds one holder: the number of an equal set, else the least free one of 256 to
    /// 65535 (Cilium, Terminology, "Identity"; which free number is profile). The set of `reserved:init` alone has the
    /// reserved number 5, whose row stays as it is.
    ///
    /// `Exhausted` comes exactly where all of these numbers are held and the set has none. `Memory` is want of memory,
    /// or a count of holders at its end. After an error the identities are as before.
    pub fn acquire(&mut self, labels: &LabelSet) -> Result<u32, IdentError>
        requires allowed { (has_reserved labels.now && not (is_init labels.now)) ≡ false }
        ensures number { IfOk result (λ number. number ≡ number_for labels.now self.old) }
        ensures ok { OnOk result (self.new ≡ labels_held labels.now self.old) }
        ensures err { OnErr result (self.new ≡ self.old) }
        ensures exhausted { IsErrOf result IdentError.Exhausted ↔ (is_exhausted labels.now self.old ≡ true) }
        ensures sound { KeepsRows self.new }
    {
        let _ordered = labels.as_slice();
        match self.cluster.find(labels) {
            Some(place) => {
                self.cluster.hold(place)?;
                Ok(CLUSTER_FIRST + place)
            }
            None if is_init(labels) => Ok(INIT_IDENTITY),
            None => {
                let place = self.cluster.free_place();
                if place >= CLUSTER_IDENTITIES {
                    return Err(IdentError::Exhausted);
                }
                self.cluster.add(labels)?;
                Ok(CLUSTER_FIRST + place)
            }
        }
    }

    /// Gives the prefix's number and adds one holder: its own, else the least free one of 16777217 to 16842751 (Cilium,
    /// Terminology, "Identity", local identities; which free number is profile). The prefixes 0.0.0.0/0 and ::/0 have the
    /// reserved numbers 9 and 10, whose rows stay as they are.
    ///
    /// `Exhausted` comes exactly where all of these numbers are held and the prefix has none. `Memory` is want of
    /// memory, or a count of holders at its end. After an error the identities are as before.
    pub fn acquire_prefix(&mut self, prefix: Prefix) -> Result<u32, IdentError>
        ensures number { IfOk result (λ number. number ≡ number_for_prefix prefix self.old) }
        ensures ok { OnOk result (self.new ≡ prefix_held prefix self.old) }
        ensures err { OnErr result (self.new ≡ self.old) }
        ensures exhausted { IsErrOf result IdentError.Exhausted
            ↔ ((locals_held self.old ≡ LOCAL_IDENTITIES) × (number_of_prefix prefix self.old ≡ None)) }
        ensures sound { KeepsRows self.new }
    {
        let len = prefix.len();
        match self.local.find(&prefix) {
            Some(place) => {
                self.local.hold(place)?;
                Ok(LOCAL_FIRST + place)
            }
            None if len == 0 => Ok(world_identity(prefix.network().family())),
            None => {
                let place = self.local.free_place();
                if place >= LOCAL_IDENTITIES {
                    return Err(IdentError::Exhausted);
                }
                self.local.add(prefix)?;
                Ok(LOCAL_FIRST + place)
            }
        }
    }
}
