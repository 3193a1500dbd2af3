//! One reference more.
ghost use Rattle.std.specs.Prelude.{◌≡◌, ◌+◌, ◌≤◌, ◌*◌, IfOk, OnOk, OnErr, length, None};
ghost use Rattle.pol_selcache.specs.Live.{AreExact, number_of};
ghost use Rattle.pol_selcache.specs.Held.{rows_judged, steps_of};
ghost use Rattle.pol_selcache.specs.Cache.{IsSound, added, added_by, number_added};

use crate::SelectorCache;
use crate::judge::set_of;
use pol_data::{Memory, Steps};
use pol_ident::Identities;
use pol_rule::Peer;
use std::alloc::AllocError;
use std::sync::Arc;
use std::sync::ledger::Ledger;

impl SelectorCache {
    /// The number of the peer's selector, which has one reference more. A live selector of an equal peer is shared; a new
    /// one has the held numbers that the peer selects as its set. `Memory` is want of memory, or that no number or no
    /// count of 64 bits is left ('profile').
    pub fn add<L: Ledger>(
        &mut self,
        peer: &Peer,
        identities: &Identities,
        steps: &mut Steps<L>,
    ) -> Result<u64, Memory>
        requires exact { AreExact identities.now self.old.live }
        ensures number { IfOk result (λ number. number ≡ number_added peer.now self.old) }
        ensures added { OnOk result (self.new ≡ added peer.now identities.now self.old) }
        ensures err { OnErr result (self.new ≡ self.old) }
        ensures exact { AreExact identities.now self.new.live }
        ensures sound { IsSound self.new }
        ensures cost { steps.new ≤ steps.old + steps_of peer.now * length (rows_judged identities.now peer.now) }
    {
        match self.table.number_of(peer) {
            None => self.add_new(peer, identities, steps),
            Some(number) => {
                self.table.refer(number)?;
                Ok(number)
            }
        }
    }

    /// A new selector, where no live one has an equal peer.
    fn add_new<L: Ledger>(
        &mut self,
        peer: &Peer,
        identities: &Identities,
        steps: &mut Steps<L>,
    ) -> Result<u64, Memory>
        requires new { number_of peer.now self.old.live ≡ None }
        ensures number { IfOk result (λ number. number ≡ self.old.next) }
        ensures added { OnOk result (self.new ≡ added_by None peer.now identities.now self.old) }
        ensures err { OnErr result (self.new ≡ self.old) }
        ensures sound { IsSound self.new }
        ensures cost { steps.new ≤ steps.old + steps_of peer.now * length (rows_judged identities.now peer.now) }
    {
        let alloc = self.alloc;
        let number = self.next;
        let next = number.checked_add(1).ok_or(AllocError)?;
        let set = Arc::new(alloc, set_of(alloc, peer, identities, steps)?)?;
        self.table.push(alloc, peer, number, set)?;
        self.next = next;
        Ok(number)
    }
}
