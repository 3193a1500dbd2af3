//! The live selectors.
ghost use Rattle.std.specs.Prelude.{◌≡◌, ℕ, ◌<◌, ◌++◌, [], ◌∷◌, Some, None, true, IfOk, OnOk, OnErr};
ghost use Rattle.std.specs.Arc.{arc_value};
ghost use Rattle.std.specs.List.{AllByRecursion};
ghost use Rattle.pol_headings.specs.Filed.{has};
ghost use Rattle.pol_selectors.specs.Filed.{stands_in};
ghost use Rattle.pol_selectors.specs.Inside.{live_of};
ghost use Rattle.pol_selectors.specs.Live.{AreLive, is_live, number_of, selector_of, with_reference, with_set, without_reference};

use crate::known::{add_row, new_row, take_out};
use crate::spots::{Row, Spot, holds_near, place_near, put_references, put_set, row_at};
use indexmap::IndexMap;
use pol_data::Memory;
use pol_headings::{Filing, Headings};
use pol_rule::Peer;
use pol_sets::IdSet;
use std::alloc::{AllocError, Global};
use std::marker::Model;
use std::sync::Arc;

/// The live selectors in the order of their numbers, found by peer, by number, and by what their peers ask for. A selector
/// goes without moving those behind it.
#[derive(Drop)]
pub struct Selectors {
    // The number of each live selector.
    known: IndexMap<Peer, u64>,
    // Ascending by number.
    spots: Vec<Spot>,
    filing: Filing,
}

impl Model for Selectors {
    ghost use Rattle.std.specs.Prelude.{List};
    ghost use Rattle.pol_selectors.specs.Live.{Live};

    ghost Value = { List Live };

    ghost use Rattle.pol_selectors.specs.Inside.{live_in};
    ghost use Rattle.pol_selectors.specs.Filed.{IsTable};

    ghost view = { λ selectors. live_in selectors.spots.items };

    ghost invariant = { λ selectors. IsTable selectors.known.entries selectors.spots.items selectors.filing };
}

impl Selectors {
    /// No selector. It takes no memory.
    pub fn new(alloc: Global) -> Selectors
        ensures { result ≡ [] }
    {
        Selectors {
            known: IndexMap::new(alloc),
            spots: Vec::new(alloc),
            filing: Filing::new(alloc),
        }
    }

    /// The number of the selector of an equal peer. It takes no memory.
    pub fn number_of(&self, peer: &Peer) -> Option<u64>
        ensures number { result ≡ number_of peer.now self.now }
        ensures sound { AreLive self.now }
    {
        match self.known.get(peer) {
            None => None,
            Some(number) => Some(*number),
        }
    }

    /// Whether the selector of a number is live, looked for at a place first, and the place behind it: where the next one
    /// may be looked for. It takes no memory.
    pub fn holds_near(&self, number: u64, near: usize) -> (bool, usize)
        ensures holds { result.0 ≡ is_live number self.now }
        ensures sound { AreLive self.now }
    {
        holds_near(self.spots.as_slice(), number, near)
    }

    /// A live selector, looked for at a place first, and the place behind it: where the next one may be looked for.
    pub fn row_near(&self, number: u64, near: usize) -> (&Row, usize)
        requires live { is_live number self.now ≡ true }
        ensures row { selector_of number self.now ≡ Some (live_of number result.0.now) }
        ensures sound { AreLive self.now }
    {
        let spots = self.spots.as_slice();
        let place = place_near(spots, number, near);
        (row_at(spots, place, number), place.wrapping_add(1))
    }

    /// One reference more to a live selector. `Memory` comes where its count is at its end, and the count stays.
    pub fn refer(&mut self, number: u64) -> Result<(), Memory>
        requires live { is_live number self.old ≡ true }
        ensures referred { OnOk result (self.new ≡ with_reference number self.old) }
        ensures err { OnErr result (self.new ≡ self.old) }
        ensures sound { AreLive self.new }
    {
        let place = place_near(self.spots.as_slice(), number, usize::MAX);
        let references = row_at(self.spots.as_slice(), place, number).references;
        match references.checked_add(1) {
            None => Err(AllocError),
            Some(more) => {
                put_references(&mut self.spots, place, number, more);
                Ok(())
            }
        }
    }

    /// One reference less to a live selector, which goes with its last one. It takes no memory.
    pub fn unrefer(&mut self, number: u64)
        requires live { is_live number self.old ≡ true }
        ensures dropped { self.new ≡ without_reference number self.old }
        ensures sound { AreLive self.new }
    {
        let place = place_near(self.spots.as_slice(), number, usize::MAX);
        let references = row_at(self.spots.as_slice(), place, number).references;
        if references == 1 {
            take_out(
                &mut self.known,
                &mut self.spots,
                &mut self.filing,
                place,
                number,
            );
        } else {
            put_references(&mut self.spots, place, number, references - 1);
        }
    }

    /// Another set for a live selector, looked for at a place first, and the place behind it. It takes no memory.
    pub fn put_set(&mut self, number: u64, set: Arc<IdSet>, near: usize) -> usize
        requires live { is_live number self.old ≡ true }
        ensures put { self.new ≡ with_set number (arc_value set) self.old }
        ensures sound { AreLive self.new }
    {
        let place = place_near(self.spots.as_slice(), number, near);
        put_set(&mut self.spots, place, number, set);
        place.wrapping_add(1)
    }

    /// The numbers of the selectors that stand under some of the headings, in whatever order. The one error is want of
    /// memory.
    pub fn filed_under(&self, alloc: Global, headings: &Headings) -> Result<Vec<u64>, Memory>
        ensures { IfOk result (λ numbers. (n : ℕ) → has n numbers.items ≡ stands_in headings.now n self.now) }
    {
        self.filing.filed_under(alloc, headings)
    }

    /// A new selector with one reference, whose number is above those of the others and whose peer none of them has. The
    /// one error is want of memory.
    pub fn push(
        &mut self,
        alloc: Global,
        peer: &Peer,
        number: u64,
        set: Arc<IdSet>,
    ) -> Result<(), Memory>
        requires new { number_of peer.now self.old ≡ None }
        requires above { AllByRecursion (λ s. s.number < number) self.old }
        ensures pushed { OnOk result (self.new
            ≡ self.old ++ record { number = number; peer = peer.now; references = 1; set = arc_value set } ∷ []) }
        ensures err { OnErr result (self.new ≡ self.old) }
        ensures sound { AreLive self.new }
    {
        let _ = &self.known;
        let row = new_row(alloc, peer, set)?;
        add_row(
            &mut self.known,
            &mut self.spots,
            &mut self.filing,
            alloc,
            number,
            row,
        )?;
        Ok(())
    }
}
