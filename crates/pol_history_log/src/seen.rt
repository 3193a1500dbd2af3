//! What was seen of the history.
ghost use Rattle.std.specs.Prelude.{◌≡◌, ◌<◌, ◌^◌, ◌++◌, ◌∷◌, ◌⊎◌, [], None, length, IfSome, MatchBool};
ghost use mathlib.Core.List.{IsPrefix};
ghost use Rattle.pol_history.specs.declared.event.HistoryEvent.TheVariants as event;
ghost use Rattle.pol_history.specs.Legal.{IsLegal};
ghost use Rattle.pol_history.specs.MayFollow.{BlockedMayFollow, CommitMayFollow, MayFollow, PublishMayFollow};
ghost use Rattle.pol_history_log.specs.Asked.{id_of};

use crate::book::{Add, Book, Law, Nothing};
use crate::name::NodeName;
use crate::next_map::NextMap;
use logbook::{Offer, Plain, Seen as Reached};
use pol_data::Text;
use pol_history::HistoryEvent;
use pol_model::Request;
use std::marker::{Model, PhantomData};

/// A beginning of the history that was seen. Contracts see it as its events; it keeps their number alone.
#[derive(Drop)]
pub struct Seen<N: NodeName> {
    pub(crate) events: u64,
    pub(crate) reached: Reached<HistoryEvent, u64, Law>,
    pub(crate) of: PhantomData<N>,
}

impl<N: NodeName> Model for Seen<N> {
    ghost use Rattle.std.specs.Prelude.{◌≡◌, List, length};
    ghost use Rattle.pol_history.specs.declared.event.HistoryEvent.{HistoryEvent as OneEvent};
    ghost use Rattle.pol_history.specs.Legal.{IsLegal};

    ghost Value = { List OneEvent };

    ghost view = { λ s. s.reached.log };

    ghost invariant = { λ s.
        (s.events ≡ length s.reached.log) × (s.reached.book ≡ N.book) × IsLegal N.options s.reached.log };
}

/// A commit that is added.
#[derive(Drop)]
struct Committing<'a> {
    pass: u64,
    number: u64,
    request: &'a Request,
}

impl<'a> Plain<Committing<'a>, HistoryEvent, u64> for Add {
    ghost use Rattle.std.specs.Prelude.{None};
    ghost use Rattle.pol_history.specs.declared.event.HistoryEvent.TheVariants as event;

    ghost ask = { λ asked. event.Commit asked.pass asked.number asked.request.now };

    ghost state = { λ asked. None };
}

/// A published map that is added.
#[derive(Drop)]
struct Publishing<'a> {
    name: &'a Text,
    added: u64,
    revision: u64,
    map: &'a NextMap<'a>,
}

impl<'a> Plain<Publishing<'a>, HistoryEvent, u64> for Add {
    ghost use Rattle.std.specs.Prelude.{None};
    ghost use Rattle.pol_history.specs.declared.event.HistoryEvent.TheVariants as event;
    ghost use Rattle.pol_history_log.specs.Asked.{id_of};

    ghost ask = { λ asked. event.Publish (id_of asked.name.now asked.added) asked.revision asked.map.now };

    ghost state = { λ asked. None };
}

/// A map that is too large, which is added.
#[derive(Drop)]
struct Blocking<'a> {
    name: &'a Text,
    added: u64,
    revision: u64,
    count: u64,
}

impl<'a> Plain<Blocking<'a>, HistoryEvent, u64> for Add {
    ghost use Rattle.std.specs.Prelude.{None};
    ghost use Rattle.pol_history.specs.declared.event.HistoryEvent.TheVariants as event;
    ghost use Rattle.pol_history_log.specs.Asked.{id_of};

    ghost ask = { λ asked. event.Blocked (id_of asked.name.now asked.added) asked.revision asked.count };

    ghost state = { λ asked. None };
}

impl<N: NodeName> Seen<N> {
    /// How many events it has.
    pub fn len(&self) -> u64
        ensures length { result ≡ length self.now }
        ensures legal { IsLegal N.options self.now }
    {
        self.events
    }

    /// A copy. It takes no memory.
    pub fn again(&self) -> Seen<N>
        ensures same { result ≡ self.now }
        ensures legal { IsLegal N.options result }
    {
        Seen {
            events: self.events,
            reached: self.reached.again(),
            of: PhantomData,
        }
    }

    /// The longer of two, which the other begins.
    pub fn longer(&self, other: &Seen<N>) -> Seen<N>
        ensures one { (result ≡ self.now) ⊎ (result ≡ other.now) }
        ensures this { IsPrefix self.now result }
        ensures that { IsPrefix other.now result }
        ensures legal { IsLegal N.options result }
    {
        let mut both = self.reached.again();
        both.learn(&other.reached);
        if self.events < other.events {
            other.again()
        } else {
            self.again()
        }
    }

    /// Whether the other begins with this one. If not, it is shorter.
    pub fn begins(&self, other: &Seen<N>) -> bool
        ensures { MatchBool result (IsPrefix self.now other.now) (length other.now < length self.now) }
    {
        let mut both = self.reached.again();
        both.learn(&other.reached);
        if self.events <= other.events {
            true
        } else {
            false
        }
    }

    /// Adds an event to all that was seen. No clause says when there is none; the body
    /// answers so where the history is longer already.
    fn add<X>(&self, book: &Book<N>, asked: &X) -> Option<Seen<N>>
    where
        Add: Plain<X, HistoryEvent, u64>,
        requires room { length self.now < 2 ^ 62 }
        requires fresh { ⟦<Add as Plain<X, HistoryEvent, u64>>⟧.state asked.now ≡ None }
        requires may { MayFollow N.options self.now (⟦<Add as Plain<X, HistoryEvent, u64>>⟧.ask asked.now) }
        ensures { IfSome result (λ longer.
            longer ≡ self.now ++ ⟦<Add as Plain<X, HistoryEvent, u64>>⟧.ask asked.now ∷ []) }
    {
        let mut reached = self.reached.again();
        let mut offer: Offer<HistoryEvent, u64, Law, Nothing> = reached.plain::<Nothing, X, Add>(
            asked,
        );
        let mut pen = reached.no_pen();
        let events = self.events;
        let found = book
            .head
            .compare_exchange::<Add, Nothing>(
                events,
                events + 1,
                &mut reached,
                &mut offer,
                &mut pen,
            );
        if found == events {
            Some(Seen {
                events: events + 1,
                reached,
                of: PhantomData,
            })
        } else {
            None
        }
    }

    /// Adds the pass's next commit.
    pub fn commit(
        &self,
        book: &Book<N>,
        pass: u64,
        number: u64,
        request: &Request,
    ) -> Option<Seen<N>>
        requires room { length self.now < 2 ^ 62 }
        requires may { CommitMayFollow N.options self.now pass number request.now }
        ensures { IfSome result (λ longer. longer ≡ self.now ++ event.Commit pass number request.now ∷ []) }
    {
        self.add(
            book,
            &Committing {
                pass,
                number,
                request,
            },
        )
    }

    /// Adds that this map was published, which is the endpoint's canonical map at the revision.
    pub fn publish(
        &self,
        book: &Book<N>,
        name: &Text,
        added: u64,
        revision: u64,
        map: &NextMap<'_>,
    ) -> Option<Seen<N>>
        requires room { length self.now < 2 ^ 62 }
        requires may { PublishMayFollow N.options self.now (id_of name.now added) revision map.now }
        ensures { IfSome result (λ longer.
            longer ≡ self.now ++ event.Publish (id_of name.now added) revision map.now ∷ []) }
    {
        self.add(
            book,
            &Publishing {
                name,
                added,
                revision,
                map,
            },
        )
    }

    /// Adds that the endpoint's map at the revision is too large, with so many entries.
    pub fn block(
        &self,
        book: &Book<N>,
        name: &Text,
        added: u64,
        revision: u64,
        count: u64,
    ) -> Option<Seen<N>>
        requires room { length self.now < 2 ^ 62 }
        requires may { BlockedMayFollow N.options self.now (id_of name.now added) revision count }
        ensures { IfSome result (λ longer.
            longer ≡ self.now ++ event.Blocked (id_of name.now added) revision count ∷ []) }
    {
        self.add(
            book,
            &Blocking {
                name,
                added,
                revision,
                count,
            },
        )
    }
}
