//! The word that all threads share, and its rule.
ghost use Rattle.std.specs.Prelude.{◌≡◌, []};
ghost use Rattle.pol_history_log.specs.Rules.{word_of};

use crate::name::NodeName;
use crate::seen::Seen;
use logbook::{Gain, Play, Rule, Seen as Reached, Start, Word};
use pol_history::HistoryEvent;
use std::marker::{Model, PhantomData};

/// The rule of the book: its word is the number of events.
pub(crate) struct Law;

impl Rule<HistoryEvent, u64> for Law {
    ghost use Rattle.std.specs.Prelude.{[]};
    ghost use base.Fml.{ftrue};
    ghost use Rattle.pol_history_log.specs.Rules.{IsCounted};

    ghost holds = { λ cells log. IsCounted cells log };

    ghost first = { [] };

    ghost hinted = { λ n log. Unit {0} };

    ghost shows = { λ log. [] };

    ghost keeps = { λ names log. ftrue };

    ghost moves = { λ ask before after answer. Unit {0} };
}

/// Callers trade nothing.
pub(crate) struct Nothing;

impl Gain<HistoryEvent, u64> for Nothing {
    ghost use base.Fml.{ftrue};

    ghost after = { λ names about answer. ftrue };
}

/// The step that adds an event.
pub(crate) struct Add;

impl Play<HistoryEvent, u64> for Add {
    ghost use Rattle.pol_history_log.specs.Rules.{Adds};

    ghost then = { Adds };
}

/// A new book with an empty history, before it has a name. Contracts see it as the book that a name is to tell.
pub struct NewBook {
    head: Word<HistoryEvent, u64, Law>,
    reached: Reached<HistoryEvent, u64, Law>,
}

impl Model for NewBook {
    ghost use Rattle.std.specs.Prelude.{◌≡◌, []};
    ghost use Rattle.logbook.specs.Pages.{Book as LogBook};
    ghost use Rattle.pol_history_log.specs.Rules.{word_of};

    ghost Value = { LogBook };

    ghost view = { λ b. b.reached.book };

    ghost invariant = { λ b. (b.reached.log ≡ []) × (b.head ≡ word_of b.reached.book) };
}

impl NewBook {
    /// A book without events. It takes no memory.
    pub fn new() -> NewBook {
        let (reached, mut first, _second) = Reached::open(Start::alone(), 0, 0);
        NewBook {
            head: Word::tracked(0, &mut first),
            reached,
        }
    }

    /// The book under the name of its node, and the token that has seen no event.
    pub fn named<N: NodeName>(self) -> (Book<N>, Seen<N>)
        requires book { self ≡ N.book }
        ensures { result.1 ≡ [] }
    {
        let NewBook { head, reached } = self;
        (
            Book {
                head,
                of: PhantomData,
            },
            Seen {
                events: 0,
                reached,
                of: PhantomData,
            },
        )
    }
}

/// The word that all threads share: how many events the history has.
#[derive(Drop)]
pub struct Book<N: NodeName> {
    pub(crate) head: Word<HistoryEvent, u64, Law>,
    of: PhantomData<N>,
    ghost is_head: { head ≡ word_of N.book },
}
