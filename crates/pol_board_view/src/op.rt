//! An operation on a face.
ghost use Rattle.std.specs.Prelude.{◌≡◌};
ghost use Rattle.pol_board_view.specs.Changes.{IsChangeOf};

use crate::change::FaceChange;
use pol_history_log::{NodeName, Seen};
use std::marker::Model;

/// What one event changes, with the token of the history that ends with it. Contracts see it as that history.
#[derive(Drop)]
pub struct FaceOp<N: NodeName> {
    pub(crate) change: FaceChange,
    pub(crate) seen: Seen<N>,
}

impl<N: NodeName> Model for FaceOp<N> {
    ghost use Rattle.std.specs.Prelude.{List};
    ghost use Rattle.pol_history.specs.declared.event.HistoryEvent.{HistoryEvent as OneEvent};
    ghost use Rattle.pol_board_view.specs.Changes.{IsChangeOf};

    ghost Value = { List OneEvent };

    ghost view = { λ o. o.seen };

    ghost invariant = { λ o. IsChangeOf N.options o.change o.seen };
}

impl<N: NodeName> FaceOp<N> {
    /// The operation of the last event of a history. It takes no memory.
    pub fn new(change: FaceChange, seen: &Seen<N>) -> FaceOp<N>
        requires change { IsChangeOf N.options change seen.now }
        ensures { result ≡ seen.now }
    {
        FaceOp {
            change,
            seen: seen.again(),
        }
    }
}
