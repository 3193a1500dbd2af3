//! What one thread has seen of a queue of hints.
ghost use Rattle.std.specs.Prelude.{◌≤◌, length};
ghost use Rattle.pol_hints.specs.History.{IsHistory, waiting};
ghost use Rattle.pol_hints.specs.Shares.{IsPart};

use crate::rule::Seat;
use std::marker::Model;

/// What one thread has seen of a queue of hints, how many of its turns are its own, and its share in it. It takes no
/// memory, and it is a pass of one queue alone.
#[derive(Drop)]
pub struct HintPass {
    pub(crate) pass: Seat,
}

impl Model for HintPass {
    ghost use Rattle.crossbeam_queue.specs.Passes.{view as known_by};
    ghost use Rattle.pol_hints.specs.Passes.{Pass};

    ghost Value = { Pass };

    ghost use Rattle.pol_hints.specs.Inside.{IsAtRest, pass_of};

    ghost view = { λ p. pass_of p.pass.table_id (known_by p.pass) };

    ghost invariant = { λ p. IsAtRest p.pass.me.1 (known_by p.pass) };
}
