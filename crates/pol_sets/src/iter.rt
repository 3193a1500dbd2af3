//! The numbers of a set, one after another.
ghost use Rattle.std.specs.Prelude.{◌≡◌, ◌∷◌};
ghost use Rattle.std.specs.Iterator.{YieldsFirst, item_count};

use crate::block::Block;
use std::marker::Model;

/// The numbers of a set that are left, ascending. A contract sees it as the list of them.
#[derive(Drop)]
pub struct SetIter<'a> {
    pub(crate) part: &'a [u32],
    pub(crate) later: &'a [Block],
}

impl<'a> Model for SetIter<'a> {
    ghost use Rattle.std.specs.Prelude.{ℕ, ◌++◌, List};
    ghost use Rattle.pol_sets.specs.Blocks.{numbers_in};

    ghost Value = { List ℕ };

    ghost view = { λ left. left.part.now ++ numbers_in left.later.now };
}

impl<'a> Iterator for SetIter<'a> {
    type Item = u32;

    ghost next_gives = { YieldsFirst (λ left. left) };

    ghost remaining = { item_count (λ left. left) };

    fn next(&mut self) -> Option<u32> {
        if let Some((first, others)) = self.part.split_first() {
            self.part = others;
            return Some(*first);
        }
        let (block, later) = self.later.split_first()?;
        let (first, others) = block.as_slice().split_first()?;
        self.part = others;
        self.later = later;
        Some(*first)
    }
}
