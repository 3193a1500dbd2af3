//! The blocks of large sets, which sets share.
ghost use Rattle.std.specs.Prelude.{◌≡◌, ◌<◌, ◌++◌, ◌∷◌, IfOk, length, vec_len};

use pol_data::{Items, Memory, TryCopy};
use std::alloc::Global;
use std::marker::Model;
use std::sync::Arc;

/// How many numbers a block has at the most, and a set that has no blocks.
pub(crate) const MOST: usize = 1024;

/// Numbers of a set, one at least. A contract sees it as the list of them.
#[derive(Debug, Drop)]
pub(crate) struct Block {
    numbers: Arc<Items<u32>>,
}

impl Model for Block {
    ghost use Rattle.std.specs.Prelude.{ℕ, ◌<◌, List, length};
    ghost use Rattle.std.specs.Arc.{arc_value};

    ghost Value = { List ℕ };

    ghost view = { λ block. arc_value block.numbers };

    ghost invariant = { λ block. 0 < length (arc_value block.numbers) };
}

impl Block {
    /// The block of these numbers.
    pub(crate) fn of(alloc: Global, numbers: Vec<u32>) -> Result<Block, Memory>
        requires some { 0 < vec_len numbers }
        ensures same { IfOk result (λ block. block ≡ numbers.items) }
    {
        let numbers = Arc::new(alloc, Items::from_vec(numbers))?;
        Ok(Block { numbers })
    }

    /// The same block once more, which takes no memory.
    pub(crate) fn share(&self) -> Result<Block, Memory>
        ensures same { IfOk result (λ block. block ≡ self.now) }
    {
        let numbers = Arc::try_clone(&self.numbers)?;
        Ok(Block { numbers })
    }

    /// The numbers.
    pub(crate) fn as_slice(&self) -> &[u32]
        ensures numbers { result.now ≡ self.now }
        ensures some { 0 < length self.now }
    {
        self.numbers.as_slice()
    }

    /// The numbers of both blocks, as one.
    pub(crate) fn joined(&self, alloc: Global, next: &Block) -> Result<Block, Memory>
        ensures both { IfOk result (λ block. block ≡ self.now ++ next.now) }
    {
        let (own, others) = (self.as_slice(), next.as_slice());
        let mut both = Vec::with_capacity(alloc, own.len().saturating_add(others.len()))?;
        both.extend_from_slice(own)?;
        both.extend_from_slice(others)?;
        let block = Block::of(alloc, both)?;
        Ok(block)
    }
}

impl TryCopy for Block {
    fn try_copy(&self, _alloc: Global) -> Result<Block, Memory> {
        self.share()
    }
}
