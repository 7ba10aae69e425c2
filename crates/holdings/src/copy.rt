//! Copies of rows.

ghost use Rattle.std.specs.Prelude.{◌≡◌, IfOk};
ghost use Rattle.holdings.specs.Rows.{held_in};

use crate::row::BlockRow;
use crate::rows::BlockRows;
use std::alloc::{AllocError, Global};

impl BlockRows {
    /// Returns second rows that hold the same numbers in the same kinds.
    pub fn again(&self, alloc: Global) -> Result<BlockRows, AllocError>
        ensures { IfOk result (λ r. held_in r ≡ held_in self.now) }
    {
        let mut list = Vec::new(alloc);
        for row in &self.list {
            list.push(row.again(alloc)?)?;
        }
        Ok(BlockRows { alloc, list })
    }
}

impl BlockRow {
    ghost use Rattle.std.specs.Prelude.{ℕ};
    ghost use Rattle.holdings.specs.Rows.{block_in, held_of};

    /// Returns a second row that holds the same numbers in the same kinds.
    fn again(&self, alloc: Global) -> Result<BlockRow, AllocError>
        ensures { IfOk result (λ r. (b k : ℕ)
            → held_of (block_in r b) k ≡ held_of (block_in self.now b) k) }
    {
        let mut blocks = Vec::new(alloc);
        for block in &self.blocks {
            blocks.push(block.again(alloc)?)?;
        }
        Ok(BlockRow {
            first: self.first,
            blocks,
        })
    }
}
