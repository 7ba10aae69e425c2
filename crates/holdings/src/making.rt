//! Rows of blocks from lists of numbers, and back.

ghost use Rattle.std.specs.Prelude.{◌≡◌, ◌≤◌, ◌<◌, ◌+◌, ◌-◌, ◌*◌, ℕ, IfOk, IfSome, Some};
ghost use Rattle.std.specs.Prelude.{get_or, length, map, option_map, pos, slice_get, unwrap_or};
ghost use Rattle.std.specs.List.{All};
ghost use Rattle.blocks.specs.Held.{Owned, as_owned, number_of, numbers};
ghost use Rattle.holdings.specs.Lists.{listed};
ghost use Rattle.holdings.specs.Rows.{OwnsList, held_in, in_row};

use crate::row::BlockRow;
use crate::rows::BlockRows;
use blocks::block::Block;
use blocks::numbers::PLACES;
use std::alloc::{AllocError, Global};

impl BlockRows {
    /// Returns rows that own all numbers of the lists.
    pub fn of_lists(alloc: Global, lists: &[Vec<i64>]) -> Result<BlockRows, AllocError>
        requires { All (λ v. length v.items ≤ 4194304) lists.now }
        ensures { IfOk result (λ r. held_in r
            ≡ as_owned (listed (map (λ v. v.items) lists.now))) }
    {
        let mut list = Vec::new(alloc);
        for numbers in lists {
            list.push(BlockRow::of_numbers(alloc, numbers)?)?;
        }
        Ok(BlockRows { alloc, list })
    }

    /// Copies the numbers of an array to their places in a list of its first numbers.
    pub fn copy_to(&self, array: usize, row: &mut [i64])
        ensures { (k : ℕ) → k < length row.old → get_or row.new k (pos 0) ≡ unwrap_or
            (numbers (held_in self.now) (record { array = array; index = k }))
            (get_or row.old k (pos 0)) }
    {
        if let Some(blocks) = self.list.get(array) {
            blocks.copy_to(row);
        }
    }
}

impl BlockRow {
    /// Returns a row that owns all numbers of a list.
    fn of_numbers(alloc: Global, numbers: &[i64]) -> Result<BlockRow, AllocError>
        requires { length numbers.now ≤ 4194304 }
        ensures { IfOk result (λ r. (k : ℕ) → in_row r k
            ≡ option_map Owned (slice_get numbers.now k)) }
    {
        let count = numbers.len().div_ceil(PLACES);
        let mut blocks = Vec::with_capacity(alloc, count)?;
        for at in 0..count {
            let from = at * PLACES;
            let to = numbers.len().min(from + PLACES);
            let before = &numbers[from.saturating_sub(PLACES)..from];
            let block = next_block(alloc, &blocks, before, &numbers[from..to])?;
            blocks.push(block)?;
        }
        Ok(BlockRow { first: 0, blocks })
    }

    /// Copies the numbers to their places in a list of the first numbers of the array.
    fn copy_to(&self, row: &mut [i64])
        ensures { (k : ℕ) → k < length row.old → get_or row.new k (pos 0)
            ≡ unwrap_or (option_map number_of (in_row self.now k)) (get_or row.old k (pos 0)) }
    {
        for (at, block) in self.blocks.iter().enumerate() {
            let from = (self.first + at) * PLACES;
            let to = row.len().min(from + PLACES);
            if from < to {
                block.copy_to(&mut row[from..to]);
            }
        }
    }
}

/// Returns the block after the others, which owns the numbers. If the last of the others owns the
/// same numbers, the two share the memory until one of them is written.
fn next_block(
    alloc: Global,
    blocks: &[Block],
    before: &[i64],
    numbers: &[i64],
) -> Result<Block, AllocError>
    requires few { length numbers.now ≤ 256 }
    requires last { IfSome (slice_get blocks.now (length blocks.now - 1))
        (λ b. OwnsList b before.now) }
    ensures { IfOk result (λ b. OwnsList b numbers.now) }
{
    if let Some(last) = blocks.last()
        && before == numbers
    {
        return last.again(alloc);
    }
    Block::of_numbers(alloc, numbers)
}
