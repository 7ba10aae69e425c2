//! Blocks of one array.

ghost use Rattle.std.specs.Prelude.{◌≤◌, ◌+◌, length};

use blocks::block::Block;
use blocks::numbers::PLACES;
use std::alloc::{AllocError, Global};
use std::mem;

/// The blocks of an array, in order, from the block with the number `first` on.
#[derive(Drop)]
pub struct BlockRow {
    pub(crate) first: usize,
    pub(crate) blocks: Vec<Block>,
    ghost within: { first + length blocks.items ≤ 16384 },
}

impl BlockRow {
    ghost use Rattle.std.specs.Prelude.{◌≡◌, ◌<◌, ◌≤◌, ◌*◌, ◌/◌, ◌%◌};
    ghost use Rattle.std.specs.Prelude.{◌&&◌, ◌⊎◌, ℕ, IfNone, IfOk, IfSome};
    ghost use Rattle.std.specs.Prelude.{IsSome, IsTrue, OnErr, OnOk, Some};
    ghost use Rattle.std.specs.Prelude.{None, option_map, pos, unwrap_or};
    ghost use Rattle.std.specs.Prelude.{false, slice_get, is_some, nat_eq};
    ghost use Rattle.std.specs.Prelude.{option_copied, if◌then◌else◌, ◌↔◌};
    ghost use Rattle.std.specs.Bool.{OnFalse, OnTrue};
    ghost use Rattle.blocks.specs.Held.{Owned, in_place_of, number_of, owned_number};
    ghost use Rattle.holdings.specs.Rows.{block_in, held_of, IsAsBefore};

    /// Returns a row without blocks.
    pub fn new(alloc: Global) -> BlockRow
        ensures { (b : ℕ) → block_in result b ≡ None }
    {
        BlockRow {
            first: 0,
            blocks: Vec::new(alloc),
        }
    }

    /// Returns whether there is a block with a number, with a single test: for a number before the
    /// first, the difference wraps to a value far past the end.
    #[inline(always)]
    fn reaches(&self, number: usize) -> bool
        ensures { IsTrue result ↔ (self.now.first ≤ number
            × number < self.now.first + length self.now.blocks.items) }
    {
        number.wrapping_sub(self.first) < self.blocks.len()
    }

    /// Returns the block with a number.
    #[inline(always)]
    pub fn block(&self, number: usize) -> Option<&Block>
        ensures { option_copied result ≡ block_in self.now number }
    {
        if !self.reaches(number) {
            return None;
        }
        self.blocks.get(number - self.first)
    }

    /// Returns how far the first of some neighbouring places of the array is from the first place of
    /// the row, if the row has blocks for all of them.
    pub fn distance(&self, from: usize, len: usize) -> Option<usize>
        requires { from + len ≤ 4194304 }
        ensures found { IfSome result (λ at. (256 * self.now.first + at ≡ from)
            × (at + len ≤ 256 * length self.now.blocks.items)) }
        ensures none { IfNone result ((from < 256 * self.now.first)
            ⊎ (256 * (self.now.first + length self.now.blocks.items) < from + len)) }
    {
        let before = self.first * PLACES;
        if from < before || from + len > before + self.blocks.len() * PLACES {
            return None;
        }
        Some(from - before)
    }

    /// Returns the number at this distance from the first place of the row, or 0 if nothing is held
    /// there.
    #[inline(always)]
    pub fn number_at(&self, at: usize) -> i64
        requires { at < 256 * length self.now.blocks.items }
        ensures { result ≡ unwrap_or (option_map number_of
            (held_of (block_in self.now (self.now.first + at / 256)) (at % 256))) (pos 0) }
    {
        let block = &self.blocks[at / PLACES];
        block.number(at % PLACES).unwrap_or(0)
    }

    /// Writes the number at this distance from the first place of the row if it is owned and that
    /// needs no memory, and returns whether it did.
    #[inline(always)]
    pub fn set_at(&mut self, at: usize, value: i64) -> bool
        requires { at < 256 * length self.old.blocks.items }
        ensures written { OnTrue result ((b k : ℕ)
            → held_of (block_in self.new b) k
            ≡ (if nat_eq b (self.old.first + at / 256) && nat_eq (at % 256) k
            then Some (Owned value) else held_of (block_in self.old b) k)) }
        ensures owned { OnTrue result (IsSome (owned_number
            (held_of (block_in self.old (self.old.first + at / 256)) (at % 256)))) }
        ensures same { OnFalse result ((b k : ℕ)
            → held_of (block_in self.new b) k ≡ held_of (block_in self.old b) k) }
        ensures first { self.new.first ≡ self.old.first }
        ensures length { length self.new.blocks.items ≡ length self.old.blocks.items }
    {
        let block = &mut self.blocks[at / PLACES];
        block.set(at % PLACES, value)
    }

    /// Replaces the block with a number, and returns the old one.
    pub fn swap(&mut self, number: usize, block: Block) -> Block
        requires { IsSome (block_in self.old number) }
        ensures old { block_in self.old number ≡ Some result }
        ensures new { (b : ℕ) → block_in self.new b
            ≡ (if nat_eq b number then Some block else block_in self.old b) }
    {
        let place = &mut self.blocks[number - self.first];
        mem::replace(place, block)
    }

    /// Ensures that there is a block with a number.
    pub fn make_room(&mut self, alloc: Global, number: usize) -> Result<(), AllocError>
        requires { number < 16384 }
        ensures room { OnOk result (IsSome (block_in self.new number)) }
        ensures before { (b : ℕ) → IsAsBefore (block_in self.old b) (block_in self.new b) }
    {
        if self.blocks.is_empty() {
            self.first = number;
            self.blocks.push(Block::Empty)?;
            return Ok(());
        }
        if number < self.first {
            return self.widen(alloc, number);
        }
        'room: while self.first + self.blocks.len() <= number {
            self.blocks.push(Block::Empty)?;
        }
        Ok(())
    }

    /// Adds empty blocks before the first one, from the block with a number on.
    fn widen(&mut self, alloc: Global, number: usize) -> Result<(), AllocError>
        requires low { number < self.old.first }
        requires some { 0 < length self.old.blocks.items }
        ensures room { OnOk result (IsSome (block_in self.new number)) }
        ensures before { (b : ℕ) → IsAsBefore (block_in self.old b) (block_in self.new b) }
    {
        let mut blocks = BlockRow::empty(alloc, self.first - number)?;
        blocks.append(&mut self.blocks)?;
        *self = BlockRow {
            first: number,
            blocks,
        };
        Ok(())
    }

    /// Writes the number at an owned offset of a block, and returns whether the offset is owned.
    pub fn write(
        &mut self,
        alloc: Global,
        number: usize,
        offset: usize,
        value: i64,
    ) -> Result<bool, AllocError>
        ensures found { IfOk result (λ f.
            f ≡ is_some (owned_number (held_of (block_in self.old number) offset))) }
        ensures written { IfOk result (λ f. IsTrue f → (b k : ℕ)
            → held_of (block_in self.new b) k ≡ (if nat_eq b number && nat_eq offset k
            then Some (Owned value) else held_of (block_in self.old b) k)) }
        ensures missed { IfOk result (λ f. (f ≡ false) → (b k : ℕ)
            → held_of (block_in self.new b) k ≡ held_of (block_in self.old b) k) }
        ensures same { OnErr result ((b k : ℕ)
            → held_of (block_in self.new b) k ≡ held_of (block_in self.old b) k) }
        ensures owned { OnErr result
            (owned_number (held_of (block_in self.old number) offset) ≡ None → ⊥) }
    {
        if number < self.first || number - self.first >= self.blocks.len() {
            return Ok(false);
        }
        let block = &mut self.blocks[number - self.first];
        block.write(alloc, offset, value)
    }

    /// Writes the number at an owned offset of a block if that needs no memory, and returns whether
    /// it did.
    #[inline(always)]
    pub fn set(&mut self, number: usize, offset: usize, value: i64) -> bool
        ensures written { OnTrue result ((b k : ℕ)
            → held_of (block_in self.new b) k ≡ (if nat_eq b number && nat_eq offset k
            then Some (Owned value) else held_of (block_in self.old b) k)) }
        ensures owned { OnTrue result
            (IsSome (owned_number (held_of (block_in self.old number) offset))) }
        ensures same { OnFalse result ((b k : ℕ)
            → held_of (block_in self.new b) k ≡ held_of (block_in self.old b) k) }
    {
        if !self.reaches(number) {
            return false;
        }
        let block = &mut self.blocks[number - self.first];
        block.set(offset, value)
    }

    /// Writes the number at any offset of a block. An owned number stays owned, and at any other
    /// offset the number is a copy.
    pub fn put(
        &mut self,
        alloc: Global,
        number: usize,
        offset: usize,
        value: i64,
    ) -> Result<(), AllocError>
        requires offset { offset < 256 }
        requires there { IsSome (block_in self.old number) }
        ensures written { OnOk result ((b k : ℕ)
            → held_of (block_in self.new b) k ≡ (if nat_eq b number && nat_eq offset k
            then Some (in_place_of (held_of (block_in self.old number) offset) value)
            else held_of (block_in self.old b) k)) }
        ensures same { OnErr result ((b k : ℕ)
            → held_of (block_in self.new b) k ≡ held_of (block_in self.old b) k) }
    {
        let block = &mut self.blocks[number - self.first];
        block.put(alloc, offset, value)
    }

    /// Returns blocks that hold nothing.
    fn empty(alloc: Global, count: usize) -> Result<Vec<Block>, AllocError>
        ensures long { IfOk result (λ v. length v.items ≡ count) }
        ensures empty { IfOk result (λ v. (i k : ℕ) → held_of (slice_get v.items i) k ≡ None) }
    {
        let mut blocks = Vec::new(alloc);
        'fill: while blocks.len() < count {
            blocks.push(Block::Empty)?;
        }
        Ok(blocks)
    }
}
