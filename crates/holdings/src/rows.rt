//! Blocks of all arrays.

use crate::row::BlockRow;
use blocks::block::Block;
use blocks::numbers::PLACES;
use sections::window::{Place, Window};
use std::alloc::{AllocError, Global};

/// A row of blocks for each array. A place is found by its array and its block.
#[derive(Drop)]
pub struct BlockRows {
    pub(crate) alloc: Global,
    pub(crate) list: Vec<BlockRow>,
}

impl BlockRows {
    ghost use Rattle.std.specs.Prelude.{◌≡◌, ◌<◌, ℕ, IfNone, IfOk, IfSome};
    ghost use Rattle.std.specs.Prelude.{IsSome, IsTrue, OnErr, OnOk, Some, None};
    ghost use Rattle.std.specs.Prelude.{false, is_some, option_copied};
    ghost use Rattle.std.specs.Bool.{OnFalse, OnTrue};
    ghost use Rattle.sections.specs.Place.{Place as PlainPlace};
    ghost use Rattle.sections.specs.Translation.{place as place_of, window as window_of};
    ghost use Rattle.types.specs.Contents.{read as read_of};
    ghost use Rattle.holdings.specs.Reach.{LieAsBefore, LiesFrom, LiesNowhere, ReachesTo, place_at};
    ghost use Rattle.blocks.specs.Held.{Owned, in_place_of, numbers, owned, put};
    ghost use Rattle.holdings.specs.Rows.{Replaces, Widens, block_of, held_in};

    /// Returns rows without blocks.
    pub fn new(alloc: Global) -> BlockRows
        ensures none { (i j : ℕ) → block_of result.list.items i j ≡ None }
        ensures holds { (q : PlainPlace) → held_in result q ≡ None }
    {
        BlockRows {
            alloc,
            list: Vec::new(alloc),
        }
    }

    /// Returns the block of an array with a number.
    #[inline(always)]
    pub fn block(&self, array: usize, number: usize) -> Option<&Block>
        ensures { option_copied result ≡ block_of self.now.list.items array number }
    {
        match self.list.get(array) {
            None => None,
            Some(row) => row.block(number),
        }
    }

    /// Replaces a block, and returns the old one.
    pub fn swap(&mut self, array: usize, number: usize, block: Block) -> Block
        requires { IsSome (block_of self.old.list.items array number) }
        ensures old { block_of self.old.list.items array number ≡ Some result }
        ensures new { Replaces array number block self.old.list.items self.new.list.items }
    {
        let row = &mut self.list[array];
        row.swap(number, block)
    }

    /// Ensures that there is a block with a number.
    pub fn make_room(&mut self, array: usize, number: usize) -> Result<(), AllocError>
        requires { number < 16384 }
        ensures room { OnOk result (IsSome (block_of self.new.list.items array number)) }
        ensures widens { Widens self.old.list.items self.new.list.items }
    {
        'rows: while self.list.len() <= array {
            self.list.push(BlockRow::new(self.alloc))?;
        }
        let row = &mut self.list[array];
        row.make_room(self.alloc, number)
    }

    /// Returns the number at a place, if it is held.
    #[inline(always)]
    pub fn number(&self, place: Place) -> Option<i64>
        ensures { result ≡ numbers (held_in self.now) (place_of place) }
    {
        match self.block(place.array.number, place.index / PLACES) {
            None => None,
            Some(block) => block.number(place.index % PLACES),
        }
    }

    /// Returns how far a window's first place is from the first place of its array's row, if the row
    /// has blocks for all of the window.
    pub fn distance(&self, window: Window) -> Option<usize>
        ensures found { IfSome result (λ at. LiesFrom self.now.list.items (window_of window) at) }
        ensures none { IfNone result (LiesNowhere self.now.list.items (window_of window)) }
    {
        match self.list.get(window.array.number) {
            None => None,
            Some(row) => row.distance(window.at, window.len),
        }
    }

    /// Returns the number of an element of a window, by its distance from the row's first place, or
    /// 0 if nothing is held there.
    #[inline(always)]
    pub fn number_at(&self, array: usize, at: usize) -> i64
        requires { ReachesTo self.now.list.items array at }
        ensures { result ≡ read_of (numbers (held_in self.now)) (place_at self.now.list.items array at) }
    {
        let row = &self.list[array];
        row.number_at(at)
    }

    /// Writes the number at a distance from a row's first place if it is owned and that needs no
    /// memory, and returns whether it did.
    #[inline(always)]
    pub fn set_at(&mut self, array: usize, at: usize, value: i64) -> bool
        requires { ReachesTo self.old.list.items array at }
        ensures written { OnTrue result (held_in self.new
            ≡ put (place_at self.old.list.items array at) (Owned value) (held_in self.old)) }
        ensures owned { OnTrue result
            (IsSome (owned (held_in self.old) (place_at self.old.list.items array at))) }
        ensures same { OnFalse result (held_in self.new ≡ held_in self.old) }
        ensures lie { LieAsBefore self.old.list.items self.new.list.items }
    {
        let row = &mut self.list[array];
        row.set_at(at, value)
    }

    /// Writes the number at an owned place, and returns whether the place is owned.
    pub fn write(&mut self, place: Place, value: i64) -> Result<bool, AllocError>
        ensures found { IfOk result (λ f. f ≡ is_some (owned (held_in self.old) (place_of place))) }
        ensures written { IfOk result (λ f. IsTrue f → held_in self.new
            ≡ put (place_of place) (Owned value) (held_in self.old)) }
        ensures missed { IfOk result (λ f. (f ≡ false) → held_in self.new ≡ held_in self.old) }
        ensures same { OnErr result (held_in self.new ≡ held_in self.old) }
        ensures owned { OnErr result (owned (held_in self.old) (place_of place) ≡ None → ⊥) }
    {
        let (array, number) = (place.array.number, place.index / PLACES);
        if array >= self.list.len() {
            return Ok(false);
        }
        let row = &mut self.list[array];
        row.write(self.alloc, number, place.index % PLACES, value)
    }

    /// Writes the number at an owned place if that needs no memory, and returns whether it did.
    #[inline(always)]
    pub fn set(&mut self, place: Place, value: i64) -> bool
        ensures written { OnTrue result
            (held_in self.new ≡ put (place_of place) (Owned value) (held_in self.old)) }
        ensures owned { OnTrue result (IsSome (owned (held_in self.old) (place_of place))) }
        ensures same { OnFalse result (held_in self.new ≡ held_in self.old) }
    {
        let (array, number) = (place.array.number, place.index / PLACES);
        if array >= self.list.len() {
            return false;
        }
        let row = &mut self.list[array];
        row.set(number, place.index % PLACES, value)
    }

    /// Writes the number at any place. An owned number stays owned, and at any other place the
    /// number is a copy.
    pub fn put(&mut self, place: Place, value: i64) -> Result<(), AllocError>
        requires { place.index < 4194304 }
        ensures written { OnOk result (held_in self.new ≡ put (place_of place)
            (in_place_of (held_in self.old (place_of place)) value) (held_in self.old)) }
        ensures same { OnErr result (held_in self.new ≡ held_in self.old) }
    {
        let (array, number) = (place.array.number, place.index / PLACES);
        self.make_room(array, number)?;
        let row = &mut self.list[array];
        row.put(self.alloc, number, place.index % PLACES, value)
    }
}
