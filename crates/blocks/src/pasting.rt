//! Owned offsets taken into blocks.

use crate::block::Block;
use crate::kind::HeldAs;
use crate::mixed::Mixed;
use crate::numbers::{Numbers, PLACES};
use crate::whole::Whole;
use std::alloc::{AllocError, Global};
use std::mem;
use std::sync::Arc;

impl Block {
    ghost use Rattle.std.specs.Prelude.{◌≡◌, ◌↔◌, IsTrue, OnOk, option_map};
    ghost use Rattle.blocks.specs.Blocks.{held_at, owned_at};
    ghost use Rattle.blocks.specs.Counts.{how_many};
    ghost use Rattle.blocks.specs.Held.{Owned, first_of};
    ghost use Rattle.blocks.specs.Offsets.{Agree, HasAll, IsWithin};
    ghost use Rattle.blocks.specs.Ready.{CanTake, room_at};

    /// Makes room for what another block owns, so pasting it needs no memory. What is held doesn't
    /// change.
    pub fn make_room(&mut self, alloc: Global, other: &Block) -> Result<(), AllocError>
        ensures same { Agree (held_at self.new) (held_at self.old) }
        ensures room { OnOk result (CanTake self.new other.now) }
    {
        match other {
            Block::Empty | Block::Shared(_) | Block::WholeShared(_) => Ok(()),
            Block::Owned(_) | Block::WholeOwned(_) | Block::Mixed(_) => {
                // A block that is open has the room already, or gets it without a look at its numbers.
                if !self.is_open() && self.is_within(other) {
                    return Ok(());
                }
                let from = other.start();
                self.open(alloc, from, other.end().max(from))
            }
        }
    }

    /// Takes in what another block owns, and returns how many numbers were copied. There must be
    /// room. The copies that the other block holds are dropped.
    pub fn paste(&mut self, alloc: Global, other: Block) -> u64
        requires { CanTake self.old other }
        ensures pasted { Agree (held_at self.new)
            (λ k. first_of (option_map Owned (owned_at other k)) (held_at self.old k)) }
        ensures moved { IsWithin (held_at self.old) (owned_at other) → result ≡ 0 }
        ensures counted { (IsWithin (held_at self.old) (owned_at other) → ⊥)
            → result ≡ how_many (owned_at other) 256 }
    {
        if self.is_within(&other) {
            *self = other.owned_part();
            self.close(alloc);
            return 0;
        }
        let copied = self.take(&other);
        self.close(alloc);
        copied
    }

    /// Takes in what another block owns, if there is room for all of it.
    fn take(&mut self, other: &Block) -> u64
        requires { IsWithin (owned_at other.now) (room_at self.old) }
        ensures held { Agree (held_at self.new)
            (λ k. first_of (option_map Owned (owned_at other.now k)) (held_at self.old k)) }
        ensures copied { result ≡ how_many (owned_at other.now) 256 }
    {
        match self {
            Block::Mixed(mixed) => mixed.take(other),
            Block::Empty
            | Block::Owned(_)
            | Block::Shared(_)
            | Block::WholeOwned(_)
            | Block::WholeShared(_) => 0,
        }
    }

    /// Returns whether the block has its own room.
    fn is_open(&self) -> bool {
        match self {
            Block::Mixed(_) => true,
            Block::Empty
            | Block::Owned(_)
            | Block::Shared(_)
            | Block::WholeOwned(_)
            | Block::WholeShared(_) => false,
        }
    }

    /// Returns whether another block owns all that is held here. Mostly the other block is a range
    /// of owned numbers, and then the ends decide.
    fn is_within(&self, other: &Block) -> bool
        ensures { IsTrue result ↔ IsWithin (held_at self.now) (owned_at other.now) }
    {
        let low = self.start();
        let high = self.end();
        if other.owns_range(low, high) {
            return true;
        }
        if low < high && self.holds(high - 1) && !other.owns(high - 1) {
            return false;
        }
        for offset in low..high {
            if self.holds(offset) && !other.owns(offset) {
                return false;
            }
        }
        true
    }

    /// Returns whether the block is a range of owned numbers that has all offsets of another range.
    /// Takes no look at the numbers, so the answer `false` means nothing.
    fn owns_range(&self, from: usize, to: usize) -> bool
        ensures { IsTrue result → HasAll from to (owned_at self.now) }
    {
        match self {
            Block::Owned(_) | Block::WholeOwned(_) => self.owns_all(from, to),
            Block::Empty | Block::Shared(_) | Block::WholeShared(_) | Block::Mixed(_) => false,
        }
    }

    /// Returns what is owned, without the copies.
    fn owned_part(self) -> Block
        ensures { Agree (held_at result) (λ k. option_map Owned (owned_at self k)) }
    {
        match self {
            Block::Empty | Block::Shared(_) | Block::WholeShared(_) => Block::Empty,
            Block::WholeOwned(whole) => Block::WholeOwned(whole),
            Block::Owned(numbers) => Block::Owned(numbers),
            Block::Mixed(mut mixed) => {
                mixed.drop_copies();
                Block::Mixed(mixed)
            }
        }
    }

    /// Puts the numbers into memory that can be shared again, if all are owned. If memory runs out,
    /// the numbers stay as they are. What is held doesn't change.
    fn close(&mut self, alloc: Global)
        ensures { Agree (held_at self.new) (held_at self.old) }
    {
        let Block::Mixed(mixed) = self else {
            return;
        };
        if !mixed.owns_everything() {
            return;
        }
        if mixed.numbers.list.len() == PLACES {
            if let Ok(whole) = Whole::of_numbers(alloc, &mixed.numbers.list) {
                *self = Block::WholeOwned(whole);
            }
            return;
        }
        let Mixed { numbers, kinds } = mem::replace(&mut **mixed, Mixed::nothing(alloc));
        match Arc::new(alloc, numbers) {
            Ok(numbers) => *self = Block::Owned(numbers),
            Err(failed) => {
                let numbers = failed.value;
                **mixed = Mixed { numbers, kinds };
            }
        }
    }
}

impl Mixed {
    ghost use Rattle.std.specs.Prelude.{◌≡◌, option_map};
    ghost use Rattle.blocks.specs.Numbers.{number_in};
    ghost use Rattle.blocks.specs.Blocks.{held_in, owned_at};
    ghost use Rattle.blocks.specs.Counts.{how_many};
    ghost use Rattle.blocks.specs.Held.{Owned, first_of};
    ghost use Rattle.blocks.specs.Offsets.{Agree, IsWithin};

    /// Takes in what a block owns, and returns how many numbers were copied. There must be room. Only
    /// this function and `take_row` copy numbers that are pasted.
    fn take(&mut self, other: &Block) -> u64
        requires { IsWithin (owned_at other.now) (number_in self.old.numbers) }
        ensures held { Agree (held_in self.new)
            (λ k. first_of (option_map Owned (owned_at other.now k)) (held_in self.old k)) }
        ensures copied { result ≡ how_many (owned_at other.now) 256 }
    {
        if let Block::Owned(numbers) = other {
            return self.take_row(numbers);
        }
        let low = other.start();
        let high = other.end();
        let mut copied = 0;
        for offset in low..high {
            if let Some(number) = other.owned(offset) {
                self.put(offset, number);
                copied += 1;
            }
        }
        copied
    }

    /// Takes in the numbers of a range, all at once, and returns how many were copied. There must be
    /// room.
    fn take_row(&mut self, numbers: &Numbers) -> u64
        requires { IsWithin (number_in numbers.now) (number_in self.old.numbers) }
        ensures held { Agree (held_in self.new)
            (λ k. first_of (option_map Owned (number_in numbers.now k)) (held_in self.old k)) }
        ensures copied { result ≡ how_many (number_in numbers.now) 256 }
    {
        let count = numbers.list.len();
        if count == 0 {
            return 0;
        }
        let at = numbers.first - self.numbers.first;
        self.numbers.list[at..at + count].copy_from_slice(&numbers.list);
        self.kinds[at..at + count].fill(HeldAs::Own);
        count as u64
    }
}
