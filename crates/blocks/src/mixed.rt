//! Numbers that each have their own kind.

ghost use Rattle.std.specs.Prelude.{◌≡◌, length};

use crate::kind::HeldAs;
use crate::numbers::Numbers;
use std::alloc::{AllocError, Global};
use std::mem;

/// Numbers that each have their own kind. No other holder shares them, so they can be written
/// without memory.
#[derive(Drop)]
pub struct Mixed {
    pub(crate) numbers: Numbers,
    pub(crate) kinds: Vec<HeldAs>,
    ghost paired: { length kinds.items ≡ length numbers.list.items },
}

impl Mixed {
    ghost use Rattle.std.specs.Prelude.{◌-◌, ◌+◌, ◌↔◌, IfOk, IsTrue, None, is_some, false, option_map};
    ghost use Rattle.std.specs.Prelude.{◌<◌, ◌≤◌, OnOk};
    ghost use Rattle.blocks.specs.Numbers.{IsAsWide, number_in};
    ghost use Rattle.blocks.specs.Blocks.{held_in, kind_of};
    ghost use Rattle.blocks.specs.Held.{Owned, number_of, owned_number};
    ghost use Rattle.blocks.specs.Offsets.{Agree, HasAll, IsWithin, outside, put_at};
    ghost use Rattle.blocks.specs.Offsets.{without_at};

    /// Returns a `Mixed` that holds nothing.
    pub(crate) fn nothing(alloc: Global) -> Mixed {
        Mixed {
            numbers: Numbers::none(alloc),
            kinds: Vec::new(alloc),
        }
    }

    /// Returns a `Mixed` that holds nothing, and whose room can grow from an offset on.
    pub(crate) fn from_offset(alloc: Global, first: usize) -> Mixed
        requires { first ≤ 256 }
        ensures { Agree (held_in result) (λ k. None) }
    {
        let numbers = Numbers {
            first,
            list: Vec::new(alloc),
        };
        Mixed {
            numbers,
            kinds: Vec::new(alloc),
        }
    }

    /// Returns how an offset is held.
    #[inline(always)]
    pub(crate) fn kind(&self, offset: usize) -> HeldAs
        ensures { result ≡ kind_of (held_in self.now offset) }
    {
        if !self.numbers.reaches(offset) {
            return HeldAs::Absent;
        }
        self.kinds[offset - self.numbers.first]
    }

    /// Returns the number at an offset, if it is held.
    #[inline(never)]
    pub(crate) fn number(&self, offset: usize) -> Option<i64>
        ensures { result ≡ option_map number_of (held_in self.now offset) }
    {
        match self.kind(offset) {
            HeldAs::Absent => None,
            HeldAs::Own | HeldAs::Copied => self.numbers.number(offset),
        }
    }

    /// Makes the number at an offset with room the holder's own.
    pub(crate) fn put(&mut self, offset: usize, value: i64)
        requires { number_in self.old.numbers offset ≡ None → ⊥ }
        ensures held { Agree (held_in self.new) (put_at offset (Owned value) (held_in self.old)) }
        ensures room { IsAsWide self.new.numbers self.old.numbers }
    {
        let at = offset - self.numbers.first;
        self.numbers.list[at] = value;
        self.kinds[at] = HeldAs::Own;
    }

    /// Stops holding an offset that has room.
    fn forget(&mut self, offset: usize)
        requires { number_in self.old.numbers offset ≡ None → ⊥ }
        ensures held { Agree (held_in self.new) (without_at offset (held_in self.old)) }
        ensures numbers { self.new.numbers ≡ self.old.numbers }
    {
        let at = offset - self.numbers.first;
        self.kinds[at] = HeldAs::Absent;
    }

    /// Writes the number at an owned offset.
    pub(crate) fn write(&mut self, offset: usize, value: i64) -> bool
        ensures found { result ≡ is_some (owned_number (held_in self.old offset)) }
        ensures written { IsTrue result
            → Agree (held_in self.new) (put_at offset (Owned value) (held_in self.old)) }
        ensures same { (result ≡ false) → self.new ≡ self.old }
    {
        match self.kind(offset) {
            HeldAs::Own => {
                self.put(offset, value);
                true
            }
            HeldAs::Absent | HeldAs::Copied => false,
        }
    }

    /// Stops holding the offsets of a range.
    pub(crate) fn clear(&mut self, from: usize, to: usize)
        ensures held { Agree (held_in self.new) (outside from to (held_in self.old)) }
        ensures numbers { self.new.numbers ≡ self.old.numbers }
    {
        let first = self.numbers.first;
        let low = from.max(first);
        let high = to.min(self.numbers.end());
        if low < high {
            self.kinds[low - first..high - first].fill(HeldAs::Absent);
        }
    }

    /// Returns a second `Mixed` with the same numbers and kinds.
    pub(crate) fn again(&self, alloc: Global) -> Result<Mixed, AllocError>
        ensures { IfOk result (λ m. Agree (held_in m) (held_in self.now)) }
    {
        let numbers = self.numbers.copied(alloc)?;
        let kinds = Vec::from_slice(alloc, &self.kinds)?;
        Ok(Mixed { numbers, kinds })
    }

    /// Stops holding all copies.
    pub(crate) fn drop_copies(&mut self)
        ensures { Agree (held_in self.new)
            (λ k. option_map Owned (owned_number (held_in self.old k))) }
    {
        let low = self.numbers.first;
        let high = self.numbers.end();
        for offset in low..high {
            match self.kind(offset) {
                HeldAs::Copied => self.forget(offset),
                HeldAs::Absent | HeldAs::Own => {}
            }
        }
    }

    /// Returns whether each number is owned.
    pub(crate) fn owns_everything(&self) -> bool
        ensures { IsTrue result → Agree (held_in self.now)
            (λ k. option_map Owned (number_in self.now.numbers k)) }
    {
        for kind in &self.kinds {
            match kind {
                HeldAs::Own => {}
                HeldAs::Absent | HeldAs::Copied => return false,
            }
        }
        true
    }

    /// Makes room for the offsets of a range, next to the existing room. The numbers move with
    /// their list, and none is copied one by one. What is held doesn't change.
    pub(crate) fn widen(&mut self, alloc: Global, from: usize, to: usize) -> Result<(), AllocError>
        requires range { from ≤ to }
        requires places { to ≤ 256 }
        ensures same { Agree (held_in self.new) (held_in self.old) }
        ensures room { OnOk result (HasAll from to (number_in self.new.numbers)) }
        ensures keeps { IsWithin (number_in self.old.numbers) (number_in self.new.numbers) }
    {
        'end: while self.numbers.end() < to {
            self.add_room()?;
        }
        if self.numbers.first <= from {
            return Ok(());
        }
        self.widen_front(alloc, from)?;
        Ok(())
    }

    /// Makes room for one more offset, at the end.
    fn add_room(&mut self) -> Result<(), AllocError>
        requires { self.old.numbers.first + length self.old.numbers.list.items < 256 }
        ensures same { Agree (held_in self.new) (held_in self.old) }
        ensures first { self.new.numbers.first ≡ self.old.numbers.first }
        ensures room { OnOk result (length self.new.numbers.list.items
            ≡ length self.old.numbers.list.items + 1) }
        ensures keeps { IsWithin (number_in self.old.numbers) (number_in self.new.numbers) }
    {
        self.kinds.push(HeldAs::Absent)?;
        if self.numbers.list.push(0).is_err() {
            self.kinds.pop();
            return Err(AllocError);
        }
        Ok(())
    }

    /// Makes room for the offsets before the first one, from an offset on.
    fn widen_front(&mut self, alloc: Global, from: usize) -> Result<(), AllocError>
        requires { from < self.old.numbers.first }
        ensures same { Agree (held_in self.new) (held_in self.old) }
        ensures first { OnOk result (self.new.numbers.first ≡ from) }
        ensures end { OnOk result (self.new.numbers.first + length self.new.numbers.list.items
            ≡ self.old.numbers.first + length self.old.numbers.list.items) }
        ensures keeps { IsWithin (number_in self.old.numbers) (number_in self.new.numbers) }
    {
        let count = self.numbers.first - from;
        let mut list = vec![in alloc; 0; count]?;
        let mut kinds = vec![in alloc; HeldAs::Absent; count]?;
        kinds.extend_from_slice(&self.kinds)?;
        let old = mem::replace(self, Mixed::nothing(alloc));
        let Numbers {
            first,
            list: mut rest,
        } = old.numbers;
        match list.append(&mut rest) {
            Ok(()) => {
                let numbers = Numbers { first: from, list };
                *self = Mixed { numbers, kinds };
                Ok(())
            }
            Err(failed) => {
                let numbers = Numbers { first, list: rest };
                *self = Mixed {
                    numbers,
                    kinds: old.kinds,
                };
                Err(failed)
            }
        }
    }
}
