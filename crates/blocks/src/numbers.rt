//! The numbers of neighbouring offsets.

ghost use Rattle.std.specs.Prelude.{◌+◌, ◌≤◌, length};

use std::alloc::{AllocError, Global};

/// The maximum number of places in a block.
pub const PLACES: usize = 256;

/// The numbers of neighbouring offsets, starting at the offset `first`.
#[derive(Drop)]
pub struct Numbers {
    pub first: usize,
    pub list: Vec<i64>,
    ghost within: { first + length list.items ≤ 256 },
}

impl Numbers {
    ghost use Rattle.std.specs.Prelude.{◌≡◌, ◌-◌, ◌<◌, ◌↔◌, IfOk, IsTrue, false, is_some, []};
    ghost use Rattle.blocks.specs.Numbers.{ReachOver, number_in};
    ghost use Rattle.blocks.specs.Offsets.{Agree, HasAll, inside, put_at};

    /// Returns no numbers.
    pub fn none(alloc: Global) -> Numbers
        ensures first { result.first ≡ 0 }
        ensures list { result.list.items ≡ [] }
    {
        Numbers {
            first: 0,
            list: Vec::new(alloc),
        }
    }

    /// Returns the offset after the last one.
    #[inline(always)]
    pub fn end(&self) -> usize
        ensures { result ≡ self.now.first + length self.now.list.items }
    {
        self.first + self.list.len()
    }

    /// Returns whether an offset has a number, with a single test: for an offset before the first,
    /// the difference wraps to a value far past the end.
    #[inline(always)]
    pub fn reaches(&self, offset: usize) -> bool
        ensures { IsTrue result ↔ (self.now.first ≤ offset
            × offset < self.now.first + length self.now.list.items) }
    {
        offset.wrapping_sub(self.first) < self.list.len()
    }

    /// Returns the number at an offset.
    #[inline(always)]
    pub fn number(&self, offset: usize) -> Option<i64>
        ensures { result ≡ number_in self.now offset }
    {
        if !self.reaches(offset) {
            return None;
        }
        Some(self.list[offset - self.first])
    }

    /// Returns whether all offsets of a range have numbers. For an empty range, returns whether the
    /// range lies among the offsets that have numbers.
    pub fn reach_over(&self, from: usize, to: usize) -> bool
        ensures { IsTrue result ↔ ReachOver self.now from to }
    {
        self.first <= from && to <= self.end()
    }

    /// Writes the number at an offset, if the offset has one.
    #[inline(always)]
    pub fn write(&mut self, offset: usize, value: i64) -> bool
        ensures found { result ≡ is_some (number_in self.old offset) }
        ensures written { IsTrue result
            → Agree (number_in self.new) (put_at offset value (number_in self.old)) }
        ensures same { (result ≡ false) → self.new ≡ self.old }
    {
        if !self.reaches(offset) {
            return false;
        }
        self.list[offset - self.first] = value;
        true
    }

    /// Copies the numbers into separate memory.
    pub fn copied(&self, alloc: Global) -> Result<Numbers, AllocError>
        ensures { IfOk result (λ n. (n.first ≡ self.now.first)
            × (n.list.items ≡ self.now.list.items)) }
    {
        let list = Vec::from_slice(alloc, &self.list)?;
        Ok(Numbers {
            first: self.first,
            list,
        })
    }

    /// Copies the numbers of a range into a new list, and counts the copies.
    pub fn part(&self, alloc: Global, from: usize, to: usize) -> Result<(Numbers, u64), AllocError>
        requires range { from < to }
        requires there { ReachOver self.now from to }
        ensures numbers { IfOk result (λ r.
            Agree (number_in r.0) (inside from to (number_in self.now))) }
        ensures copied { IfOk result (λ r. r.1 ≡ to - from) }
    {
        let (start, end) = (from - self.first, to - self.first);
        let list = Vec::from_slice(alloc, &self.list[start..end])?;
        let copied = list.len();
        let numbers = Numbers { first: from, list };
        Ok((numbers, copied as u64))
    }
}
