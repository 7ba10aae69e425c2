//! The numbers of all places of a block.

ghost use Rattle.std.specs.Prelude.{◌≡◌, length};

use crate::numbers::{Numbers, PLACES};
use std::alloc::{AllocError, Global};
use std::sync::Arc;

/// The numbers of all places of a block. They lie next to one another in its own memory, so a number
/// is found by its offset alone.
#[derive(Drop)]
pub struct Whole {
    pub(crate) numbers: [i64; 256],
    ghost full: { length numbers ≡ 256 },
}

impl Whole {
    ghost use Rattle.std.specs.Prelude.{◌-◌, ◌<◌, ◌≤◌, ℕ, IfOk, IsTrue, None, false, is_some, take};
    ghost use Rattle.std.specs.Arc.{arc_value};
    ghost use Rattle.blocks.specs.Numbers.{number_in, whole_at};
    ghost use Rattle.blocks.specs.Offsets.{Agree, inside, put_at};

    /// Returns the numbers of a list, in memory that can be shared.
    pub fn of_numbers(alloc: Global, numbers: &[i64]) -> Result<Arc<Whole>, AllocError>
        requires { length numbers.now ≡ 256 }
        ensures { IfOk result (λ w. (arc_value w).numbers ≡ numbers.now) }
    {
        let mut whole = Whole {
            numbers: [0; PLACES],
        };
        whole.numbers.copy_from_slice(numbers);
        Ok(Arc::new(alloc, whole)?)
    }

    /// Returns the number at an offset.
    #[inline(always)]
    pub fn number(&self, offset: usize) -> Option<i64>
        ensures { result ≡ whole_at self.now offset }
    {
        if offset >= PLACES {
            return None;
        }
        Some(self.numbers[offset])
    }

    /// Writes the number at an offset, if it is an offset of a block.
    #[inline(always)]
    pub fn write(&mut self, offset: usize, value: i64) -> bool
        ensures found { result ≡ is_some (whole_at self.old offset) }
        ensures written { IsTrue result
            → Agree (whole_at self.new) (put_at offset value (whole_at self.old)) }
        ensures same { (result ≡ false) → self.new ≡ self.old }
    {
        if offset >= PLACES {
            return false;
        }
        self.numbers[offset] = value;
        true
    }

    /// Copies the numbers into separate memory.
    pub fn copied(&self) -> Whole
        ensures { result.numbers ≡ self.now.numbers }
    {
        Whole {
            numbers: self.numbers,
        }
    }

    /// Copies the first numbers to all places of a list.
    pub(crate) fn copy_to(&self, numbers: &mut [i64])
        requires { length numbers.old ≤ 256 }
        ensures { numbers.new ≡ take (length numbers.old) self.now.numbers }
    {
        let count = numbers.len();
        numbers.copy_from_slice(&self.numbers[..count]);
    }

    /// Copies the numbers into a list that can grow.
    pub fn listed(&self, alloc: Global) -> Result<Numbers, AllocError>
        ensures { IfOk result (λ n. Agree (number_in n) (whole_at self.now)) }
    {
        let list = Vec::from_slice(alloc, &self.numbers)?;
        Ok(Numbers { first: 0, list })
    }

    /// Copies the numbers of a range into a new list, and counts the copies.
    pub fn part(&self, alloc: Global, from: usize, to: usize) -> Result<(Numbers, u64), AllocError>
        requires range { from < to }
        requires places { to ≤ 256 }
        ensures numbers { IfOk result (λ r.
            Agree (number_in r.0) (inside from to (whole_at self.now))) }
        ensures copied { IfOk result (λ r. r.1 ≡ to - from) }
    {
        let list = Vec::from_slice(alloc, &self.numbers[from..to])?;
        let copied = list.len();
        let numbers = Numbers { first: from, list };
        Ok((numbers, copied as u64))
    }
}
