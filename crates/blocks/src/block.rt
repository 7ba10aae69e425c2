//! What is held of the places of a block.

ghost use Rattle.std.specs.Prelude.{◌≡◌, IfOk, IsTrue, None, OnErr, false, is_some};
ghost use Rattle.std.specs.Arc.{arc_value};
ghost use Rattle.blocks.specs.Numbers.{number_in, whole_at};
ghost use Rattle.blocks.specs.Offsets.{Agree, put_at};

use crate::kind::HeldAs;
use crate::mixed::Mixed;
use crate::numbers::{Numbers, PLACES};
use crate::whole::Whole;
use std::alloc::{AllocError, Global};
use std::sync::Arc;

/// What is held of up to 256 neighbouring places of an array. Each place is named by its offset
/// from the first one.
#[derive(Drop)]
pub enum Block {
    /// The numbers of all places, owned. Copies of them may share the memory.
    WholeOwned(Arc<Whole>),
    /// Copies of the numbers of all places.
    WholeShared(Arc<Whole>),
    /// Nothing.
    Empty,
    /// Numbers of some places, all owned. Copies of them may share the memory.
    Owned(Arc<Numbers>),
    /// Copies of the numbers of some places.
    Shared(Arc<Numbers>),
    /// Different kinds at different offsets.
    Mixed(Box<Mixed>),
}

impl Block {
    ghost use Rattle.std.specs.Prelude.{◌≡◌, ◌↔◌, ◌<◌, ◌≤◌, ◌-◌, ℕ, true, false, pos, IfOk, IsTrue, None};
    ghost use Rattle.std.specs.Prelude.{OnErr, get_or, is_some, length, option_map, slice_get, unwrap_or};
    ghost use Rattle.blocks.specs.Numbers.{number_in};
    ghost use Rattle.blocks.specs.Blocks.{held_at, kind_of, number_at, owned_at};
    ghost use Rattle.blocks.specs.Held.{Owned, Shared};
    ghost use Rattle.blocks.specs.Offsets.{Agree, HasAll, HasOnly, StandApart, in_range};
    ghost use Rattle.blocks.specs.Offsets.{inside, put_at};
    ghost use Rattle.blocks.specs.Ready.{room_at};

    /// Returns a block that owns the numbers, from the first offset on.
    pub fn of_numbers(alloc: Global, numbers: &[i64]) -> Result<Block, AllocError>
        requires { length numbers.now ≤ 256 }
        ensures { IfOk result (λ b.
            Agree (held_at b) (λ k. option_map Owned (slice_get numbers.now k))) }
    {
        if numbers.len() == PLACES {
            return Ok(Block::WholeOwned(Whole::of_numbers(alloc, numbers)?));
        }
        let list = Vec::from_slice(alloc, numbers)?;
        let numbers = Arc::new(alloc, Numbers { first: 0, list })?;
        Ok(Block::Owned(numbers))
    }

    /// Returns the number at an offset, if it is held.
    #[inline(always)]
    pub fn number(&self, offset: usize) -> Option<i64>
        ensures { result ≡ number_at self.now offset }
    {
        if let Block::WholeOwned(whole) | Block::WholeShared(whole) = self {
            return whole.number(offset);
        }
        self.number_apart(offset)
    }

    /// Does the same as `number`, kept out of the fast path for whole blocks: a jump by the kind of
    /// the block would cost more than the access.
    #[inline(never)]
    fn number_apart(&self, offset: usize) -> Option<i64>
        ensures { result ≡ number_at self.now offset }
    {
        match self {
            Block::WholeOwned(whole) | Block::WholeShared(whole) => whole.number(offset),
            Block::Empty => None,
            Block::Owned(numbers) | Block::Shared(numbers) => numbers.number(offset),
            Block::Mixed(mixed) => mixed.number(offset),
        }
    }

    /// Writes the number at an owned offset, and returns whether the offset is owned. If copies
    /// share the memory, all numbers are copied first.
    pub fn write(&mut self, alloc: Global, offset: usize, value: i64) -> Result<bool, AllocError>
        ensures found { IfOk result (λ f. f ≡ is_some (owned_at self.old offset)) }
        ensures written { IfOk result (λ f. IsTrue f
            → Agree (held_at self.new) (put_at offset (Owned value) (held_at self.old))) }
        ensures missed { IfOk result (λ f. (f ≡ false) → Agree (held_at self.new) (held_at self.old)) }
        ensures same { OnErr result (Agree (held_at self.new) (held_at self.old)) }
        ensures owned { OnErr result (owned_at self.old offset ≡ None → ⊥) }
    {
        match self {
            Block::WholeOwned(whole) => write_whole(alloc, whole, offset, value),
            Block::Owned(numbers) => write_in(alloc, numbers, offset, value),
            Block::Mixed(mixed) => Ok(mixed.write(offset, value)),
            Block::Empty | Block::Shared(_) | Block::WholeShared(_) => Ok(false),
        }
    }

    /// Returns whether all offsets of a range are owned.
    pub fn owns_all(&self, from: usize, to: usize) -> bool
        ensures { IsTrue result ↔ HasAll from to (owned_at self.now) }
    {
        if let Block::WholeOwned(_) = self {
            return from >= to || to <= PLACES;
        }
        if let Block::Owned(numbers) = self {
            return from >= to || numbers.reach_over(from, to);
        }
        for offset in from..to {
            if !self.owns(offset) {
                return false;
            }
        }
        true
    }

    /// Returns whether all offsets of a range are held.
    pub fn holds_all(&self, from: usize, to: usize) -> bool
        ensures { IsTrue result ↔ HasAll from to (held_at self.now) }
    {
        if let Block::WholeOwned(_) | Block::WholeShared(_) = self {
            return from >= to || to <= PLACES;
        }
        if let Block::Owned(numbers) | Block::Shared(numbers) = self {
            return from >= to || numbers.reach_over(from, to);
        }
        for offset in from..to {
            if !self.holds(offset) {
                return false;
            }
        }
        true
    }

    /// Returns whether no offset is owned both here and in another block.
    pub fn is_apart(&self, other: &Block) -> bool
        ensures { IsTrue result ↔ StandApart (owned_at other.now) (owned_at self.now) }
    {
        let low = self.start().max(other.start());
        let high = self.end().min(other.end());
        for offset in low..high {
            if self.owns(offset) && other.owns(offset) {
                return false;
            }
        }
        true
    }

    /// Copies the numbers to their offsets in a list, and leaves its other elements unchanged.
    pub fn copy_to(&self, numbers: &mut [i64])
        ensures { (k : ℕ) → k < length numbers.old → get_or numbers.new k (pos 0)
            ≡ unwrap_or (number_at self.now k) (get_or numbers.old k (pos 0)) }
    {
        if let Block::WholeOwned(whole) | Block::WholeShared(whole) = self
            && numbers.len() <= PLACES
        {
            whole.copy_to(numbers);
            return;
        }
        for (offset, place) in numbers.iter_mut().enumerate() {
            if let Some(number) = self.number(offset) {
                *place = number;
            }
        }
    }

    /// Returns a second block that holds the same numbers in the same kinds.
    pub fn again(&self, alloc: Global) -> Result<Block, AllocError>
        ensures { IfOk result (λ b. Agree (held_at b) (held_at self.now)) }
    {
        match self {
            Block::WholeOwned(whole) => Ok(Block::WholeOwned(Arc::try_clone(whole)?)),
            Block::WholeShared(whole) => Ok(Block::WholeShared(Arc::try_clone(whole)?)),
            Block::Empty => Ok(Block::Empty),
            Block::Owned(numbers) => Ok(Block::Owned(Arc::try_clone(numbers)?)),
            Block::Shared(numbers) => Ok(Block::Shared(Arc::try_clone(numbers)?)),
            Block::Mixed(mixed) => {
                let mixed = mixed.again(alloc)?;
                Ok(Block::Mixed(Box::new(alloc, mixed)?))
            }
        }
    }

    /// Returns copies of the offsets of a range, which must all be held. The copies share the
    /// memory if the range has all offsets.
    pub fn share(&self, alloc: Global, from: usize, to: usize) -> Result<Block, AllocError>
        requires range { from < to }
        requires held { HasAll from to (held_at self.now) }
        ensures { IfOk result (λ b. Agree (held_at b)
            (λ k. option_map Shared (inside from to (number_at self.now) k))) }
    {
        if let Block::WholeOwned(whole) | Block::WholeShared(whole) = self
            && from == 0
            && to == PLACES
        {
            return Ok(Block::WholeShared(Arc::try_clone(whole)?));
        }
        if let Block::Owned(numbers) | Block::Shared(numbers) = self
            && from <= numbers.first
            && numbers.end() <= to
        {
            return Ok(Block::Shared(Arc::try_clone(numbers)?));
        }
        let (numbers, _) = self.part(alloc, from, to)?;
        Ok(Block::Shared(Arc::new(alloc, numbers)?))
    }

    /// Returns how an offset is held.
    pub(crate) fn kind(&self, offset: usize) -> HeldAs
        ensures { result ≡ kind_of (held_at self.now offset) }
    {
        match self {
            Block::WholeOwned(whole) => match whole.number(offset) {
                None => HeldAs::Absent,
                Some(_) => HeldAs::Own,
            },
            Block::WholeShared(whole) => match whole.number(offset) {
                None => HeldAs::Absent,
                Some(_) => HeldAs::Copied,
            },
            Block::Empty => HeldAs::Absent,
            Block::Owned(numbers) => match numbers.number(offset) {
                None => HeldAs::Absent,
                Some(_) => HeldAs::Own,
            },
            Block::Shared(numbers) => match numbers.number(offset) {
                None => HeldAs::Absent,
                Some(_) => HeldAs::Copied,
            },
            Block::Mixed(mixed) => mixed.kind(offset),
        }
    }

    /// Returns whether an offset is held.
    pub(crate) fn holds(&self, offset: usize) -> bool
        ensures { result ≡ is_some (held_at self.now offset) }
    {
        match self.kind(offset) {
            HeldAs::Own | HeldAs::Copied => true,
            HeldAs::Absent => false,
        }
    }

    /// Returns whether an offset is owned.
    pub fn owns(&self, offset: usize) -> bool
        ensures { result ≡ is_some (owned_at self.now offset) }
    {
        match self.kind(offset) {
            HeldAs::Own => true,
            HeldAs::Absent | HeldAs::Copied => false,
        }
    }

    /// Returns the number at an owned offset.
    pub(crate) fn owned(&self, offset: usize) -> Option<i64>
        ensures { result ≡ owned_at self.now offset }
    {
        match self.kind(offset) {
            HeldAs::Own => self.number(offset),
            HeldAs::Absent | HeldAs::Copied => None,
        }
    }

    /// Returns the first offset that may be held, or 256 for a block without numbers.
    pub fn start(&self) -> usize
        ensures before { (k : ℕ) → k < result → held_at self.now k ≡ None }
        ensures room { (k : ℕ) → k < result → room_at self.now k ≡ None }
        ensures places { result ≤ 256 }
    {
        match self {
            Block::WholeOwned(_) | Block::WholeShared(_) => 0,
            Block::Empty => PLACES,
            Block::Owned(numbers) | Block::Shared(numbers) => numbers.first,
            Block::Mixed(mixed) => mixed.numbers.first,
        }
    }

    /// Returns the offset after the last one that may be held, or 0 for a block without numbers.
    pub fn end(&self) -> usize
        ensures behind { (k : ℕ) → result ≤ k → held_at self.now k ≡ None }
        ensures room { (k : ℕ) → result ≤ k → room_at self.now k ≡ None }
        ensures places { result ≤ 256 }
    {
        match self {
            Block::WholeOwned(_) | Block::WholeShared(_) => PLACES,
            Block::Empty => 0,
            Block::Owned(numbers) | Block::Shared(numbers) => numbers.end(),
            Block::Mixed(mixed) => mixed.numbers.end(),
        }
    }

    /// Returns whether nothing is held outside the offsets of a range.
    pub(crate) fn holds_only(&self, from: usize, to: usize) -> bool
        ensures { IsTrue result ↔ HasOnly from to (held_at self.now) }
    {
        let low = self.start();
        let high = self.end();
        if from <= low && high <= to {
            return true;
        }
        // The range of a cut is mostly an end of what is held, so the other end decides.
        if to < high && self.holds(high - 1) {
            return false;
        }
        for offset in low..high {
            if (offset < from || offset >= to) && self.holds(offset) {
                return false;
            }
        }
        true
    }

    /// Copies the numbers of a range, which must all be held, and returns how many were copied.
    pub(crate) fn part(
        &self,
        alloc: Global,
        from: usize,
        to: usize,
    ) -> Result<(Numbers, u64), AllocError>
        requires range { from < to }
        requires held { HasAll from to (held_at self.now) }
        ensures numbers { IfOk result (λ r.
            Agree (number_in r.0) (inside from to (number_at self.now))) }
        ensures copied { IfOk result (λ r. r.1 ≡ to - from) }
    {
        match self {
            Block::WholeOwned(whole) | Block::WholeShared(whole) => whole.part(alloc, from, to),
            Block::Empty => unreachable!(),
            Block::Owned(numbers) | Block::Shared(numbers) => numbers.part(alloc, from, to),
            Block::Mixed(mixed) => mixed.numbers.part(alloc, from, to),
        }
    }
}

/// Writes the number at an offset of a whole block. If others share the numbers, they are copied
/// first.
#[inline(never)]
fn write_whole(
    alloc: Global,
    shared: &mut Arc<Whole>,
    offset: usize,
    value: i64,
) -> Result<bool, AllocError>
    ensures found { IfOk result (λ f. f ≡ is_some (whole_at (arc_value shared.old) offset)) }
    ensures written { IfOk result (λ f. IsTrue f → Agree (whole_at (arc_value shared.new))
        (put_at offset value (whole_at (arc_value shared.old)))) }
    ensures missed { IfOk result (λ f. (f ≡ false) → arc_value shared.new ≡ arc_value shared.old) }
    ensures same { OnErr result (arc_value shared.new ≡ arc_value shared.old) }
    ensures there { OnErr result (whole_at (arc_value shared.old) offset ≡ None → ⊥) }
{
    if let Some(whole) = Arc::get_mut(shared) {
        return Ok(whole.write(offset, value));
    }
    if shared.number(offset).is_none() {
        return Ok(false);
    }
    let mut whole = shared.copied();
    let found = whole.write(offset, value);
    *shared = Arc::new(alloc, whole)?;
    Ok(found)
}

/// Writes the number at an offset. If others share the numbers, they are copied first.
fn write_in(
    alloc: Global,
    shared: &mut Arc<Numbers>,
    offset: usize,
    value: i64,
) -> Result<bool, AllocError>
    ensures found { IfOk result (λ f. f ≡ is_some (number_in (arc_value shared.old) offset)) }
    ensures written { IfOk result (λ f. IsTrue f → Agree (number_in (arc_value shared.new))
        (put_at offset value (number_in (arc_value shared.old)))) }
    ensures missed { IfOk result (λ f. (f ≡ false) → arc_value shared.new ≡ arc_value shared.old) }
    ensures same { OnErr result (arc_value shared.new ≡ arc_value shared.old) }
    ensures there { OnErr result (number_in (arc_value shared.old) offset ≡ None → ⊥) }
{
    if let Some(numbers) = Arc::get_mut(shared) {
        return Ok(numbers.write(offset, value));
    }
    if shared.number(offset).is_none() {
        return Ok(false);
    }
    let mut numbers = shared.copied(alloc)?;
    let found = numbers.write(offset, value);
    *shared = Arc::new(alloc, numbers)?;
    Ok(found)
}
