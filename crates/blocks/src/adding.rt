//! Numbers of a range of another block, copied into blocks.

use crate::block::Block;
use crate::kind::HeldAs;
use crate::mixed::Mixed;
use std::alloc::{AllocError, Global};
use std::sync::Arc;

impl Block {
    ghost use Rattle.std.specs.Prelude.{◌≡◌, ◌<◌, ◌≤◌, ◌-◌, IfOk, OnOk, option_map, if◌then◌else◌};
    ghost use Rattle.blocks.specs.Blocks.{held_at, number_at, owned_at};
    ghost use Rattle.blocks.specs.Held.{Shared};
    ghost use Rattle.blocks.specs.Offsets.{Agree, HasAll, in_range};

    /// Takes in copies of a range of another block, which must hold the whole range. They replace
    /// what is held there.
    pub fn add_copies(
        &mut self,
        alloc: Global,
        other: &Block,
        from: usize,
        to: usize,
    ) -> Result<(), AllocError>
        requires range { from < to }
        requires places { to ≤ 256 }
        requires held { HasAll from to (held_at other.now) }
        ensures { OnOk result (Agree (held_at self.new) (λ k. if in_range from to k
            then option_map Shared (number_at other.now k) else held_at self.old k)) }
    {
        if let Block::Empty = self {
            *self = other.share(alloc, from, to)?;
            return Ok(());
        }
        self.open(alloc, from, to)?;
        if let Block::Mixed(mixed) = self {
            mixed.take_copies(other, from, to);
        }
        Ok(())
    }

    /// Copies the numbers of a range of another block, which must own the whole range, and returns
    /// how many were copied. They are owned here, and replace what is held there.
    pub(crate) fn take_range(
        &mut self,
        alloc: Global,
        other: &Block,
        from: usize,
        to: usize,
    ) -> Result<u64, AllocError>
        requires range { from < to }
        requires places { to ≤ 256 }
        requires owned { HasAll from to (owned_at other.now) }
        ensures held { OnOk result (Agree (held_at self.new) (λ k. if in_range from to k
            then held_at other.now k else held_at self.old k)) }
        ensures copied { IfOk result (λ n. n ≡ to - from) }
    {
        if let Block::Empty = self {
            let (numbers, copied) = other.part(alloc, from, to)?;
            *self = Block::Owned(Arc::new(alloc, numbers)?);
            return Ok(copied);
        }
        self.open(alloc, from, to)?;
        match self {
            Block::Mixed(mixed) => Ok(mixed.take_range(other, from, to)),
            Block::Empty
            | Block::Owned(_)
            | Block::Shared(_)
            | Block::WholeOwned(_)
            | Block::WholeShared(_) => unreachable!(),
        }
    }
}

impl Mixed {
    ghost use Rattle.std.specs.Prelude.{◌≡◌, ◌<◌, ◌≤◌, ◌-◌, None, option_map, if◌then◌else◌};
    ghost use Rattle.blocks.specs.Numbers.{IsAsWide, number_in};
    ghost use Rattle.blocks.specs.Blocks.{held_at, held_in, number_at, owned_at};
    ghost use Rattle.blocks.specs.Held.{Shared};
    ghost use Rattle.blocks.specs.Offsets.{Agree, HasAll, in_range, put_at};

    /// Makes the number at an offset with room a copy.
    pub(crate) fn put_copy(&mut self, offset: usize, value: i64)
        requires { number_in self.old.numbers offset ≡ None → ⊥ }
        ensures held { Agree (held_in self.new) (put_at offset (Shared value) (held_in self.old)) }
        ensures room { IsAsWide self.new.numbers self.old.numbers }
    {
        let at = offset - self.numbers.first;
        self.numbers.list[at] = value;
        self.kinds[at] = HeldAs::Copied;
    }

    /// Takes in copies of a range of a block. There must be room for them.
    fn take_copies(&mut self, other: &Block, from: usize, to: usize)
        requires range { from < to }
        requires room { HasAll from to (number_in self.old.numbers) }
        requires held { HasAll from to (held_at other.now) }
        ensures { Agree (held_in self.new) (λ k. if in_range from to k
            then option_map Shared (number_at other.now k) else held_in self.old k) }
    {
        for offset in from..to {
            if let Some(number) = other.number(offset) {
                self.put_copy(offset, number);
            }
        }
    }

    /// Copies the owned numbers of a range of a block, and returns how many were copied. There must
    /// be room for them.
    fn take_range(&mut self, other: &Block, from: usize, to: usize) -> u64
        requires range { from < to }
        requires places { to ≤ 256 }
        requires room { HasAll from to (number_in self.old.numbers) }
        requires owned { HasAll from to (owned_at other.now) }
        ensures held { Agree (held_in self.new) (λ k. if in_range from to k
            then held_at other.now k else held_in self.old k) }
        ensures copied { result ≡ to - from }
    {
        let mut copied = 0;
        for offset in from..to {
            if let Some(number) = other.owned(offset) {
                self.put(offset, number);
                copied += 1;
            }
        }
        copied
    }
}
