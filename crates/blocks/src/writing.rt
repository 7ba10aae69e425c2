//! Numbers written into blocks.

use crate::block::Block;
use std::alloc::{AllocError, Global};
use std::sync::Arc;

impl Block {
    ghost use Rattle.std.specs.Prelude.{◌≡◌, ◌<◌, IsSome, OnErr, OnOk};
    ghost use Rattle.std.specs.Bool.{OnFalse, OnTrue};
    ghost use Rattle.blocks.specs.Offsets.{Agree, put_at};
    ghost use Rattle.blocks.specs.Blocks.{held_at, owned_at};
    ghost use Rattle.blocks.specs.Held.{Owned, in_place_of};

    /// Writes the number at an owned offset if that needs no memory, and returns whether it did.
    /// Writes nothing if copies may share the memory.
    #[inline(always)]
    pub fn set(&mut self, offset: usize, value: i64) -> bool
        ensures written { OnTrue result
            (Agree (held_at self.new) (put_at offset (Owned value) (held_at self.old))) }
        ensures owned { OnTrue result (IsSome (owned_at self.old offset)) }
        ensures same { OnFalse result (Agree (held_at self.new) (held_at self.old)) }
    {
        if let Block::WholeOwned(whole) = self {
            return match Arc::get_mut(whole) {
                Some(whole) => whole.write(offset, value),
                None => false,
            };
        }
        self.set_apart(offset, value)
    }

    /// Does the same as `set`, kept out of the fast path for whole blocks.
    #[inline(never)]
    fn set_apart(&mut self, offset: usize, value: i64) -> bool
        ensures written { OnTrue result
            (Agree (held_at self.new) (put_at offset (Owned value) (held_at self.old))) }
        ensures owned { OnTrue result (IsSome (owned_at self.old offset)) }
        ensures same { OnFalse result (Agree (held_at self.new) (held_at self.old)) }
    {
        match self {
            Block::Owned(numbers) => match Arc::get_mut(numbers) {
                Some(numbers) => numbers.write(offset, value),
                None => false,
            },
            Block::Mixed(mixed) => mixed.write(offset, value),
            Block::Empty | Block::Shared(_) | Block::WholeOwned(_) | Block::WholeShared(_) => false,
        }
    }

    /// Writes the number at any offset. An owned number stays owned, and at any other offset the
    /// number is a copy. If copies share the memory, all numbers are copied first.
    pub fn put(&mut self, alloc: Global, offset: usize, value: i64) -> Result<(), AllocError>
        requires { offset < 256 }
        ensures written { OnOk result (Agree (held_at self.new) (put_at offset
            (in_place_of (held_at self.old offset) value) (held_at self.old))) }
        ensures same { OnErr result (Agree (held_at self.new) (held_at self.old)) }
    {
        if self.write(alloc, offset, value)? {
            return Ok(());
        }
        self.open(alloc, offset, offset + 1)?;
        if let Block::Mixed(mixed) = self {
            mixed.put_copy(offset, value);
        }
        Ok(())
    }
}
