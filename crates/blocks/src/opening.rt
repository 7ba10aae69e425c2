//! Offsets carved out of blocks.

use crate::block::Block;
use crate::cut::Cut;
use crate::kind::HeldAs;
use crate::mixed::Mixed;
use crate::numbers::Numbers;
use crate::whole::Whole;
use std::alloc::{AllocError, Global};
use std::mem;
use std::sync::Arc;

impl Block {
    ghost use Rattle.std.specs.Prelude.{◌≡◌, ◌<◌, ◌≤◌, ◌-◌, ℕ, IfOk, OnErr, OnOk, false, true};
    ghost use Rattle.std.specs.Prelude.{nat_eq, if◌then◌else◌};
    ghost use Rattle.blocks.specs.Numbers.{number_in};
    ghost use Rattle.blocks.specs.Blocks.{held_at, held_in, owned_at};
    ghost use Rattle.blocks.specs.Offsets.{Agree, HasAll, HasOnly, IsWithin, in_range};
    ghost use Rattle.blocks.specs.Offsets.{inside, outside};
    ghost use Rattle.blocks.specs.Ready.{IsReady, room_at};
    ghost use Rattle.blocks.specs.declared.cut.Cut.{Cut as CutOf};

    /// Cuts out a range, which must be owned: copies its numbers straight into another block, and
    /// makes room, so carving it out needs no memory. If nothing else is held, there is nothing to
    /// do. What is held here doesn't change.
    pub fn cut(
        &mut self,
        alloc: Global,
        into: &mut Block,
        from: usize,
        to: usize,
    ) -> Result<Cut, AllocError>
        requires range { from < to }
        requires places { to ≤ 256 }
        requires owned { HasAll from to (owned_at self.old) }
        ensures same { Agree (held_at self.new) (held_at self.old) }
        ensures ready { IfOk result (λ c. IsReady self.new from to c) }
        ensures moved { IfOk result (λ c. HasOnly from to (held_at self.old) → c.copied ≡ 0) }
        ensures counted { IfOk result (λ c. (HasOnly from to (held_at self.old) → ⊥)
            → c.copied ≡ to - from) }
        ensures taken { IfOk result (λ c. Agree (held_at into.new) (λ k.
            if nat_eq c.copied 0 then held_at into.old k
            else (if in_range from to k then held_at self.old k else held_at into.old k))) }
        ensures keeps { (f t : ℕ) (c : CutOf) → IsReady self.old f t c → IsReady self.new f t c }
    {
        if self.holds_only(from, to) {
            return Ok(Cut { copied: 0 });
        }
        self.open(alloc, from, to)?;
        let copied = into.take_range(alloc, self, from, to)?;
        Ok(Cut { copied })
    }

    /// Moves out the offsets of a range that was cut. Returns them if the block moves unchanged,
    /// and else nothing: the numbers were copied.
    pub fn carve(&mut self, cut: Cut, from: usize, to: usize) -> Block
        requires { IsReady self.old from to cut }
        ensures taken { cut.copied ≡ 0 → Agree (held_at result) (inside from to (held_at self.old)) }
        ensures left { Agree (held_at self.new) (outside from to (held_at self.old)) }
        ensures keeps { (f t : ℕ) (c : CutOf) → f < t
            → ((k : ℕ) → in_range f t k ≡ true → in_range from to k ≡ false)
            → IsReady self.old f t c → IsReady self.new f t c }
    {
        if cut.copied == 0 {
            return mem::replace(self, Block::Empty);
        }
        self.clear(from, to);
        Block::Empty
    }

    /// Stops holding the offsets of a range for which there is room.
    fn clear(&mut self, from: usize, to: usize)
        requires { HasAll from to (room_at self.old) }
        ensures held { Agree (held_at self.new) (outside from to (held_at self.old)) }
        ensures room { Agree (room_at self.new) (room_at self.old) }
    {
        if let Block::Mixed(mixed) = self {
            mixed.clear(from, to);
        }
    }

    /// Makes room for the numbers of a range. What is held doesn't change, and existing room
    /// remains. The numbers move to the new room, and none is copied one by one. If others share
    /// them, they are copied first, as before a write.
    pub(crate) fn open(&mut self, alloc: Global, from: usize, to: usize) -> Result<(), AllocError>
        requires range { from ≤ to }
        requires places { to ≤ 256 }
        ensures same { Agree (held_at self.new) (held_at self.old) }
        ensures open { OnOk result (HasAll from to (room_at self.new)) }
        ensures keeps { IsWithin (room_at self.old) (room_at self.new) }
    {
        if let Block::Mixed(mixed) = self {
            return mixed.widen(alloc, from, to);
        }
        // Allocate first, so nothing has changed if memory runs out.
        let mut room = Box::new(alloc, Mixed::nothing(alloc))?;
        *room = self.take_out(alloc, from)?;
        let widened = room.widen(alloc, from, to);
        *self = Block::Mixed(room);
        widened
    }

    /// Takes all that is held out of a block, with its own numbers. If nothing is held, room can
    /// be made from an offset on.
    fn take_out(&mut self, alloc: Global, from: usize) -> Result<Mixed, AllocError>
        requires { from ≤ 256 }
        ensures held { IfOk result (λ m. Agree (held_in m) (held_at self.old)) }
        ensures keeps { IfOk result (λ m. IsWithin (room_at self.old) (number_in m.numbers)) }
        ensures same { OnErr result (Agree (held_at self.new) (held_at self.old)) }
        ensures room { OnErr result (IsWithin (room_at self.old) (room_at self.new)) }
    {
        match self {
            Block::WholeOwned(shared) => take_all(alloc, shared, HeldAs::Own),
            Block::WholeShared(shared) => take_all(alloc, shared, HeldAs::Copied),
            Block::Empty => Ok(Mixed::from_offset(alloc, from)),
            Block::Owned(shared) => take_numbers(alloc, shared, HeldAs::Own),
            Block::Shared(shared) => take_numbers(alloc, shared, HeldAs::Copied),
            Block::Mixed(mixed) => Ok(mem::replace(&mut **mixed, Mixed::nothing(alloc))),
        }
    }
}

ghost use Rattle.std.specs.Prelude.{◌≡◌, IfOk, OnErr};
ghost use Rattle.std.specs.Arc.{arc_value};
ghost use Rattle.blocks.specs.Numbers.{number_in, whole_at};
ghost use Rattle.blocks.specs.Offsets.{Agree};
ghost use Rattle.blocks.specs.Blocks.{held_as, held_in};

/// Copies the numbers of a whole block, which are all of one kind.
fn take_all(alloc: Global, shared: &Whole, kind: HeldAs) -> Result<Mixed, AllocError>
    ensures { IfOk result (λ m. Agree (held_in m) (λ k. held_as kind (whole_at shared.now k))) }
{
    let numbers = shared.listed(alloc)?;
    let kinds = vec![in alloc; kind; numbers.list.len()]?;
    Ok(Mixed { numbers, kinds })
}

/// Takes numbers of one kind out of memory that can be shared. If others share them, they are
/// copied first, as before a write.
fn take_numbers(alloc: Global, shared: &mut Arc<Numbers>, kind: HeldAs) -> Result<Mixed, AllocError>
    ensures held { IfOk result (λ m.
        Agree (held_in m) (λ k. held_as kind (number_in (arc_value shared.old) k))) }
    ensures same { OnErr result (arc_value shared.new ≡ arc_value shared.old) }
{
    let kinds = vec![in alloc; kind; shared.list.len()]?;
    if let Some(numbers) = Arc::get_mut(shared) {
        let numbers = mem::replace(numbers, Numbers::none(alloc));
        return Ok(Mixed { numbers, kinds });
    }
    let numbers = shared.copied(alloc)?;
    Ok(Mixed { numbers, kinds })
}
