//! Owned places taken in.

ghost use Rattle.std.specs.Prelude.{◌≡◌, ◌↔◌, IsTrue, OnOk, is_some};
ghost use Rattle.blocks.specs.Held.{AreApart, as_owned, over, owned};
ghost use Rattle.holdings.specs.Copied.{CopiesSplit, IsInArrays, as_count, paste_copies};
ghost use Rattle.holdings.specs.Rooms.{HasAllRoom, HasRoom};
ghost use Rattle.holdings.specs.Rows.{held_in};

use crate::row::BlockRow;
use crate::rows::BlockRows;
use blocks::block::Block;
use std::alloc::AllocError;

impl BlockRows {
    ghost use Rattle.std.specs.Prelude.{ℕ, ◌<◌, ◌≤◌, ◌&&◌, ◌%◌, None, Some, List, false, true};
    ghost use Rattle.std.specs.Prelude.{nat_eq, option_map, if◌then◌else◌};
    ghost use Rattle.sections.specs.Covers.{has, is_cover};
    ghost use Rattle.sections.specs.Place.{Place, Window};
    ghost use Rattle.blocks.specs.Blocks.{owned_at};
    ghost use Rattle.blocks.specs.Counts.{how_many};
    ghost use Rattle.blocks.specs.Held.{Owned as OwnedAs, first_of, owned_number};
    ghost use Rattle.blocks.specs.Offsets.{StandApart};
    ghost use Rattle.blocks.specs.declared.block.Block.{Block as BlockOf};
    ghost use Rattle.holdings.specs.Copied.{copied_into_array, split_where};
    ghost use Rattle.holdings.specs.Rooms.{HasRowRoom};
    ghost use Rattle.holdings.specs.Rows.{block_in, block_of, held_of, in_block, in_row};

    /// Returns whether no place is owned both by these rows and by others.
    pub fn are_apart(&self, others: &BlockRows) -> bool
        ensures { IsTrue result ↔ AreApart (owned (held_in others.now)) (owned (held_in self.now)) }
    {
        for (array, row) in others.list.iter().enumerate() {
            if !self.is_apart(array, row) {
                return false;
            }
        }
        true
    }

    /// Returns whether no place is owned both by these rows and by a row of others.
    fn is_apart(&self, array: usize, row: &BlockRow) -> bool
        ensures { IsTrue result ↔ ((j : ℕ) → StandApart
            (λ k. owned_number (held_of (block_in row.now j) k))
            (λ k. owned_number (held_of (block_of self.now.list.items array j) k))) }
    {
        for (at, theirs) in row.blocks.iter().enumerate() {
            if !self.is_free(array, row.first + at, theirs) {
                return false;
            }
        }
        true
    }

    /// Returns whether no place is owned both by these rows and by a block of others.
    fn is_free(&self, array: usize, number: usize, theirs: &Block) -> bool
        ensures { IsTrue result ↔ StandApart (owned_at theirs.now)
            (λ k. owned_number (held_of (block_of self.now.list.items array number) k)) }
    {
        match theirs {
            // Copies will be dropped.
            Block::Empty | Block::Shared(_) | Block::WholeShared(_) => true,
            Block::Owned(_) | Block::WholeOwned(_) | Block::Mixed(_) => {
                match self.block(array, number) {
                    None => true,
                    Some(mine) => mine.is_apart(theirs),
                }
            }
        }
    }

    /// Makes room for what others own, so pasting it needs no memory.
    pub fn make_room_for(&mut self, others: &BlockRows) -> Result<(), AllocError>
        ensures same { held_in self.new ≡ held_in self.old }
        ensures room { OnOk result (HasAllRoom self.new.list.items others.now.list.items) }
    {
        for (array, row) in others.list.iter().enumerate() {
            self.make_room_row(array, row)?;
        }
        Ok(())
    }

    /// Makes room for what a row of others owns.
    fn make_room_row(&mut self, array: usize, row: &BlockRow) -> Result<(), AllocError>
        ensures same { held_in self.new ≡ held_in self.old }
        ensures room { OnOk result (HasRowRoom self.new.list.items array row.now) }
        ensures keeps { (i j : ℕ) (b : BlockOf) → HasRoom self.old.list.items i j b
            → nat_eq i array ≡ false → HasRoom self.new.list.items i j b }
    {
        for (at, theirs) in row.blocks.iter().enumerate() {
            self.make_room_in(array, row.first + at, theirs)?;
        }
        Ok(())
    }

    /// Makes room for what a block of others owns.
    fn make_room_in(
        &mut self,
        array: usize,
        number: usize,
        theirs: &Block,
    ) -> Result<(), AllocError>
        requires { number < 16384 }
        ensures same { held_in self.new ≡ held_in self.old }
        ensures room { OnOk result (HasRoom self.new.list.items array number theirs.now) }
        ensures keeps { (i j : ℕ) (b : BlockOf) → HasRoom self.old.list.items i j b
            → nat_eq i array && nat_eq j number ≡ false → HasRoom self.new.list.items i j b }
    {
        match theirs {
            Block::Empty | Block::Shared(_) | Block::WholeShared(_) => Ok(()),
            Block::Owned(_) | Block::WholeOwned(_) | Block::Mixed(_) => {
                self.make_room(array, number)?;
                let mut mine = self.swap(array, number, Block::Empty);
                let room = mine.make_room(self.alloc, theirs);
                self.swap(array, number, mine);
                room
            }
        }
    }

    /// Takes in what others own, and returns how many places were copied. There must be room for
    /// it.
    pub fn paste_all(&mut self, others: BlockRows) -> u64
        requires { HasAllRoom self.old.list.items others.list.items }
        ensures pasted { held_in self.new
            ≡ over (as_owned (owned (held_in others))) (held_in self.old) }
        ensures copied { CopiesSplit (held_in self.old) (λ q. is_some (owned (held_in others) q))
            0 result }
        ensures counted { (n : ℕ) → IsInArrays n (owned (held_in others)) → as_count result
            ≡ as_count (paste_copies (held_in self.old) (owned (held_in others)) n) }
    {
        let mut copied = 0u64;
        let mut list = others.list;
        'rows: while let Some(row) = list.pop() {
            copied = copied.saturating_add(self.paste_row(list.len(), row));
        }
        copied
    }

    /// Takes in what a row of others owns, and returns how many places were copied.
    fn paste_row(&mut self, array: usize, row: BlockRow) -> u64
        requires { HasRowRoom self.old.list.items array row }
        ensures pasted { (q : Place) → held_in self.new q ≡ (if nat_eq q.array array
            then first_of (option_map OwnedAs (owned_number (in_row row q.index)))
            (held_in self.old q)
            else held_in self.old q) }
        ensures copied { (lengths : ℕ → ℕ) (ws : List Window)
            → ((q : Place) → nat_eq q.array array ≡ true → (held_in self.old q ≡ None → ⊥)
            → q.index < lengths array)
            → is_cover ws ≡ true
            → ((q : Place) → nat_eq q.array array ≡ true
            → has ws q ≡ is_some (owned_number (in_row row q.index)))
            → result ≤ split_where (λ q. nat_eq q.array array) lengths ws }
        ensures counted { as_count result ≡ as_count (copied_into_array (held_in self.old)
            (λ q. owned_number (in_row row q.index)) array) }
        ensures keeps { (i j : ℕ) (b : BlockOf) → HasRoom self.old.list.items i j b
            → nat_eq i array ≡ false → HasRoom self.new.list.items i j b }
    {
        let mut copied = 0u64;
        let first = row.first;
        let mut blocks = row.blocks;
        'pasting: while let Some(theirs) = blocks.pop() {
            copied = copied.saturating_add(self.paste_in(array, first + blocks.len(), theirs));
        }
        copied
    }

    /// Takes in what a block of others owns, and returns how many places were copied.
    fn paste_in(&mut self, array: usize, number: usize, theirs: Block) -> u64
        requires { HasRoom self.old.list.items array number theirs }
        ensures pasted { (q : Place) → held_in self.new q ≡ (if in_block array number q
            then first_of (option_map OwnedAs (owned_at theirs (q.index % 256)))
            (held_in self.old q)
            else held_in self.old q) }
        ensures moved { ((q : Place) → in_block array number q ≡ true
            → (held_in self.old q ≡ None → ⊥) → owned_at theirs (q.index % 256) ≡ None → ⊥)
            → result ≡ 0 }
        ensures counted { (((q : Place) → in_block array number q ≡ true
            → (held_in self.old q ≡ None → ⊥) → owned_at theirs (q.index % 256) ≡ None → ⊥) → ⊥)
            → result ≡ how_many (owned_at theirs) 256 }
        ensures keeps { (i j : ℕ) (b : BlockOf) → HasRoom self.old.list.items i j b
            → nat_eq i array && nat_eq j number ≡ false → HasRoom self.new.list.items i j b }
    {
        match theirs {
            Block::Empty | Block::Shared(_) | Block::WholeShared(_) => 0,
            theirs => {
                let mut mine = self.swap(array, number, Block::Empty);
                let copied = mine.paste(self.alloc, theirs);
                self.swap(array, number, mine);
                copied
            }
        }
    }
}
