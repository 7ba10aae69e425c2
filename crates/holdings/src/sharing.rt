//! Copies of the places of windows.

ghost use Rattle.std.specs.Prelude.{◌≡◌, ◌≤◌, ◌<◌, ◌+◌, ◌%◌, OnOk, map};
ghost use Rattle.sections.specs.Covers.{has, is_in};
ghost use Rattle.sections.specs.Translation.{window as window_of};
ghost use Rattle.blocks.specs.Held.{IsThere, as_shared, numbers};
ghost use Rattle.holdings.specs.Pieces.{taking};
ghost use Rattle.holdings.specs.Rows.{held_in};

use crate::pieces::{block_number, cut, offsets};
use crate::rows::BlockRows;
use blocks::block::Block;
use sections::window::Window;
use std::alloc::AllocError;

impl BlockRows {
    /// Takes in copies of the places of windows, which must all be held by others.
    pub fn share_all(&mut self, source: &BlockRows, windows: &[Window]) -> Result<(), AllocError>
        requires { IsThere (has (map window_of windows.now)) (numbers (held_in source.now)) }
        ensures { OnOk result (held_in self.new ≡ taking (has (map window_of windows.now))
            (as_shared (numbers (held_in source.now))) (held_in self.old)) }
    {
        for window in windows {
            self.share_window(source, *window)?;
        }
        Ok(())
    }

    /// Takes in copies of the places of one window.
    fn share_window(&mut self, source: &BlockRows, window: Window) -> Result<(), AllocError>
        requires { IsThere (is_in (window_of window)) (numbers (held_in source.now)) }
        ensures { OnOk result (held_in self.new ≡ taking (is_in (window_of window))
            (as_shared (numbers (held_in source.now))) (held_in self.old)) }
    {
        let mut rest = window;
        'pieces: while rest.len > 0 {
            let (piece, behind) = cut(rest);
            self.share_piece(source, piece)?;
            rest = behind;
        }
        Ok(())
    }

    /// Takes in copies of a piece of one block.
    fn share_piece(&mut self, source: &BlockRows, piece: Window) -> Result<(), AllocError>
        requires some { 0 < piece.len }
        requires block { piece.at % 256 + piece.len ≤ 256 }
        requires there { IsThere (is_in (window_of piece)) (numbers (held_in source.now)) }
        ensures { OnOk result (held_in self.new ≡ taking (is_in (window_of piece))
            (as_shared (numbers (held_in source.now))) (held_in self.old)) }
    {
        let (array, number) = (piece.array.number, block_number(piece));
        let (from, to) = offsets(piece);
        let Some(theirs) = source.block(array, number) else {
            return Ok(());
        };
        self.make_room(array, number)?;
        let mut mine = self.swap(array, number, Block::Empty);
        mine.add_copies(self.alloc, theirs, from, to)?;
        self.swap(array, number, mine);
        Ok(())
    }
}
