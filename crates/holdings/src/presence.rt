//! Whether places are held.

ghost use Rattle.std.specs.Prelude.{◌≡◌, ◌↔◌, ◌≤◌, ◌<◌, ◌+◌, ◌%◌, ◌&&◌, ℕ, IsTrue, is_some, map};
ghost use Rattle.std.specs.Prelude.{nat_eq, nat_le};
ghost use Rattle.std.specs.List.{list_any};
ghost use Rattle.sections.specs.Covers.{has, is_in};
ghost use Rattle.sections.specs.Translation.{place as place_of, window as window_of};
ghost use Rattle.blocks.specs.Blocks.{owned_at};
ghost use Rattle.blocks.specs.Held.{IsJustAt, IsThere, IsOnlyAt, owned, owned_number};
ghost use Rattle.holdings.specs.Rows.{StandsIn, block_in, held_in, held_of};
ghost use Rattle.holdings.specs.Wanted.{wanted};

use crate::pieces::{block_number, cut, offsets};
use crate::row::BlockRow;
use crate::rows::BlockRows;
use blocks::block::Block;
use blocks::numbers::PLACES;
use sections::window::{Place, Window};

/// What a test requires of places.
#[derive(Clone, Copy, PartialEq, Eq, Debug)]
pub enum Presence {
    /// They are owned.
    Owned,
    /// They are held.
    Held,
}

impl BlockRows {
    /// Returns whether all places of windows meet a requirement.
    pub fn has_all(&self, windows: &[Window], want: Presence) -> bool
        ensures { IsTrue result ↔ IsThere (has (map window_of windows.now))
            (wanted want (held_in self.now)) }
    {
        for window in windows {
            if !self.has_window(*window, want) {
                return false;
            }
        }
        true
    }

    /// Returns whether all places of a window meet a requirement.
    fn has_window(&self, window: Window, want: Presence) -> bool
        ensures { IsTrue result
            ↔ IsThere (is_in (window_of window)) (wanted want (held_in self.now)) }
    {
        let mut rest = window;
        'pieces: while rest.len > 0 {
            let (piece, behind) = cut(rest);
            if !self.has_piece(piece, want) {
                return false;
            }
            rest = behind;
        }
        true
    }

    /// Returns whether all places of a piece of one block meet a requirement.
    fn has_piece(&self, piece: Window, want: Presence) -> bool
        requires { piece.at % 256 + piece.len ≤ 256 }
        ensures { IsTrue result
            ↔ IsThere (is_in (window_of piece)) (wanted want (held_in self.now)) }
    {
        let (from, to) = offsets(piece);
        match self.block(piece.array.number, block_number(piece)) {
            None => from >= to,
            Some(block) => match want {
                Presence::Owned => block.owns_all(from, to),
                Presence::Held => block.holds_all(from, to),
            },
        }
    }
    /// Returns whether a place is owned.
    pub fn owns(&self, place: Place) -> bool
        ensures { result ≡ is_some (owned (held_in self.now) (place_of place)) }
    {
        match self.block(place.array.number, place.index / PLACES) {
            None => false,
            Some(block) => block.owns(place.index % PLACES),
        }
    }

    /// Returns whether the places of windows are owned, and no others.
    pub fn owns_just(&self, windows: &[Window]) -> bool
        ensures { IsTrue result
            ↔ IsJustAt (has (map window_of windows.now)) (owned (held_in self.now)) }
    {
        self.has_all(windows, Presence::Owned) && self.owns_only(windows)
    }

    /// Returns whether no places are owned except those of windows.
    fn owns_only(&self, windows: &[Window]) -> bool
        ensures { IsTrue result
            ↔ IsOnlyAt (has (map window_of windows.now)) (owned (held_in self.now)) }
    {
        for (array, row) in self.list.iter().enumerate() {
            if !row.owns_only(array, windows) {
                return false;
            }
        }
        true
    }
}

impl BlockRow {
    /// Returns whether the blocks of an array own only places of windows.
    fn owns_only(&self, array: usize, windows: &[Window]) -> bool
        ensures { IsTrue result ↔ ((j : ℕ) → StandsIn (has (map window_of windows.now)) array j
            (λ k. owned_number (held_of (block_in self.now j) k))) }
    {
        for (at, block) in self.blocks.iter().enumerate() {
            if !owns_only(array, self.first + at, block, windows) {
                return false;
            }
        }
        true
    }
}

/// Returns whether a block of an array owns only places of windows.
fn owns_only(array: usize, number: usize, block: &Block, windows: &[Window]) -> bool
    requires { number < 16384 }
    ensures { IsTrue result
        ↔ StandsIn (has (map window_of windows.now)) array number (owned_at block.now) }
{
    match block {
        Block::Empty | Block::Shared(_) | Block::WholeShared(_) => true,
        Block::Owned(_) | Block::WholeOwned(_) | Block::Mixed(_) => {
            owns_only_in(array, number, block, windows)
        }
    }
}

/// Does the same as `owns_only` for a block that may own something. Usually one window has all of
/// it.
fn owns_only_in(array: usize, number: usize, block: &Block, windows: &[Window]) -> bool
    requires { number < 16384 }
    ensures { IsTrue result
        ↔ StandsIn (has (map window_of windows.now)) array number (owned_at block.now) }
{
    let before = number * PLACES;
    let (low, high) = (block.start(), block.end());
    if have(windows, array, before + low, before + high) {
        return true;
    }
    for offset in low..high {
        let index = before + offset;
        if block.owns(offset) && !have(windows, array, index, index + 1) {
            return false;
        }
    }
    true
}

/// Returns whether one of some windows has all places of an array from `from` to before `to`.
fn have(windows: &[Window], array: usize, from: usize, to: usize) -> bool
    ensures { result ≡ list_any (λ w. nat_eq w.array.number array
        && (nat_le w.at from && nat_le to (w.at + w.len))) windows.now }
{
    windows.iter().any(|w| w.array.number == array && w.at <= from && to <= w.at + w.len)
}
