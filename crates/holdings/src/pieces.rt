//! Windows cut at the ends of blocks.

ghost use Rattle.std.specs.Prelude.{◌≡◌, ◌+◌, ◌/◌, ◌%◌};
ghost use Rattle.sections.specs.Translation.{window as window_of};
ghost use Rattle.holdings.specs.Pieces.{behind_piece, piece};

use blocks::numbers::PLACES;
use sections::window::Window;

/// Splits a window into its places in the block of its first place, and the places after them.
pub fn cut(window: Window) -> (Window, Window)
    ensures first { window_of result.0 ≡ piece (window_of window) }
    ensures rest { window_of result.1 ≡ behind_piece (window_of window) }
{
    let len = window.len.min(PLACES - window.at % PLACES);
    let first = Window {
        array: window.array,
        at: window.at,
        len,
    };
    let rest = Window {
        array: window.array,
        at: window.at + len,
        len: window.len - len,
    };
    (first, rest)
}

/// Returns the number of the block in which a window starts.
pub fn block_number(window: Window) -> usize
    ensures { result ≡ window.at / 256 }
{
    window.at / PLACES
}

/// Returns the offsets of a piece in its block: the first one, and the one after the last.
pub fn offsets(piece: Window) -> (usize, usize)
    ensures from { result.0 ≡ piece.at % 256 }
    ensures to { result.1 ≡ piece.at % 256 + piece.len }
{
    let from = piece.at % PLACES;
    (from, from + piece.len)
}
