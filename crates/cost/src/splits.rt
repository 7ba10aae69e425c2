//! Places in blocks that aren't wholly inside what moves.

ghost use Rattle.std.specs.Prelude.{◌≡◌, ◌+◌, IfOk, map};
ghost use Rattle.sections.specs.Translation.{window as window_of};
ghost use Rattle.types.specs.Translation.{program as program_of};
ghost use Rattle.holdings.specs.Copied.{split_in as split_of_all, split_places as split_of};
ghost use Rattle.cost.specs.Copied.{length_of};

use sections::window::Window;
use std::alloc::AllocError;
use types::code::Program;

/// Returns the number of places, in the windows of a cover, in blocks of 256 that aren't wholly
/// inside their window.
pub fn split_in(code: &Program, cover: &[Window]) -> Result<usize, AllocError>
    ensures { IfOk result (λ n. n
        ≡ split_of_all (length_of (program_of code.now)) (map window_of cover.now)) }
{
    let mut all = 0usize;
    for window in cover {
        let length = length_in(code, *window);
        all = plus(all, split_places(length, *window))?;
    }
    Ok(all)
}

/// Returns the sum of two numbers. Fails as if memory ran out if it is too large.
pub fn plus(first: usize, second: usize) -> Result<usize, AllocError>
    ensures { IfOk result (λ n. n ≡ first + second) }
{
    first.checked_add(second).ok_or(AllocError)
}

/// Returns the number of places of a window's array.
fn length_in(code: &Program, window: Window) -> usize
    ensures { result ≡ length_of (program_of code.now) window.array.number }
{
    match code.arrays.get(window.array.number) {
        Some(array) => array.length,
        None => 0,
    }
}

/// Returns the number of places of a window, in an array of this length, in blocks that aren't
/// wholly inside the window. These are all places except those from the start of its first whole
/// block to the end of its last one. The last block of an array may be shorter.
fn split_places(length: usize, window: Window) -> usize
    ensures { result ≡ split_of (λ a. length) (window_of window) }
{
    let end = window.at + window.len;
    let from = (window.at + 255) / 256 * 256;
    let to = if length <= end { end } else { end / 256 * 256 };
    window.len - to.saturating_sub(from)
}
