//! Lists of windows as sets of places.

ghost use Rattle.std.specs.Prelude.{◌≡◌, ◌∷◌, ◌++◌, IfOk, OnOk, map, true, ◌&&◌, not};
ghost use Rattle.std.specs.List.{filter};
ghost use Rattle.sections.specs.Covers.{has, has_places, is_cover};
ghost use Rattle.sections.specs.Cutting.{unless_empty};
ghost use Rattle.sections.specs.Joining.{is_ascending};
ghost use Rattle.sections.specs.Place.{Place as PlaceOf};
ghost use Rattle.sections.specs.Translation.{window as window_of};

use crate::window::Window;
use std::alloc::{AllocError, Global};

/// Returns the cover of some windows: their places as windows in ascending order, none empty and
/// none touching another. The windows can be in any order.
pub fn cover(alloc: Global, windows: &[Window]) -> Result<Vec<Window>, AllocError>
    ensures places { IfOk result (λ c. (q : PlaceOf)
        → has (map window_of c.items) q ≡ has (map window_of windows.now) q) }
    ensures form { IfOk result (λ c. is_cover (map window_of c.items) ≡ true) }
{
    let mut sorted = with_places(alloc, windows)?;
    sorted.sort_unstable();
    match sorted.as_slice() {
        [] => Ok(Vec::new(alloc)),
        [first, rest @ ..] => join(alloc, *first, rest),
    }
}

/// Returns the cover of the places of some windows that aren't places of others.
pub fn less(alloc: Global, windows: &[Window], others: &[Window]) -> Result<Vec<Window>, AllocError>
    ensures places { IfOk result (λ c. (q : PlaceOf) → has (map window_of c.items) q
        ≡ (has (map window_of windows.now) q && not (has (map window_of others.now) q))) }
    ensures form { IfOk result (λ c. is_cover (map window_of c.items) ≡ true) }
{
    let kept = cover(alloc, windows)?;
    let gone = cover(alloc, others)?;
    cut(alloc, &kept, &gone)
}

/// Returns the windows that have a place.
fn with_places(alloc: Global, windows: &[Window]) -> Result<Vec<Window>, AllocError>
    ensures { IfOk result (λ v. v.items ≡ filter (λ w. has_places (window_of w)) windows.now) }
{
    windows.iter().filter(|w| w.len > 0).copied().collect(alloc)
}

/// Returns the cover of one or more windows, which are in the order of their first places.
fn join(alloc: Global, first: Window, rest: &[Window]) -> Result<Vec<Window>, AllocError>
    requires { is_ascending (map window_of (first ∷ rest.now)) ≡ true }
    ensures places { IfOk result (λ c. (q : PlaceOf)
        → has (map window_of c.items) q ≡ has (map window_of (first ∷ rest.now)) q) }
    ensures form { IfOk result (λ c. is_cover (map window_of c.items) ≡ true) }
{
    let mut cover = Vec::new(alloc);
    let mut last = first;
    for window in rest {
        if last.meets(*window) {
            last = last.joined(*window);
        } else {
            cover.push(last)?;
            last = *window;
        }
    }
    cover.push(last)?;
    Ok(cover)
}

/// Returns the cover of the places of one cover that aren't places of another. Visits each window
/// once.
fn cut(alloc: Global, kept: &[Window], gone: &[Window]) -> Result<Vec<Window>, AllocError>
    requires kept { is_cover (map window_of kept.now) ≡ true }
    requires gone { is_cover (map window_of gone.now) ≡ true }
    ensures places { IfOk result (λ c. (q : PlaceOf) → has (map window_of c.items) q
        ≡ (has (map window_of kept.now) q && not (has (map window_of gone.now) q))) }
    ensures form { IfOk result (λ c. is_cover (map window_of c.items) ≡ true) }
{
    let mut left = Vec::new(alloc);
    let mut next = 0;
    'windows: for window in kept {
        let mut rest = *window;
        'cuts: while next < gone.len() && gone[next].ends_no_later(rest) {
            let taken = gone[next];
            add(&mut left, rest.before(taken))?;
            rest = rest.behind(taken);
            next += 1;
        }
        if next < gone.len() {
            rest = rest.before(gone[next]);
        }
        add(&mut left, rest)?;
    }
    Ok(left)
}

/// Adds a window unless it is empty.
fn add(windows: &mut Vec<Window>, window: Window) -> Result<(), AllocError>
    ensures { OnOk result (map window_of windows.new.items
        ≡ map window_of windows.old.items ++ unless_empty (window_of window)) }
{
    if window.len > 0 {
        windows.push(window)?;
    }
    Ok(())
}
