//! Windows, which are parts of arrays.

ghost use Rattle.std.specs.Prelude.{◌≡◌, ◌≤◌, ◌<◌, ◌↔◌, ◌⊎◌, ◌+◌, ◌-◌, ◌*◌, IsNone, IfSome, MatchOption};
ghost use Rattle.std.specs.Prelude.{Some, None};

use crate::id::ArrayId;

/// The maximum number of elements of all arrays of a program together.
pub const MOST_ELEMENTS: usize = 4_194_304;

/// `len` places of an array, starting at place `at`.
#[derive(Clone, Copy, PartialEq, Eq, PartialOrd, Ord, Debug)]
pub struct Window {
    pub array: ArrayId,
    pub at: usize,
    pub len: usize,
    ghost within: { at + len ≤ 4194304 },
}

/// A place of an array.
#[derive(Clone, Copy, PartialEq, Eq, PartialOrd, Ord, Debug)]
pub struct Place {
    pub array: ArrayId,
    pub index: usize,
}

impl Window {
    ghost use Rattle.sections.specs.Cutting.{ends_no_later as ends_no_later_as};
    ghost use Rattle.sections.specs.Cutting.{before as before_as, behind as behind_as};
    ghost use Rattle.sections.specs.Joining.{end_of, meets as meets_as, joined as joined_as};
    ghost use Rattle.sections.specs.Place.{place_in, piece_of};
    ghost use Rattle.sections.specs.Translation.{place as place_of, window as window_of};

    /// Returns the window without places.
    pub const NOWHERE: Window = Window {
        array: ArrayId { number: 0 },
        at: 0,
        len: 0,
    };

    /// Returns the window of a whole array.
    pub fn of_array(array: ArrayId, length: usize) -> Window
        requires { length ≤ 4194304 }
        ensures array { result.array ≡ array }
        ensures at { result.at ≡ 0 }
        ensures len { result.len ≡ length }
    {
        Window {
            array,
            at: 0,
            len: length,
        }
    }

    /// Returns the first `n` places and the rest, or `None` if there are fewer than `n` places.
    pub fn split(self, n: u64) -> Option<(Window, Window)>
        ensures none { IsNone result ↔ (self.len < n) }
        ensures array { IfSome result (λ r. (r.0.array ≡ self.array) × (r.1.array ≡ self.array)) }
        ensures at { IfSome result (λ r. (r.0.at ≡ self.at) × (r.1.at ≡ self.at + n)) }
        ensures len { IfSome result (λ r. (r.0.len ≡ n) × (r.1.len ≡ self.len - n)) }
    {
        let n = usize::try_from(n).ok()?;
        if n > self.len {
            return None;
        }
        let left = Window {
            array: self.array,
            at: self.at,
            len: n,
        };
        let right = Window {
            array: self.array,
            at: self.at + n,
            len: self.len - n,
        };
        Some((left, right))
    }

    /// Returns the piece with the number `turn`, from 0, if the window is cut into pieces of `size`
    /// places. The last piece may be shorter. Returns `None` if there is no such piece, also where the
    /// product of the two numbers has more than 64 bits. It allocates nothing.
    pub fn piece(self, size: u64, turn: u64) -> Option<Window>
        ensures piece { MatchOption result (piece_of (window_of self) size turn ≡ None)
            (λ w. piece_of (window_of self) size turn ≡ Some (window_of w)) }
        ensures none { IsNone result ↔ ((size ≡ 0) ⊎ (self.len ≤ size * turn)) }
    {
        let before = size.checked_mul(turn)?;
        if size == 0 || before >= self.len as u64 {
            return None;
        }
        let before = before as usize;
        let left = self.len - before;
        Some(Window {
            array: self.array,
            at: self.at + before,
            len: size.min(left as u64) as usize,
        })
    }

    /// Returns the place of the element `index`, or `None` if the window has no such element. It
    /// takes a few instructions, because runs call it for each access.
    #[inline(always)]
    pub fn place(self, index: i64) -> Option<Place>
        ensures { MatchOption result (place_in (window_of self) index ≡ None)
            (λ q. place_in (window_of self) index ≡ Some (place_of q)) }
    {
        if index < 0 {
            return None;
        }
        let index = index as usize;
        if index >= self.len {
            return None;
        }
        Some(Place {
            array: self.array,
            index: self.at + index,
        })
    }

    /// Returns the place after the last one.
    fn end(self) -> usize
        ensures { result ≡ end_of (window_of self) }
    {
        self.at + self.len
    }

    /// Returns whether a window that starts no earlier starts within this one or right after it.
    pub(crate) fn meets(self, later: Window) -> bool
        ensures { result ≡ meets_as (window_of self) (window_of later) }
    {
        self.array == later.array && later.at <= self.end()
    }

    /// Joins this window and one that meets it.
    pub(crate) fn joined(self, later: Window) -> Window
        ensures { window_of result ≡ joined_as (window_of self) (window_of later) }
    {
        let end = self.end().max(later.end());
        Window {
            array: self.array,
            at: self.at,
            len: end - self.at,
        }
    }

    /// Returns whether this window ends before another one or at the same place.
    pub(crate) fn ends_no_later(self, other: Window) -> bool
        ensures { result ≡ ends_no_later_as (window_of self) (window_of other) }
    {
        self.array < other.array || (self.array == other.array && self.end() <= other.end())
    }

    /// Returns the places of this window before another window starts.
    pub(crate) fn before(self, other: Window) -> Window
        ensures { window_of result ≡ before_as (window_of self) (window_of other) }
    {
        let len = if self.array == other.array {
            self.len.min(other.at.saturating_sub(self.at))
        } else if self.array < other.array {
            self.len
        } else {
            0
        };
        Window {
            array: self.array,
            at: self.at,
            len,
        }
    }

    /// Returns the places of this window after the end of another window, which ends no later.
    pub(crate) fn behind(self, other: Window) -> Window
        ensures { window_of result ≡ behind_as (window_of self) (window_of other) }
    {
        if self.array != other.array {
            return self;
        }
        let at = self.at.max(other.end());
        Window {
            array: self.array,
            at,
            len: self.end().saturating_sub(at),
        }
    }
}
