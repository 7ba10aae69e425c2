//! Horizontal stretches.

ghost use Rattle.std.specs.Prelude.{◌≡◌, ◌≤◌, max};

/// The start and the end of something that is drawn, inclusive.
#[derive(Clone, Copy, PartialEq, Eq, Debug)]
pub struct Stretch {
    pub first: usize,
    pub last: usize,
    ghost in_order: { first ≤ last },
}

impl Stretch {
    /// Returns the stretch from `first` to `last`, or `first` alone if `last` comes before it.
    pub fn new(first: usize, last: usize) -> Stretch
        ensures first { result.first ≡ first }
        ensures last { result.last ≡ max first last }
    {
        Stretch {
            first,
            last: last.max(first),
        }
    }
}
