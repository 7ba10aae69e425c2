//! The origins of sections.

use crate::id::SectionId;

/// The origin of a section. The two sides of a split have consecutive numbers.
#[derive(Clone, Copy, PartialEq, Eq, Debug)]
pub enum Origin {
    /// An array, or a section parameter.
    Root,
    /// The left side of a split of `parent`: `l` in `split s at 2 as l, r { .. }`.
    Left { parent: SectionId },
    /// The right side of a split of `parent`: `r` in `split s at 2 as l, r { .. }`.
    Right { parent: SectionId },
    /// The piece of each turn of a `parts` of `parent`: `p` in `parts s by 4 as p, i { .. }`.
    Piece { parent: SectionId },
}
