//! The numbers of arrays and of sections.

/// An array of a program, numbered in the order of declaration.
#[derive(Clone, Copy, PartialEq, Eq, PartialOrd, Ord, Hash, Debug)]
pub struct ArrayId {
    pub number: usize,
}

/// A section of a procedure. Parameters or arrays come first, then the sides of splits and the
/// pieces of `parts` in the order of the text.
#[derive(Clone, Copy, PartialEq, Eq, PartialOrd, Ord, Hash, Debug)]
pub struct SectionId {
    pub number: usize,
}
