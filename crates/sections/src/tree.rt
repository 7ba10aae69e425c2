//! The sections of a procedure.

ghost use Rattle.std.specs.Prelude.{◌≡◌, map, [], ◌∷◌, ◌++◌, ◌+◌, ◌<◌, length, IfOk, OnOk, OnErr};
ghost use Rattle.std.specs.Prelude.{IsNone, IfSome, false};
ghost use Rattle.sections.specs.Origins.{Root, Left, Right, Piece, origin_of, IsNumbered};
ghost use Rattle.sections.specs.Overlap.{overlap as overlap_of};
ghost use Rattle.sections.specs.Translation.{section, origin as origin_as};

use crate::id::SectionId;
use crate::origin::Origin;
use std::alloc::{AllocError, Global};

/// The origin of each section of a procedure. Sections are numbered from 0 in the order in which
/// they are added, the left side of a split right before its right side.
#[derive(Drop)]
pub struct SectionTree {
    origins: Vec<Origin>,
    pub ghost numbered: { IsNumbered (map origin_as origins.items) },
}

impl SectionTree {
    ghost use Rattle.sections.specs.Tree.{origins_of};

    /// Returns a tree without sections. It allocates nothing.
    pub fn new(alloc: Global) -> SectionTree
        ensures { origins_of result ≡ [] }
    {
        SectionTree {
            origins: Vec::new(alloc),
        }
    }

    /// Returns the number of sections.
    pub fn len(&self) -> usize
        ensures { result ≡ length (origins_of self.now) }
    {
        self.origins.len()
    }

    /// Returns where a section comes from.
    pub fn origin(&self, section: SectionId) -> Origin
        requires { section.number < length (origins_of self.now) }
        ensures { origin_as result ≡ origin_of (origins_of self.now) section.number }
    {
        self.origins[section.number]
    }

    /// Adds an array or a parameter.
    pub fn root(&mut self) -> Result<SectionId, AllocError>
        ensures number { IfOk result (λ s. s.number ≡ length (origins_of self.old)) }
        ensures ok { OnOk result (origins_of self.new ≡ origins_of self.old ++ Root ∷ []) }
        ensures err { OnErr result (origins_of self.new ≡ origins_of self.old) }
    {
        let number = self.origins.len();
        self.origins.push(Origin::Root)?;
        Ok(SectionId { number })
    }

    /// Adds the two sides of a new split of a section.
    pub fn split(&mut self, parent: SectionId) -> Result<(SectionId, SectionId), AllocError>
        requires { parent.number < length (origins_of self.old) }
        ensures left { IfOk result (λ r. r.0.number ≡ length (origins_of self.old)) }
        ensures right { IfOk result (λ r. r.1.number ≡ length (origins_of self.old) + 1) }
        ensures ok { OnOk result (origins_of self.new ≡ origins_of self.old
            ++ Left parent.number ∷ Right parent.number ∷ []) }
        ensures err { OnErr result (origins_of self.new ≡ origins_of self.old) }
    {
        let number = self.origins.len();
        let sides = [Origin::Left { parent }, Origin::Right { parent }];
        self.origins.extend_from_slice(&sides)?;
        let left = SectionId { number };
        let right = SectionId { number: number + 1 };
        Ok((left, right))
    }

    /// Adds the piece of a new `parts` of a section. It is one section, whose window differs from turn
    /// to turn.
    pub fn part(&mut self, parent: SectionId) -> Result<SectionId, AllocError>
        requires { parent.number < length (origins_of self.old) }
        ensures number { IfOk result (λ s. s.number ≡ length (origins_of self.old)) }
        ensures ok { OnOk result (origins_of self.new ≡ origins_of self.old ++ Piece parent.number ∷ []) }
        ensures err { OnErr result (origins_of self.new ≡ origins_of self.old) }
    {
        let number = self.origins.len();
        self.origins.push(Origin::Piece { parent })?;
        Ok(SectionId { number })
    }

    /// Returns whether two sections can share a place. Walks up from the section with the larger
    /// number until both are the same or are obviously disjoint. It allocates nothing.
    pub fn overlap(&self, a: SectionId, b: SectionId) -> bool
        requires first { a.number < length (origins_of self.now) }
        requires second { b.number < length (origins_of self.now) }
        ensures { result ≡ overlap_of (origins_of self.now) a.number b.number }
    {
        let mut low = a.number.min(b.number);
        let mut high = a.number.max(b.number);
        'walk: while low < high {
            let Some(parent) = self.above(low, high) else {
                return false;
            };
            if parent < low {
                high = low;
                low = parent;
            } else {
                high = parent;
            }
        }
        true
    }

    /// Returns the parent of the section with the larger number. Returns `None` if the two sections
    /// are obviously disjoint: the one with the larger number is a root, or it is the right side
    /// next to its left side.
    fn above(&self, low: usize, high: usize) -> Option<usize>
        requires order { low < high }
        requires there { high < length (origins_of self.now) }
        ensures none { IsNone result → overlap_of (origins_of self.now) low high ≡ false }
        ensures smaller { IfSome result (λ p. p < high) }
        ensures same { IfSome result (λ p. overlap_of (origins_of self.now) low high
            ≡ overlap_of (origins_of self.now) low p) }
    {
        match self.origin(SectionId { number: high }) {
            Origin::Root => None,
            Origin::Left { parent } => Some(parent.number),
            Origin::Piece { parent } => Some(parent.number),
            Origin::Right { parent } => {
                if low + 1 == high {
                    None
                } else {
                    Some(parent.number)
                }
            }
        }
    }
}
