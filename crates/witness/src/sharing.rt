//! Why two sections of one procedure share places.

ghost use Rattle.std.specs.Prelude.{◌≡◌, ◌↔◌, ◌<◌, IfSome, IsSome, IsTrue, length, true};
ghost use Rattle.sections.specs.Overlap.{overlap as overlap_of};
ghost use Rattle.sections.specs.Tree.{origins_of};
ghost use Rattle.witness.specs.Sharing.{IsNearest, LiesIn, Shares};

use sections::id::SectionId;
use sections::origin::Origin;
use sections::tree::SectionTree;

/// The reason why two sections may share places.
#[derive(Clone, Copy, PartialEq, Eq, Debug)]
pub enum Sharing {
    /// They are the same section.
    Same,
    /// The first is a part of the second.
    FirstIsPart,
    /// The second is a part of the first.
    SecondIsPart,
    /// They lie in sides or pieces of this section, but not in the two sides of one split. It is the
    /// nearest section of which both are parts.
    OfSplits { section: SectionId },
}

/// Returns why two sections may share places, or `None` if they share none.
pub fn sharing_of(sections: &SectionTree, first: SectionId, second: SectionId) -> Option<Sharing>
    ensures why { IfSome result (Shares (origins_of sections.now) first.number second.number) }
    ensures some { overlap_of (origins_of sections.now) first.number second.number ≡ true
        → IsSome result }
{
    if first.number == second.number {
        return Some(Sharing::Same);
    }
    let end = sections.len();
    if first.number >= end || second.number >= end {
        return None;
    }
    if lies_in(sections, first, second) {
        return Some(Sharing::FirstIsPart);
    }
    if lies_in(sections, second, first) {
        return Some(Sharing::SecondIsPart);
    }
    if !sections.overlap(first, second) {
        return None;
    }
    let section = nearest(sections, first, second);
    Some(Sharing::OfSplits { section })
}

/// Returns whether a section is another section or a part of it, by a walk up from it.
fn lies_in(sections: &SectionTree, inner: SectionId, outer: SectionId) -> bool
    requires { inner.number < length (origins_of sections.now) }
    ensures { IsTrue result ↔ LiesIn (origins_of sections.now) inner.number outer.number }
{
    if inner.number == outer.number {
        return true;
    }
    match sections.origin(inner) {
        Origin::Root => false,
        Origin::Left { parent } => lies_in(sections, parent, outer),
        Origin::Right { parent } => lies_in(sections, parent, outer),
        Origin::Piece { parent } => lies_in(sections, parent, outer),
    }
}

/// Returns the nearest section of which both are parts, if they overlap.
#[cycle(nearest)]
fn nearest(sections: &SectionTree, first: SectionId, second: SectionId) -> SectionId
    requires first { first.number < length (origins_of sections.now) }
    requires second { second.number < length (origins_of sections.now) }
    ensures { overlap_of (origins_of sections.now) first.number second.number ≡ true
        → IsNearest (origins_of sections.now) first.number second.number result.number }
{
    if first.number == second.number {
        first
    } else if first.number < second.number {
        nearest_above(sections, first, second)
    } else {
        nearest_above(sections, second, first)
    }
}

/// Does the same for two sections in order: walks up from the one with the larger number.
#[cycle(nearest)]
fn nearest_above(sections: &SectionTree, low: SectionId, high: SectionId) -> SectionId
    requires order { low.number < high.number }
    requires there { high.number < length (origins_of sections.now) }
    ensures { overlap_of (origins_of sections.now) low.number high.number ≡ true
        → IsNearest (origins_of sections.now) low.number high.number result.number }
{
    match sections.origin(high) {
        Origin::Root => high,
        Origin::Left { parent } => nearest(sections, parent, low),
        Origin::Right { parent } => nearest(sections, parent, low),
        Origin::Piece { parent } => nearest(sections, parent, low),
    }
}
