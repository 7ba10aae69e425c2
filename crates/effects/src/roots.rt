//! The parameter, or the array, that contains each section of a procedure.

ghost use Rattle.std.specs.Prelude.{◌≡◌, ℕ, IfOk, map};
ghost use Rattle.sections.specs.Overlap.{beyond, root_of};
ghost use Rattle.sections.specs.Translation.{section as section_of, origin as origin_as};
ghost use Rattle.sections.specs.Tree.{origins_of};
ghost use Rattle.effects.specs.ListedRoots.{listed_root};

use sections::id::SectionId;
use sections::origin::Origin;
use sections::tree::SectionTree;
use std::alloc::{AllocError, Global};

/// The roots of the sections of a tree, by section number.
#[derive(Drop)]
pub struct Roots {
    roots: Vec<SectionId>,
}

impl Roots {
    ghost use Rattle.effects.specs.Roots.{root_in};

    /// Returns the roots of a tree.
    pub fn new(alloc: Global, tree: &SectionTree) -> Result<Roots, AllocError>
        ensures { IfOk result (λ roots. (s : ℕ) → root_in roots s ≡ root_of (origins_of tree.now) s) }
    {
        let mut roots: Vec<SectionId> = Vec::new(alloc);
        for number in 0..tree.len() {
            let section = SectionId { number };
            let root = next_root(&roots, section, tree.origin(section));
            roots.push(root)?;
        }
        Ok(Roots { roots })
    }

    /// Returns the root of a section.
    pub fn of(&self, section: SectionId) -> SectionId
        ensures { result.number ≡ root_in self.now section.number }
    {
        root_at(&self.roots, section)
    }
}

/// Returns the root of the next section after those that are listed.
fn next_root(roots: &[SectionId], section: SectionId, origin: Origin) -> SectionId
    ensures { result.number
        ≡ beyond section.number (listed_root (map section_of roots.now)) (origin_as origin) }
{
    match origin {
        Origin::Root => section,
        Origin::Left { parent } => root_at(roots, parent),
        Origin::Right { parent } => root_at(roots, parent),
        Origin::Piece { parent } => root_at(roots, parent),
    }
}

/// Returns the root of a section from the list.
fn root_at(roots: &[SectionId], section: SectionId) -> SectionId
    ensures { result.number ≡ listed_root (map section_of roots.now) section.number }
{
    match roots.get(section.number) {
        Some(root) => *root,
        None => section,
    }
}
