//! Accesses by section and kind, each with its first label.

ghost use Rattle.std.specs.Prelude.{◌≡◌, ◌⊎◌, [], ◌∷◌, ◌++◌, map, IfOk, OnOk, IfSome};
ghost use Rattle.sections.specs.Member.{Member};
ghost use Rattle.sections.specs.Translation.{section as section_of};
ghost use Rattle.effects.specs.AccessSets.{HasAccess};
ghost use Rattle.effects.specs.Effects.{past_parts, past_split, renamed};
ghost use Rattle.effects.specs.Firsts.{AreFirsts, AreFirstsIn, IsAlikeAt, kept_in, IsPassed, IsPassedAs};
ghost use Rattle.effects.specs.Translation.{access as access_of};

use crate::access::Access;
use crate::accesses::Accesses;
use sections::id::SectionId;
use std::alloc::{AllocError, Global};

/// What is done to each section: among the accesses to it of one kind, the access with the smallest
/// label. Only these accesses decide which accesses clash, and which clash is reported first.
#[derive(Drop)]
pub struct Firsts {
    /// At most one item for each section and kind.
    items: Vec<Access>,
}

impl Firsts {
    /// Returns an empty list. It allocates no memory.
    pub fn new(alloc: Global) -> Firsts
        ensures { kept_in result ≡ [] }
    {
        Firsts {
            items: Vec::new(alloc),
        }
    }

    /// Returns the accesses that are kept.
    pub fn items(&self) -> &[Access]
        ensures { result.now ≡ self.now.items.items }
    {
        &self.items
    }

    /// Adds one access.
    pub fn add(&mut self, access: Access) -> Result<(), AllocError>
        ensures { OnOk result (AreFirstsIn (access_of access ∷ kept_in self.old)
            (kept_in self.new)) }
    {
        match self.place_of(access) {
            None => self.items.push(access)?,
            Some(place) => {
                let item = &mut self.items[place];
                item.label = item.label.min(access.label);
            }
        }
        Ok(())
    }

    /// Returns the index of the access to the same section and of the same kind, if there is one.
    fn place_of(&self, access: Access) -> Option<usize>
        ensures { IfSome result (IsAlikeAt self.now.items.items access) }
    {
        for (place, item) in self.items.iter().enumerate() {
            if item.section == access.section && item.write == access.write {
                return Some(place);
            }
        }
        None
    }

    /// Adds several accesses.
    pub fn add_all(&mut self, others: &[Access]) -> Result<(), AllocError>
        ensures { OnOk result (AreFirstsIn (map access_of others.now ++ kept_in self.old)
            (kept_in self.new)) }
    {
        for other in others {
            self.add(*other)?;
        }
        Ok(())
    }

    /// Returns these accesses in the names around a split.
    pub fn past_split(
        &self,
        alloc: Global,
        section: SectionId,
        left: SectionId,
        right: SectionId,
    ) -> Result<Firsts, AllocError>
        ensures { IfOk result (λ outside. AreFirstsIn
            (map (renamed (past_split section.number left.number right.number)) (kept_in self.now))
            (kept_in outside)) }
    {
        let mut outside = Firsts::new(alloc);
        for item in &self.items {
            outside.add(around(*item, section, left, right))?;
        }
        Ok(outside)
    }

    /// Returns these accesses in the names around a `parts`.
    pub fn past_parts(
        &self,
        alloc: Global,
        section: SectionId,
        piece: SectionId,
    ) -> Result<Firsts, AllocError>
        ensures { IfOk result (λ outside. AreFirstsIn
            (map (renamed (past_parts section.number piece.number)) (kept_in self.now))
            (kept_in outside)) }
    {
        self.past_split(alloc, section, piece, piece)
    }

    /// Returns what a procedure may do to its parameters, in the names around a call that passes
    /// these sections.
    pub fn past_call(
        alloc: Global,
        accesses: &Accesses,
        sections: &[SectionId],
    ) -> Result<Firsts, AllocError>
        ensures { IfOk result (λ outside. AreFirsts
            (IsPassed (HasAccess accesses.now) (map section_of sections.now)) (kept_in outside)) }
    {
        let mut outside = Firsts::new(alloc);
        for (number, section) in sections.iter().enumerate() {
            let parameter = SectionId { number };
            outside.add_passed(accesses, parameter, *section, false)?;
            outside.add_passed(accesses, parameter, *section, true)?;
        }
        Ok(outside)
    }

    /// Adds the first access of one kind to a parameter, as an access to the section that is
    /// passed.
    fn add_passed(
        &mut self,
        accesses: &Accesses,
        parameter: SectionId,
        section: SectionId,
        write: bool,
    ) -> Result<(), AllocError>
        ensures { OnOk result (AreFirsts
            (λ y. IsPassedAs (HasAccess accesses.now) parameter.number section.number write y
            ⊎ Member y (kept_in self.old)) (kept_in self.new)) }
    {
        match accesses.first(parameter, write) {
            None => Ok(()),
            Some(label) => self.add(Access {
                label,
                section,
                write,
            }),
        }
    }

    /// Returns a copy.
    pub fn copy(&self, alloc: Global) -> Result<Firsts, AllocError>
        ensures { IfOk result (λ copy. kept_in copy ≡ kept_in self.now) }
    {
        let mut items = Vec::new(alloc);
        items.extend_from_slice(&self.items)?;
        Ok(Firsts { items })
    }
}

/// Returns an access in the names around a split.
pub fn around(access: Access, section: SectionId, left: SectionId, right: SectionId) -> Access
    ensures { access_of result
        ≡ renamed (past_split section.number left.number right.number) (access_of access) }
{
    if access.section == left || access.section == right {
        Access { section, ..access }
    } else {
        access
    }
}
