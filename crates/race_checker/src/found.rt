//! What the walk finds of statements.

ghost use Rattle.std.specs.Prelude.{◌≡◌, ◌<◌, [], All, IfOk, None, length, map, nat_eq, not};
ghost use Rattle.std.specs.List.{filter};
ghost use Rattle.sections.specs.Tree.{origins_of};
ghost use Rattle.effects.specs.Effects.{past_parts, past_split};
ghost use Rattle.effects.specs.Firsts.{kept_in};
ghost use Rattle.effects.specs.Translation.{access as access_of};
ghost use Rattle.race_checker.specs.Found.{IsBoth, IsInFront, IsRenamed, IsWithOwn, IsInTurn};
ghost use Rattle.race_checker.specs.Found.{IsInTurns};
ghost use Rattle.race_checker.specs.Translation.{found as race_found};

use crate::race::{Race, lesser};
use crate::search::least_clash;
use effects::access::Access;
use effects::firsts::Firsts;
use sections::id::SectionId;
use sections::tree::SectionTree;
use std::alloc::{AllocError, Global};
use types::ids::ProcedureId;

/// What statements do, what they leave pending, and their least clash.
#[derive(Drop)]
pub(crate) struct Found {
    pub all: Firsts,
    pub pending: Firsts,
    pub race: Option<Race>,
}

impl Found {
    /// Returns what is found of statements that do nothing.
    pub fn nothing(alloc: Global) -> Found
        ensures all { kept_in result.all ≡ [] }
        ensures pending { kept_in result.pending ≡ [] }
        ensures race { race_found result.race ≡ None }
    {
        Found {
            all: Firsts::new(alloc),
            pending: Firsts::new(alloc),
            race: None,
        }
    }

    /// Combines two blocks, one of which is run.
    pub fn or(mut self, other: Found) -> Result<Found, AllocError>
        ensures { IfOk result (IsBoth self other) }
    {
        self.all.add_all(other.all.items())?;
        self.pending.add_all(other.pending.items())?;
        self.race = lesser(self.race, other.race);
        Ok(self)
    }

    /// Puts one more statement in front of a list: what the statement leaves pending meets all of
    /// the list.
    pub fn with_first(
        mut self,
        sections: &SectionTree,
        procedure: ProcedureId,
        here: Found,
    ) -> Result<Found, AllocError>
        requires pending { All (λ x. x.section.number < length (origins_of sections.now))
            here.pending.items.items }
        requires all { All (λ x. x.section.number < length (origins_of sections.now))
            self.all.items.items }
        ensures { IfOk result (IsInFront (origins_of sections.now) procedure.number here self) }
    {
        let crossing = least_clash(sections, procedure, here.pending.items(), self.all.items());
        self.all.add_all(here.all.items())?;
        self.pending.add_all(here.pending.items())?;
        self.race = lesser(crossing, lesser(here.race, self.race));
        Ok(self)
    }

    /// Adds a statement's own accesses to what is found of its blocks.
    pub fn with_own(mut self, own: &[Access]) -> Result<Found, AllocError>
        ensures { IfOk result (IsWithOwn (map access_of own.now) self) }
    {
        self.all.add_all(own)?;
        Ok(self)
    }

    /// Makes a loop of these statements: what one iteration leaves pending meets all of the next
    /// iteration.
    pub fn in_turn(mut self, sections: &SectionTree, procedure: ProcedureId) -> Found
        requires pending { All (λ x. x.section.number < length (origins_of sections.now))
            self.pending.items.items }
        requires all { All (λ x. x.section.number < length (origins_of sections.now))
            self.all.items.items }
        ensures { IsInTurn (origins_of sections.now) procedure.number self result }
    {
        let crossing = least_clash(sections, procedure, self.pending.items(), self.all.items());
        self.race = lesser(crossing, self.race);
        self
    }

    /// Makes a turn of a `parts` of these statements: what one turn leaves pending meets all of a
    /// later turn, except that the pieces of two turns are apart.
    pub fn in_turns(
        mut self,
        alloc: Global,
        sections: &SectionTree,
        procedure: ProcedureId,
        piece: SectionId,
    ) -> Result<Found, AllocError>
        requires pending { All (λ x. x.section.number < length (origins_of sections.now))
            self.pending.items.items }
        requires all { All (λ x. x.section.number < length (origins_of sections.now))
            self.all.items.items }
        ensures { IfOk result
            (IsInTurns (origins_of sections.now) procedure.number piece.number self) }
    {
        let own = to_piece(alloc, self.pending.items(), piece)?;
        let later = beside_piece(alloc, self.all.items(), piece)?;
        let of_piece = least_clash(sections, procedure, &own, &later);
        let others = beside_piece(alloc, self.pending.items(), piece)?;
        let of_others = least_clash(sections, procedure, &others, self.all.items());
        self.race = lesser(lesser(of_piece, of_others), self.race);
        Ok(self)
    }

    /// Makes a split of these statements, in the names around it.
    pub fn past_split(
        self,
        alloc: Global,
        section: SectionId,
        left: SectionId,
        right: SectionId,
    ) -> Result<Found, AllocError>
        ensures { IfOk result
            (IsRenamed (past_split section.number left.number right.number) self) }
    {
        Ok(Found {
            all: self.all.past_split(alloc, section, left, right)?,
            pending: self.pending.past_split(alloc, section, left, right)?,
            race: self.race,
        })
    }

    /// Makes a `parts` of these statements, in the names around it.
    pub fn past_parts(
        self,
        alloc: Global,
        section: SectionId,
        piece: SectionId,
    ) -> Result<Found, AllocError>
        ensures { IfOk result (IsRenamed (past_parts section.number piece.number) self) }
    {
        self.past_split(alloc, section, piece, piece)
    }

    /// Makes an async of these statements: everything that they do is left pending.
    pub fn in_async(mut self, alloc: Global) -> Result<Found, AllocError>
        ensures all { IfOk result (λ found. found.all ≡ self.all) }
        ensures pending { IfOk result (λ found. kept_in found.pending ≡ kept_in self.all) }
        ensures race { IfOk result (λ found. found.race ≡ self.race) }
    {
        self.pending = self.all.copy(alloc)?;
        Ok(self)
    }

    /// Makes a finish of these statements: it leaves nothing pending.
    pub fn in_finish(mut self, alloc: Global) -> Found
        ensures all { result.all ≡ self.all }
        ensures pending { kept_in result.pending ≡ [] }
        ensures race { result.race ≡ self.race }
    {
        self.pending = Firsts::new(alloc);
        self
    }
}

/// Returns the accesses to the piece of a `parts`.
fn to_piece(alloc: Global, accesses: &[Access], piece: SectionId) -> Result<Vec<Access>, AllocError>
    ensures { IfOk result (λ v. v.items
        ≡ filter (λ x. nat_eq x.section.number piece.number) accesses.now) }
{
    accesses
        .iter()
        .filter(|x| x.section.number == piece.number)
        .copied()
        .collect(alloc)
}

/// Returns the accesses to other sections than the piece.
fn beside_piece(
    alloc: Global,
    accesses: &[Access],
    piece: SectionId,
) -> Result<Vec<Access>, AllocError>
    ensures { IfOk result (λ v. v.items
        ≡ filter (λ x. not (nat_eq x.section.number piece.number)) accesses.now) }
{
    accesses
        .iter()
        .filter(|x| x.section.number != piece.number)
        .copied()
        .collect(alloc)
}
