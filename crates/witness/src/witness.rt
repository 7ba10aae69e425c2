//! The witness of a race.

ghost use Rattle.std.specs.Prelude.{◌≡◌, IfOk, IfSome, IsNone, IsSome, false, true};
ghost use Rattle.types.specs.Code.{End};
ghost use Rattle.types.specs.Translation.{codes as codes_of, procedure as procedure_as};
ghost use Rattle.types.specs.Translation.{program as program_of};
ghost use Rattle.types.specs.Typed.{code_of};
ghost use Rattle.race_checker.specs.Races.{IsRace, numbered};
ghost use Rattle.race_checker.specs.Translation.{race as race_of};
ghost use Rattle.witness.specs.Crossed.{MeetIn, both, directed, toward};
ghost use Rattle.witness.specs.Least.{IsLeast, IsLesserOf, all_covered};
ghost use Rattle.witness.specs.Witness.{IsShortest, IsWitness, PrefersFirst, PrefersThese, ShowIn};

use crate::aim::Aim;
use crate::crossing::{Crossing, Pairing, RunsTogether, crossing_in};
use crate::sharing::{Sharing, sharing_of};
use crate::step::WayStep;
use race_checker::race::Race;
use std::alloc::{AllocError, Global};
use types::code::{Procedure, Program, Stmt};
use types::ids::ProcedureId;
use types::laws::typed_programs_are_sound;
use types::typed::Typed;

/// Why two accesses may run together and share places. Both ways start at statements of one list of
/// the race's procedure. Each step is at a statement of the list that the previous step led to.
#[derive(Drop)]
pub struct Witness {
    /// Whether the two ways start at a statement and at one after it, or at a loop.
    pub meeting: RunsTogether,
    /// The way to the access that is left pending. Its last step is at the statement that makes the
    /// access.
    pub pending: Vec<WayStep>,
    /// The way to the other access.
    pub later: Vec<WayStep>,
    /// Whether the race's first access is the one that is left pending.
    pub first_pends: bool,
    /// Why the sections of the two share places.
    pub sharing: Sharing,
}

/// Returns a witness of a race that `check` reports, with the minimum number of steps. If both
/// directions have witnesses with that number of steps, the race's first access is the one left
/// pending. Returns `None` only if the two accesses are no race of the program.
pub fn witness_of(alloc: Global, typed: &Typed, race: Race) -> Result<Option<Witness>, AllocError>
    ensures witness { IfOk result (λ found.
        IfSome found (IsWitness (code_of typed.now) (race_of race))) }
    ensures shortest { IfOk result (λ found.
        IfSome found (IsShortest (code_of typed.now) (race_of race))) }
    ensures first { IfOk result (λ found.
        IfSome found (PrefersFirst (code_of typed.now) (race_of race))) }
    ensures found { IfOk result (λ found.
        IsRace (code_of typed.now) (race_of race) → IsSome found) }
{
    typed_programs_are_sound(typed);
    let code = typed.code();
    let Some(procedure) = procedure_of(code, race.procedure) else {
        return Ok(None);
    };
    let sections = &procedure.sections;
    let Some(sharing) = sharing_of(sections, race.first.section, race.second.section) else {
        return Ok(None);
    };
    let Some((first_pends, crossing)) = shortest(alloc, code, race, &procedure.body)? else {
        return Ok(None);
    };
    let Crossing {
        meeting,
        pending,
        later,
    } = crossing;
    Ok(Some(Witness {
        meeting,
        pending,
        later,
        first_pends,
        sharing,
    }))
}

/// Returns the procedure with a number. The number of `main` comes after all others.
fn procedure_of(program: &Program, procedure: ProcedureId) -> Option<&Procedure>
    ensures some { IfSome result (λ found. procedure_as found.now
        ≡ numbered (program_of program.now) procedure.number) }
    ensures none { IsNone result
        → (numbered (program_of program.now) procedure.number).body ≡ End }
{
    if procedure.number == program.procedures.len() {
        Some(&program.main)
    } else {
        program.procedures.get(procedure.number)
    }
}

/// Finds the shortest ways that meet, and returns whether the race's first access is the one left
/// pending.
fn shortest(
    alloc: Global,
    code: &Program,
    race: Race,
    body: &[Stmt],
) -> Result<Option<(bool, Crossing)>, AllocError>
    ensures least { IfOk result (λ found. IsLeast (λ d. both d.1) all_covered
        (ShowIn (program_of code.now) (codes_of body.now) (race_of race)) (directed found)) }
    ensures first { let r = race_of race in IfOk result (λ found. PrefersThese
        (MeetIn (program_of code.now) (codes_of body.now) r.first r.second) (directed found)) }
{
    let first = Aim::at(alloc, code, race.first)?;
    let second = Aim::at(alloc, code, race.second)?;
    let pairing = Pairing {
        alloc,
        code,
        first: &first,
        second: &second,
    };
    let forth = crossing_in(&pairing, body)?;
    let back = crossing_in(&pairing.swapped(), body)?;
    Ok(shorter_direction(forth, back))
}

/// Returns the shorter of two crossings, and whether it leaves the race's first access pending, as
/// `forth` does. Of two that are equally short it returns `forth`.
fn shorter_direction(forth: Option<Crossing>, back: Option<Crossing>) -> Option<(bool, Crossing)>
    ensures { IsLesserOf (λ d. both d.1) (toward true forth) (toward false back)
        (directed result) }
{
    match forth {
        None => match back {
            None => None,
            Some(crossing) => Some((false, crossing)),
        },
        Some(crossing) => match back {
            None => Some((true, crossing)),
            Some(other) => {
                if crossing.len() <= other.len() {
                    Some((true, crossing))
                } else {
                    Some((false, other))
                }
            }
        },
    }
}
