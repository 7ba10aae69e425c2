//! The race check.

ghost use Rattle.std.specs.Prelude.{◌≡◌, ◌≤◌, IfErr, IfOk, None, OnOk, fold, length, map};
ghost use denote.Param.Send.{IsSync};
ghost use Rattle.types.specs.Translation.{program as program_as};
ghost use Rattle.types.specs.Typed.{code_of};
ghost use Rattle.effects.specs.Sound.{IsSound};
ghost use Rattle.effects.specs.Summarized.{AreSummaries};
ghost use Rattle.race_checker.specs.Clash.{IsAccepted};
ghost use Rattle.race_checker.specs.Races.{IsRace, IsRaceIn, LeastOf};
ghost use Rattle.race_checker.specs.Refusal.{IsRefusalOf};
ghost use Rattle.race_checker.specs.Search.{lesser_of};
ghost use Rattle.race_checker.specs.Translation.{found};

use crate::accepted::Accepted;
use crate::race::{Race, lesser};
use crate::walk::{found_in, procedure_of};
use effects::summaries::{Summaries, summarize};
use rayon::prelude::*;
use std::alloc::{AllocError, Global};
use std::thread::Threads;
use types::code::Program;
use types::ids::ProcedureId;
use types::laws::typed_programs_are_sound;
use types::typed::Typed;

/// Why a program isn't accepted.
#[derive(Drop)]
pub enum Refused {
    /// C1: two accesses clash, and this is the least clash. For example, 2 and 3 clash in
    /// `main { array a: int[1]; async { a[0] = 1; } a[0] = 2; }`.
    Race {
        race: Race,
        /// The program, for its names.
        typed: Typed,
    },
    /// C2: out of memory, which can happen for `main { }` too.
    OutOfMemory,
}

/// Returns the program as accepted, or its least race: in a procedure, called or not, or in `main`.
pub fn check<R: Threads + Sync>(rt: &R, alloc: Global, typed: Typed) -> Result<Accepted, Refused>
    ensures accepted { IfOk result (λ accepted. accepted.typed ≡ typed) }
    ensures no_clash { OnOk result (IsAccepted (code_of typed)) }
    ensures refused { IfErr result (IsRefusalOf typed) }
{
    typed_programs_are_sound(&typed);
    match summarize(alloc, &typed) {
        Err(_) => Err(Refused::OutOfMemory),
        Ok(summaries) => judge(rt, alloc, typed, summaries),
    }
}

/// Decides as `check` does, with the summaries of the program.
fn judge<R: Threads + Sync>(
    rt: &R,
    alloc: Global,
    typed: Typed,
    summaries: Summaries,
) -> Result<Accepted, Refused>
    requires sound { IsSound (code_of typed) }
    requires summaries { AreSummaries (code_of typed) summaries }
    ensures accepted { IfOk result (λ accepted. accepted.typed ≡ typed) }
    ensures no_clash { OnOk result (IsAccepted (code_of typed)) }
    ensures refused { IfErr result (IsRefusalOf typed) }
{
    match least_race(rt, alloc, typed.code(), &summaries) {
        Err(_) => Err(Refused::OutOfMemory),
        Ok(least) => match least {
            Some(race) => Err(Refused::Race { race, typed }),
            None => Ok(Accepted { typed, summaries }),
        },
    }
}

/// The minimum number of procedures for one thread: a few small procedures aren't worth a thread.
const FEW: usize = 16;

/// Returns the least clash of a program: the least one of its procedures and `main`, which threads
/// share.
fn least_race<R: Threads + Sync>(
    rt: &R,
    alloc: Global,
    code: &Program,
    summaries: &Summaries,
) -> Result<Option<Race>, AllocError>
    requires sound { IsSound (program_as code.now) }
    requires summaries { AreSummaries (program_as code.now) summaries.now }
    ensures { IfOk result (λ race. LeastOf (IsRace (program_as code.now)) (found race)) }
{
    let races = (0..code.procedures.len() + 1)
        .into_par_iter()
        .with_min_len(FEW)
        .map(
            |number: usize| -> Result<Option<Race>, AllocError>
                requires shared { IsSync R.row }
                requires sound { IsSound (program_as code.now) }
                requires summaries { AreSummaries (program_as code.now) summaries.now }
                requires procedure { number ≤ length (program_as code.now).procedures }
                ensures { IfOk result (λ race. LeastOf (IsRaceIn (program_as code.entry.now) number)
                    (found race)) }
            { least_race_in(rt, alloc, code, summaries, ProcedureId { number }) },
        )
        .collect::<Result<Vec<Option<Race>>, AllocError>>(rt, alloc)??;
    Ok(least_of(&races))
}

/// Returns the least of the clashes that were found.
fn least_of(races: &[Option<Race>]) -> Option<Race>
    ensures { found result ≡ fold lesser_of None (map found races.now) }
{
    let mut least = None;
    for race in races {
        least = lesser(least, *race);
    }
    least
}

/// Returns the least clash of a procedure, or of `main`.
fn least_race_in<R: Threads + Sync>(
    rt: &R,
    alloc: Global,
    code: &Program,
    summaries: &Summaries,
    procedure: ProcedureId,
) -> Result<Option<Race>, AllocError>
    requires sound { IsSound (program_as code.now) }
    requires summaries { AreSummaries (program_as code.now) summaries.now }
    requires procedure { procedure.number ≤ length (program_as code.now).procedures }
    ensures { IfOk result (λ race. LeastOf (IsRaceIn (program_as code.now) procedure.number)
        (found race)) }
{
    let body = &procedure_of(code, procedure).body;
    let found = found_in(rt, alloc, code, summaries, procedure, body)?;
    Ok(found.race)
}
