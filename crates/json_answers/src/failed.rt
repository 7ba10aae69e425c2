//! Objects of failures.

ghost use Rattle.std.specs.Prelude.{◌≡◌, IfOk};
ghost use Rattle.std.specs.String.{string_bytes};
ghost use Rattle.types.specs.Typed.{code_of};
ghost use Rattle.race_checker.specs.Translation.{race as race_of};
ghost use Rattle.witness.specs.Witness.{IsShortest, IsWitness};
ghost use Rattle.json_answers.specs.Failing.{TellsBare, TellsFailure, TellsPlaced, TellsRace};

use crate::found::FoundRace;
use crate::races::race_object;
use crate::reason::Reason;
use crate::refusals::refusal_object;
use crate::refused_program::RefusedProgram;
use crate::run_outcomes::places_in;
use command_line::request::Request;
use commands::explaining::{explanation, race_explanation};
use failures::failure::Failure;
use failures::least_race::LeastRace;
use files::file_source::FileSource;
use std::alloc::{AllocError, Global};
use witness::witness::Witness;

/// The line of a failure's object, and the explanation that it contains.
#[derive(Drop)]
pub struct ExplainedLine {
    pub line: String,
    pub explanation: String,
}

/// Returns the line of a failure of a request for the text of a program, with its explanation. The
/// witness of a race is searched for once, for both.
pub fn explained_line<F: FileSource>(
    alloc: Global,
    files: &mut F,
    request: Request<'_>,
    text: &str,
    failure: &Failure,
) -> Result<ExplainedLine, AllocError>
    ensures told { IfOk result (λ told. TellsFailure request.entry.file.now text.now failure.now
        (string_bytes told.line)) }
    ensures keeps { F.held files.new ≡ F.held files.old }
{
    match failure {
        Failure::Race(found) => explained_race(alloc, request, text, found),
        _ => {
            let explanation = explanation(alloc, files, request, text, failure)?;
            let refused = RefusedProgram {
                file: request.file,
                text,
                explanation: explanation.as_str(),
            };
            let line = refusal_line(alloc, refused, failure)?;
            Ok(ExplainedLine { line, explanation })
        }
    }
}

/// Returns the line of a race, with its explanation.
fn explained_race(
    alloc: Global,
    request: Request<'_>,
    text: &str,
    found: &LeastRace,
) -> Result<ExplainedLine, AllocError>
    ensures { IfOk result (λ told. TellsRace request.entry.file.now text.now found.now
        (string_bytes told.line)) }
{
    let witness = found.witness(alloc)?;
    let explanation = race_explanation(alloc, request, text, found, &witness)?;
    let refused = RefusedProgram {
        file: request.file,
        text,
        explanation: explanation.as_str(),
    };
    let line = race_line(alloc, refused, found, &witness)?;
    Ok(ExplainedLine { line, explanation })
}

/// Returns the line of a failure of a command on a program.
pub fn refusal_line(
    alloc: Global,
    refused: RefusedProgram<'_>,
    failure: &Failure,
) -> Result<String, AllocError>
    ensures { IfOk result (λ line. TellsFailure refused.entry.file.now refused.entry.text.now
        failure.now (string_bytes line)) }
{
    match failure {
        Failure::Race(found) => {
            let witness = found.witness(alloc)?;
            race_line(alloc, refused, found, &witness)
        }
        Failure::Types(_) => placed_line(alloc, refused, failure),
        _ => bare_line(alloc, refused, failure),
    }
}

/// Returns the line of a failure that isn't at a statement.
fn bare_line(
    alloc: Global,
    refused: RefusedProgram<'_>,
    failure: &Failure,
) -> Result<String, AllocError>
    ensures { IfOk result (λ line. TellsBare refused.entry.file.now failure.now
        (string_bytes line)) }
{
    let reason = Reason::of(alloc, refused.file, refused.explanation)?;
    refusal_object(alloc, refused.file, &[], failure, &reason)
}

/// Returns the line of a race, with this witness.
fn race_line(
    alloc: Global,
    refused: RefusedProgram<'_>,
    found: &LeastRace,
    witness: &Witness,
) -> Result<String, AllocError>
    requires shows { IsWitness (code_of found.now.typed) (race_of found.now.race) witness.now }
    requires shortest { IsShortest (code_of found.now.typed) (race_of found.now.race) witness.now }
    ensures { IfOk result (λ line. TellsRace refused.entry.file.now refused.entry.text.now found.now
        (string_bytes line)) }
{
    let reason = Reason::of(alloc, refused.file, refused.explanation)?;
    let places = places_in(alloc, refused.text)?;
    let found = FoundRace {
        places: &places,
        code: found.typed.code(),
        race: found.race,
        witness,
        reason: &reason,
    };
    race_object(alloc, refused.file, found)
}

/// Returns the line of a failure at a statement of a text's program.
fn placed_line(
    alloc: Global,
    refused: RefusedProgram<'_>,
    failure: &Failure,
) -> Result<String, AllocError>
    ensures { IfOk result (λ line. TellsPlaced refused.entry.file.now refused.entry.text.now
        failure.now (string_bytes line)) }
{
    let reason = Reason::of(alloc, refused.file, refused.explanation)?;
    let places = places_in(alloc, refused.text)?;
    refusal_object(alloc, refused.file, &places, failure, &reason)
}
