//! The object of an outcome.

ghost use Rattle.std.specs.Prelude.{◌≡◌, map, IfErr, IfOk};
ghost use Rattle.std.specs.String.{string_bytes};
ghost use Rattle.types.specs.Translation.{array, outcome as outcome_in};
ghost use Rattle.json_answers.specs.Objects.{ArePlaces, TellsOutcome};

use crate::object_line::ObjectLine;
use crate::outcomes::outcome_object;
use commands::showing::status;
use failures::failure::Failure;
use statement_places::statement_places;
use std::alloc::{AllocError, Global};
use syntax::TextPlace;
use syntax::parser::MOST_BYTES;
use types::code::Array;
use types::outcome::Outcome;

/// Returns the object of an outcome of a text's program, whose arrays are `declared`.
pub fn outcome_told(
    alloc: Global,
    text: &str,
    declared: &[Array],
    outcome: &Outcome,
) -> Result<ObjectLine, Failure>
    ensures object { IfOk result (λ t. TellsOutcome (map array declared.now) (outcome_in outcome.now)
        text.now (string_bytes t.line) t.status) }
    ensures why { IfErr result (λ f. f ≡ Failure.NoMemory) }
{
    let Ok(places) = places_in(alloc, text) else {
        return Err(Failure::NoMemory);
    };
    match outcome_object(alloc, declared, &places, outcome) {
        Ok(line) => Ok(ObjectLine {
            line,
            status: status(outcome),
        }),
        Err(_) => Err(Failure::NoMemory),
    }
}

/// Returns where the statements of a text's program start. A longer text spells no program: it is an
/// error.
pub(crate) fn places_in(alloc: Global, text: &str) -> Result<Vec<TextPlace>, AllocError>
    ensures { IfOk result (λ places. ArePlaces text.now places.items) }
{
    if text.len() > MOST_BYTES {
        return Err(AllocError);
    }
    match statement_places(alloc, text) {
        Ok(places) => Ok(places),
        Err(_) => Err(AllocError),
    }
}
