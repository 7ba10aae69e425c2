//! The object of a race.

ghost use Rattle.std.specs.Prelude.{◌≡◌, IfOk, OnOk};
ghost use Rattle.std.specs.String.{string_bytes};
ghost use Rattle.serde_json.specs.View.{view};
ghost use Rattle.types.specs.Translation.{procedure as procedure_of, program};
ghost use Rattle.effects.specs.Translation.{access as access_of};
ghost use Rattle.race_checker.specs.Translation.{race as race_of};
ghost use Rattle.failures.specs.Races.{race_text};
ghost use Rattle.json_answers.specs.Pieces.{IsReadBack, line, object_of};
ghost use Rattle.json_answers.specs.Places.{place_at as place_of_label};
ghost use Rattle.json_answers.specs.Races.{access_json, accesses_json, members_at, race_json};
ghost use Rattle.json_answers.specs.Races.{told_members};

use crate::found::FoundRace;
use crate::line::line_of;
use crate::names::{kind_of, procedure_in, section_name};
use crate::refusals::{Why, why_of};
use crate::text_places::{column_in, line_in, place_at};
use crate::witnesses::witness_value;
use effects::access::Access;
use failures::message::emit_race;
use race_checker::race::Race;
use serde_json::{Value, json};
use std::alloc::{AllocError, Global};
use syntax::TextPlace;
use types::code::{Label, Procedure, Program};

/// Returns the object of a failure by a race: with both accesses, in the names of the procedure
/// that has it, its witness, and the position of the first access. An access has the form
/// `{"column":7,"kind":"write","label":3,"line":4,"section":"a"}`.
pub fn race_object(alloc: Global, file: &str, found: FoundRace<'_>) -> Result<String, AllocError>
    ensures text { IfOk result (λ text. string_bytes text ≡ line (race_json file.now found.entry.places.now
        (program found.entry.code.now) (race_of found.entry.race) found.entry.witness.now
        found.entry.reason.now)) }
    ensures reads { OnOk result (IsReadBack (race_json file.now found.entry.places.now
        (program found.entry.code.now) (race_of found.entry.race) found.entry.witness.now
        found.entry.reason.now)) }
{
    let value = race_value(alloc, file, found)?;
    line_of(alloc, &value)
}

/// Returns the value of a race.
fn race_value(alloc: Global, file: &str, found: FoundRace<'_>) -> Result<Value, AllocError>
    ensures { IfOk result (λ v. view v ≡ race_json file.now found.entry.places.now
        (program found.entry.code.now) (race_of found.entry.race) found.entry.witness.now
        found.entry.reason.now) }
{
    let accesses = accesses_value(alloc, found)?;
    let message = message_of_race(alloc, found.code, found.race)?;
    told_value(alloc, file, found, message, accesses)
}

/// Returns the value of a failure by a race, from its parts.
fn told_value(
    alloc: Global,
    file: &str,
    found: FoundRace<'_>,
    message: String,
    accesses: Value,
) -> Result<Value, AllocError>
    ensures { let label = found.entry.race.first.label in IfOk result (λ v. view v
        ≡ object_of (told_members file.now (place_of_label found.entry.places.now label) label
        (string_bytes message) (view accesses) found.entry.reason.now)) }
{
    let label = found.race.first.label;
    let at = At {
        file,
        place: place_at(found.places, label),
        label,
    };
    let why = why_of(alloc, found.reason)?;
    value_at(alloc, at, message, accesses, why)
}

/// Where a race is.
#[derive(Clone, Copy)]
struct At<'f> {
    file: &'f str,
    place: Option<TextPlace>,
    label: Label,
}

/// Returns the value of a failure by a race at this position, with what its explanation says.
fn value_at(
    alloc: Global,
    at: At<'_>,
    message: String,
    accesses: Value,
    why: Why,
) -> Result<Value, AllocError>
    ensures { IfOk result (λ v. view v ≡ object_of (members_at at.entry.file.now at.entry.place
        at.entry.label (string_bytes message) (view accesses) (view why.help) (view why.reason))) }
{
    json!(in alloc; {
        "code": "C1",
        "column": column_in(at.place),
        "file": at.file,
        "help": why.help,
        "label": at.label,
        "line": line_in(at.place),
        "message": message,
        "race": accesses,
        "reason": why.reason,
        "status": 1u8,
    })
}

/// Returns both accesses of a race, the procedure that has it, and its witness.
fn accesses_value(alloc: Global, found: FoundRace<'_>) -> Result<Value, AllocError>
    ensures { IfOk result (λ v. view v ≡ accesses_json found.entry.places.now
        (program found.entry.code.now) (race_of found.entry.race) found.entry.witness.now) }
{
    let FoundRace { places, race, .. } = found;
    let procedure = procedure_in(found.code, race.procedure);
    json!(in alloc; {
        "first": access_value(alloc, places, procedure, race.first)?,
        "procedure": procedure.name.as_str(),
        "second": access_value(alloc, places, procedure, race.second)?,
        "witness": witness_value(alloc, found)?,
    })
}

/// Returns an access, in the names of a procedure.
fn access_value(
    alloc: Global,
    places: &[TextPlace],
    procedure: &Procedure,
    access: Access,
) -> Result<Value, AllocError>
    ensures { IfOk result (λ v. view v
        ≡ access_json places.now (procedure_of procedure.now) (access_of access)) }
{
    let place = place_at(places, access.label);
    json!(in alloc; {
        "column": column_in(place),
        "kind": kind_of(access.write),
        "label": access.label,
        "line": line_in(place),
        "section": section_name(procedure, access.section),
    })
}

/// Returns the line of a race, without its line feed.
fn message_of_race(alloc: Global, code: &Program, race: Race) -> Result<String, AllocError>
    ensures { IfOk result (λ text. string_bytes text
        ≡ race_text (program code.now) (race_of race)) }
{
    let mut bytes = Vec::new(alloc);
    if emit_race(&mut bytes, code, race).is_err() {
        return Err(AllocError);
    }
    match String::from_utf8(bytes) {
        Ok(text) => Ok(text),
        // It isn't specified that the line is text; it is built from texts.
        Err(_) => Err(AllocError),
    }
}
