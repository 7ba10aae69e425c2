//! The steps of a path.

ghost use Rattle.std.specs.Prelude.{◌≡◌, IfOk, option_map};
ghost use Rattle.serde_json.specs.View.{view};
ghost use Rattle.types.specs.Translation.{program};
ghost use Rattle.json_answers.specs.Steps.{called_by, procedure_behind, step_in, step_json, step_word};
ghost use Rattle.json_answers.specs.Steps.{way_json};

use crate::names::{kind_of, procedure_in, section_name};
use crate::refusals::text_or_null;
use crate::text_places::{column_in, line_in, place_at};
use serde_json::{Value, json};
use std::alloc::{AllocError, Global};
use syntax::TextPlace;
use types::code::Program;
use types::ids::ProcedureId;
use witness::step::{Rule, WayStep};

/// Returns the steps of a path that starts in a procedure, down to an access that writes or reads.
pub(crate) fn way_value(
    alloc: Global,
    places: &[TextPlace],
    code: &Program,
    procedure: ProcedureId,
    write: bool,
    way: &[WayStep],
) -> Result<Value, AllocError>
    ensures { IfOk result (λ v. view v
        ≡ way_json places.now (program code.now) write procedure.number way.now) }
{
    let mut list = Vec::with_capacity(alloc, way.len())?;
    let mut here = procedure;
    for step in way {
        list.push(step_value(alloc, places, code, write, here, *step)?)?;
        here = behind(here, step.rule);
    }
    Ok(Value::Array(list))
}

/// Returns a step in a procedure, on the path to an access that writes or reads:
/// `{"calls":"f","column":3,"kind":"call","label":8,"line":16,"procedure":"main","section":"a"}`.
fn step_value(
    alloc: Global,
    places: &[TextPlace],
    code: &Program,
    write: bool,
    here: ProcedureId,
    step: WayStep,
) -> Result<Value, AllocError>
    ensures { IfOk result (λ v. view v
        ≡ step_json places.now (program code.now) write (step_in here.number step)) }
{
    let place = place_at(places, step.label);
    let procedure = procedure_in(code, here);
    json!(in alloc; {
        "calls": text_or_null(alloc, called_in(code, step.rule))?,
        "column": column_in(place),
        "kind": word_of(write, step.rule),
        "label": step.label,
        "line": line_in(place),
        "procedure": procedure.name.as_str(),
        "section": section_name(procedure, step.section),
    })
}

/// Returns the name of the procedure that a step calls.
fn called_in(code: &Program, rule: Rule) -> Option<&str>
    ensures { option_map (λ name. name.now) result ≡ called_by (program code.now) rule }
{
    match rule {
        Rule::Enter { procedure } => Some(procedure_in(code, procedure).name.as_str()),
        _ => None,
    }
}

/// Returns what a step does: what it enters, or the kind of the access.
fn word_of(write: bool, rule: Rule) -> &'static str
    ensures { result.now ≡ step_word write rule }
{
    match rule {
        Rule::Own => kind_of(write),
        Rule::Body => "if",
        Rule::Other => "else",
        Rule::Turn => "while",
        Rule::Side => "split",
        Rule::Piece => "parts",
        Rule::Enter { .. } => "call",
        Rule::Begin => "async",
        Rule::Await => "finish",
        Rule::Handler => "rescue",
    }
}

/// Returns the procedure in which a path continues after a step.
fn behind(here: ProcedureId, rule: Rule) -> ProcedureId
    ensures { result.number ≡ procedure_behind here.number rule }
{
    match rule {
        Rule::Enter { procedure } => procedure,
        _ => here,
    }
}
