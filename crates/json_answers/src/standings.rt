//! The tasks that may step.

ghost use Rattle.std.specs.Prelude.{◌≡◌, IfOk, OnOk, map};
ghost use Rattle.std.specs.String.{string_bytes};
ghost use Rattle.serde_json.specs.View.{view};
ghost use Rattle.step_trees.specs.Standing.{candidate_of};
ghost use Rattle.json_answers.specs.Candidates.{candidate_json, open_json};
ghost use Rattle.json_answers.specs.Pieces.{IsReadBack, line, list_by};

use crate::line::line_of;
use crate::text_places::{column_in, line_in, place_at};
use serde_json::{Value, json};
use std::alloc::{AllocError, Global};
use step_trees::leaf::Candidate;
use syntax::TextPlace;

/// Returns the object of the tasks that may step, each with its next statement. The number of a
/// task in this list, from 0, is the choice that names it:
/// `{"open":[{"column":5,"label":2,"line":5,"path":"0.1"}],"status":3}`.
pub fn open_object(
    alloc: Global,
    places: &[TextPlace],
    tasks: &[Candidate],
) -> Result<String, AllocError>
    ensures text { IfOk result (λ text. string_bytes text
        ≡ line (open_json places.now (map candidate_of tasks.now))) }
    ensures reads { OnOk result (IsReadBack (open_json places.now (map candidate_of tasks.now))) }
{
    let value = open_value(alloc, places, tasks)?;
    line_of(alloc, &value)
}

/// Returns the value of the tasks that may step.
fn open_value(alloc: Global, places: &[TextPlace], tasks: &[Candidate]) -> Result<Value, AllocError>
    ensures { IfOk result (λ v. view v ≡ open_json places.now (map candidate_of tasks.now)) }
{
    json!(in alloc; {"open": candidates_value(alloc, places, tasks)?, "status": 3u8})
}

/// Returns the list of tasks.
fn candidates_value(
    alloc: Global,
    places: &[TextPlace],
    tasks: &[Candidate],
) -> Result<Value, AllocError>
    ensures { IfOk result (λ v. view v
        ≡ list_by (candidate_json places.now) (map candidate_of tasks.now)) }
{
    let mut list = Vec::with_capacity(alloc, tasks.len())?;
    for task in tasks {
        list.push(candidate_value(alloc, places, task)?)?;
    }
    Ok(Value::Array(list))
}

/// Returns `{"column":5,"label":2,"line":5,"path":"0.1"}`.
fn candidate_value(
    alloc: Global,
    places: &[TextPlace],
    task: &Candidate,
) -> Result<Value, AllocError>
    ensures { IfOk result (λ v. view v ≡ candidate_json places.now (candidate_of task.now)) }
{
    let place = place_at(places, task.label);
    json!(in alloc; {
        "column": column_in(place),
        "label": task.label,
        "line": line_in(place),
        "path": format!(in alloc; "{}", task.path)?,
    })
}
