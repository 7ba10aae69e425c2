//! The outcome of a run.

ghost use Rattle.std.specs.Prelude.{◌≡◌, IfOk, OnOk, map};
ghost use Rattle.std.specs.String.{string_bytes};
ghost use Rattle.serde_json.specs.View.{view};
ghost use Rattle.types.specs.Translation.{array, fault as fault_of, outcome as outcome_of};
ghost use Rattle.printing.specs.OutcomeText.{status_by};
ghost use Rattle.json_answers.specs.Pieces.{IsReadBack, line, list_by};
ghost use Rattle.json_answers.specs.Faults.{fault_json};
ghost use Rattle.json_answers.specs.Outcomes.{arrays_json, numbers_json, outcome_json};

use crate::faults::fault_value;
use crate::line::line_of;
use serde_json::{Map, Value, json};
use std::alloc::{AllocError, Global};
use syntax::TextPlace;
use types::code::Array;
use types::fault::Fault;
use types::outcome::Outcome;

/// Returns the object of an outcome, with the arrays in the form of an input. `declared` are the
/// arrays of the program, `places` the positions of its statements:
/// `{"arrays":{"a":[2,4]},"faults":[],"lines":[[7,8]],"status":0,"stopped":false}`, or
/// `{"status":3,"stopped":true}`.
pub fn outcome_object(
    alloc: Global,
    declared: &[Array],
    places: &[TextPlace],
    outcome: &Outcome,
) -> Result<String, AllocError>
    ensures text { IfOk result (λ text. string_bytes text
        ≡ line (outcome_json (map array declared.now) places.now (outcome_of outcome.now))) }
    ensures reads { OnOk result (IsReadBack
        (outcome_json (map array declared.now) places.now (outcome_of outcome.now))) }
{
    let value = outcome_value(alloc, declared, places, outcome)?;
    line_of(alloc, &value)
}

/// Returns the value of an outcome.
pub(crate) fn outcome_value(
    alloc: Global,
    declared: &[Array],
    places: &[TextPlace],
    outcome: &Outcome,
) -> Result<Value, AllocError>
    ensures { IfOk result (λ v. view v
        ≡ outcome_json (map array declared.now) places.now (outcome_of outcome.now)) }
{
    match outcome {
        Outcome::Stopped => json!(in alloc; {"status": 3u8, "stopped": true}),
        Outcome::Ended {
            arrays,
            lines,
            faults,
        } => json!(in alloc; {
            "arrays": arrays_value(alloc, declared, arrays)?,
            "faults": faults_value(alloc, places, faults)?,
            "lines": lines_value(alloc, lines)?,
            "status": status_of(faults),
            "stopped": false,
        }),
    }
}

/// Returns the exit status of a run that ended with these faults.
fn status_of(faults: &[Fault]) -> u8
    ensures { result ≡ status_by (map fault_of faults.now) }
{
    if faults.is_empty() { 0 } else { 2 }
}

/// Returns `{"a":[2,4]}`: the declared arrays, under their names.
fn arrays_value(
    alloc: Global,
    declared: &[Array],
    contents: &[Vec<i64>],
) -> Result<Value, AllocError>
    ensures { IfOk result (λ v. view v
        ≡ arrays_json (map array declared.now) (map (λ numbers. numbers.items) contents.now)) }
{
    let mut arrays = Map::new(alloc);
    for (array, numbers) in declared.iter().zip(contents) {
        let numbers = numbers_value(alloc, numbers)?;
        serde_json::put(&mut arrays, alloc, array.name.as_str(), numbers)?;
    }
    Ok(Value::Object(arrays))
}

/// Returns `[[7,8]]`: the printed lines.
fn lines_value(alloc: Global, lines: &[Vec<i64>]) -> Result<Value, AllocError>
    ensures { IfOk result (λ v. view v
        ≡ list_by numbers_json (map (λ numbers. numbers.items) lines.now)) }
{
    let mut list = Vec::with_capacity(alloc, lines.len())?;
    for line in lines {
        list.push(numbers_value(alloc, line)?)?;
    }
    Ok(Value::Array(list))
}

/// Returns `[7,8]`.
fn numbers_value(alloc: Global, numbers: &[i64]) -> Result<Value, AllocError>
    ensures { IfOk result (λ v. view v ≡ numbers_json numbers.now) }
{
    let mut list = Vec::with_capacity(alloc, numbers.len())?;
    for number in numbers {
        list.push(Value::from(*number))?;
    }
    Ok(Value::Array(list))
}

/// Returns the faults.
fn faults_value(alloc: Global, places: &[TextPlace], faults: &[Fault]) -> Result<Value, AllocError>
    ensures { IfOk result (λ v. view v
        ≡ list_by (fault_json places.now) (map fault_of faults.now)) }
{
    let mut list = Vec::with_capacity(alloc, faults.len())?;
    for fault in faults {
        list.push(fault_value(alloc, places, fault)?)?;
    }
    Ok(Value::Array(list))
}
