//! Faults of a run.

ghost use Rattle.std.specs.Prelude.{◌≡◌, IfOk};
ghost use Rattle.serde_json.specs.View.{view};
ghost use Rattle.types.specs.Translation.{fault as fault_of};
ghost use Rattle.json_answers.specs.Faults.{fault_code, fault_json, raised_number};

use crate::text_places::{column_in, line_in, place_at};
use serde_json::{Value, json};
use std::alloc::{AllocError, Global};
use syntax::TextPlace;
use types::fault::{Fault, FaultKind};

/// Returns the value of a fault, and where its statement starts:
/// `{"column":11,"kind":"F6","label":3,"line":2,"number":7,"path":"0.1"}`.
pub(crate) fn fault_value(
    alloc: Global,
    places: &[TextPlace],
    fault: &Fault,
) -> Result<Value, AllocError>
    ensures { IfOk result (λ v. view v ≡ fault_json places.now (fault_of fault.now)) }
{
    let place = place_at(places, fault.label);
    json!(in alloc; {
        "column": column_in(place),
        "kind": code_of(&fault.kind),
        "label": fault.label,
        "line": line_in(place),
        "number": number_of(&fault.kind),
        "path": format!(in alloc; "{}", fault.path)?,
    })
}

/// Returns the code, `F1` to `F7`.
fn code_of(kind: &FaultKind) -> &'static str
    ensures { result.now ≡ fault_code kind.now }
{
    match kind {
        FaultKind::Index => "F1",
        FaultKind::Overflow => "F2",
        FaultKind::ZeroDivisor => "F3",
        FaultKind::OutOfElement => "F4",
        FaultKind::SplitPoint => "F5",
        FaultKind::PieceSize => "F7",
        FaultKind::Raised(_) => "F6",
    }
}

/// Returns the number of a `fault` statement.
fn number_of(kind: &FaultKind) -> Option<i64>
    ensures { result ≡ raised_number kind.now }
{
    match kind {
        FaultKind::Raised(number) => Some(*number),
        _ => None,
    }
}
