//! The results of a test, as one object.

ghost use Rattle.std.specs.Prelude.{◌≡◌, map, IfOk, OnOk};
ghost use Rattle.std.specs.String.{string_bytes};
ghost use Rattle.serde_json.specs.View.{view};
ghost use Rattle.json_answers.specs.Pieces.{IsReadBack, line, list_by, object_of};
ghost use Rattle.test_and_bench.specs.TestsObject.{judged_json, tests_json, tests_members};
ghost use Rattle.test_and_bench.specs.Trials.{failed_of, judged, passed_of};

use crate::counting::{failed_in, passed_in, status_of};
use crate::trial::Tested;
use json_answers::line::line_of;
use serde_json::{Value, json};
use std::alloc::{AllocError, Global};

/// Returns the object of these results:
/// `{"failed":0,"passed":1,"programs":[{"file":"a.afx","lines":"","passes":true}],"status":0}`.
pub(crate) fn tests_object(alloc: Global, tested: &[Tested]) -> Result<String, AllocError>
    ensures text { IfOk result
        (λ text. string_bytes text ≡ line (tests_json (map judged tested.now))) }
    ensures reads { OnOk result (IsReadBack (tests_json (map judged tested.now))) }
{
    let value = tests_value(alloc, tested)?;
    line_of(alloc, &value)
}

/// Returns the value of these results.
fn tests_value(alloc: Global, tested: &[Tested]) -> Result<Value, AllocError>
    ensures { IfOk result (λ v. view v ≡ tests_json (map judged tested.now)) }
{
    let programs = programs_value(alloc, tested)?;
    value_with(alloc, programs, tested)
}

/// Returns the value of these results, with this list of programs.
fn value_with(alloc: Global, programs: Value, tested: &[Tested]) -> Result<Value, AllocError>
    ensures { let js = map judged tested.now in IfOk result (λ v. view v
        ≡ object_of (tests_members (view programs) (passed_of js) (failed_of js))) }
{
    json!(in alloc; {
        "failed": failed_in(tested),
        "passed": passed_in(tested),
        "programs": programs,
        "status": status_of(tested),
    })
}

/// Returns the list of the results.
fn programs_value(alloc: Global, tested: &[Tested]) -> Result<Value, AllocError>
    ensures { IfOk result (λ v. view v ≡ list_by (λ t. judged_json (judged t)) tested.now) }
{
    let mut list = Vec::new(alloc);
    for one in tested {
        list.push(value_of(alloc, one)?)?;
    }
    Ok(Value::Array(list))
}

/// Returns `{"file":"a.afx","lines":"","passes":true}`.
fn value_of(alloc: Global, tested: &Tested) -> Result<Value, AllocError>
    ensures { IfOk result (λ v. view v ≡ judged_json (judged tested.now)) }
{
    json!(in alloc; {
        "file": tested.file.as_str(),
        "lines": tested.verdict.lines.as_str(),
        "passes": tested.verdict.passes,
    })
}
