//! The durations of a program's runs, as one object.

ghost use Rattle.std.specs.Prelude.{◌≡◌, IfOk, OnOk};
ghost use Rattle.std.specs.String.{string_bytes};
ghost use Rattle.serde_json.specs.View.{view};
ghost use Rattle.json_answers.specs.Pieces.{IsReadBack, line, or_null};
ghost use Rattle.test_and_bench.specs.TimesObject.{five_json, times_json};

use crate::times::{Timed, Times};
use cost::cost::Cost;
use json_answers::line::line_of;
use serde_json::{Value, json};
use std::alloc::{AllocError, Global};

/// Returns the object of the durations of runs, in microseconds, and of what one of them costs:
/// `{"copied_places":24,"on_all":{"median":5,"min":2},..,"work":61,"workers":4}`.
pub fn times_object(alloc: Global, timed: &Timed, cost: &Cost) -> Result<String, AllocError>
    ensures text { IfOk result (λ text. string_bytes text ≡ line (times_json timed.now cost.now)) }
    ensures reads { OnOk result (IsReadBack (times_json timed.now cost.now)) }
{
    let value = timed_value(alloc, timed, cost)?;
    line_of(alloc, &value)
}

/// Returns the value of the durations and the cost.
fn timed_value(alloc: Global, timed: &Timed, cost: &Cost) -> Result<Value, AllocError>
    ensures { IfOk result (λ v. view v ≡ times_json timed.now cost.now) }
{
    let on_all = value_if(alloc, timed.on_all)?;
    let on_one = value_of(alloc, timed.on_one)?;
    let on_two = value_if(alloc, timed.on_two)?;
    let serial = value_of(alloc, timed.serial)?;
    json!(in alloc; {
        "copied_places": cost.copied,
        "on_all": on_all,
        "on_one": on_one,
        "on_two": on_two,
        "serial": serial,
        "small_tasks": cost.small,
        "span": cost.span,
        "status": 0u8,
        "tasks": cost.tasks,
        "work": cost.work,
        "workers": timed.workers,
    })
}

/// Returns the value of runs, null if they aren't made.
fn value_if(alloc: Global, times: Option<Times>) -> Result<Value, AllocError>
    ensures { IfOk result (λ v. view v ≡ or_null five_json times) }
{
    match times {
        Some(times) => value_of(alloc, times),
        None => Ok(Value::Null),
    }
}

/// Returns `{"median":820,"min":803}`.
fn value_of(alloc: Global, times: Times) -> Result<Value, AllocError>
    ensures { IfOk result (λ v. view v ≡ five_json times) }
{
    json!(in alloc; {"median": times.median, "min": times.least})
}
