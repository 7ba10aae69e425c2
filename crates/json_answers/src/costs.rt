//! The cost of a run.

ghost use Rattle.std.specs.Prelude.{◌≡◌, IfOk, OnOk};
ghost use Rattle.std.specs.String.{string_bytes};
ghost use Rattle.serde_json.specs.View.{view};
ghost use Rattle.json_answers.specs.Costs.{cost_json};
ghost use Rattle.json_answers.specs.Pieces.{IsReadBack, line};

use crate::line::line_of;
use cost::cost::Cost;
use serde_json::{Value, json};
use std::alloc::{AllocError, Global};

/// Returns the object of the cost of a run that ended without faults, in steps:
/// `{"copied_places":24,"deepest_nest":3,"finishes":2,"small_tasks":8,"span":17,"status":0,"tasks":8,
/// "work":61}`.
pub fn cost_object(alloc: Global, cost: &Cost) -> Result<String, AllocError>
    ensures text { IfOk result (λ text. string_bytes text ≡ line (cost_json cost.now)) }
    ensures reads { OnOk result (IsReadBack (cost_json cost.now)) }
{
    let value = cost_value(alloc, cost)?;
    line_of(alloc, &value)
}

/// Returns the value of the cost of a run.
fn cost_value(alloc: Global, cost: &Cost) -> Result<Value, AllocError>
    ensures { IfOk result (λ v. view v ≡ cost_json cost.now) }
{
    json!(in alloc; {
        "copied_places": cost.copied,
        "deepest_nest": cost.deepest_nest,
        "finishes": cost.finishes,
        "small_tasks": cost.small,
        "span": cost.span,
        "status": 0u8,
        "tasks": cost.tasks,
        "work": cost.work,
    })
}
