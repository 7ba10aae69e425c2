//! The cost of each label.

ghost use Rattle.std.specs.Prelude.{◌≡◌, IfOk, map};
ghost use Rattle.serde_json.specs.View.{view};
ghost use Rattle.types.specs.Contents.{FitsArrays};
ghost use Rattle.types.specs.Translation.{budget as budget_of, fault as fault_of, input as lists_in};
ghost use Rattle.types.specs.Translation.{outcome as outcome_of};
ghost use Rattle.types.specs.Typed.{code_of};
ghost use Rattle.trace_page.specs.Costs.{cost_json, if_ended, tables_json, unless_faulted as tables_unless};

use crate::told::list;
use cost::cost::{CostByLabel, measure_by_label};
use serde_json::{Value, json};
use std::alloc::{AllocError, Global};
use types::budget::Budget;
use types::fault::Fault;
use types::input::Input;
use types::outcome::Outcome;
use types::typed::Typed;

/// Returns the cost of a run by labels, for labels less than `rows`, as
/// `{"span":[0,1],"work":[0,1]}`. It is null if the run has faults or is stopped.
pub fn cost_value(
    alloc: Global,
    typed: &Typed,
    input: &Input,
    budget: Budget,
    rows: usize,
) -> Result<Value, AllocError>
    requires { FitsArrays (code_of typed.now).arrays (lists_in input.now) }
    ensures { IfOk result (λ v. view v
        ≡ cost_json (code_of typed.now) rows (lists_in input.now) (budget_of budget)) }
{
    let cost = measure_by_label(alloc, typed, input, budget, rows)?;
    shown(alloc, &cost)
}

/// Returns the tables of a run, unless it has faults or is stopped.
fn shown(alloc: Global, cost: &CostByLabel) -> Result<Value, AllocError>
    ensures { IfOk result (λ v. view v ≡ if_ended (outcome_of cost.now.costed.outcome)
        (tables_json cost.now.span.items cost.now.work.items)) }
{
    match &cost.costed.outcome {
        Outcome::Ended { faults, .. } => unless_faulted(alloc, faults, &cost.span, &cost.work),
        Outcome::Stopped => Ok(Value::Null),
    }
}

/// Returns the two tables of a run without faults.
fn unless_faulted(
    alloc: Global,
    faults: &[Fault],
    span: &[u64],
    work: &[u64],
) -> Result<Value, AllocError>
    ensures { IfOk result (λ v. view v
        ≡ tables_unless (map fault_of faults.now) (tables_json span.now work.now)) }
{
    match faults.first() {
        None => tables(alloc, span, work),
        Some(_) => Ok(Value::Null),
    }
}

/// Returns the two tables.
fn tables(alloc: Global, span: &[u64], work: &[u64]) -> Result<Value, AllocError>
    ensures { IfOk result (λ v. view v ≡ tables_json span.now work.now) }
{
    json!(in alloc; {"span": list(alloc, span)?, "work": list(alloc, work)?})
}
