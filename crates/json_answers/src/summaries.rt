//! The numbers of a trace.

ghost use Rattle.std.specs.Prelude.{◌≡◌, IfOk, OnOk, map};
ghost use Rattle.std.specs.String.{string_bytes};
ghost use Rattle.serde_json.specs.View.{view};
ghost use Rattle.json_answers.specs.Pieces.{IsReadBack, line, list_by, natural};
ghost use Rattle.json_answers.specs.Summaries.{finish_json, summary_json};
ghost use Rattle.trace_numbers.specs.Tables.{gathered as gathered_of};

use crate::line::line_of;
use serde_json::{Value, json};
use std::alloc::{AllocError, Global};
use trace_numbers::faults::FinishFaults;
use trace_numbers::summary::TraceSummary;

/// Returns the object of the numbers of a trace of a run on so many workers:
/// `{"deepest_nest":1,"faults":[],"most_live_tasks":2,"replenishments":0,"span":4,"status":0,..}`.
pub fn summary_object(
    alloc: Global,
    summary: &TraceSummary,
    workers: u32,
) -> Result<String, AllocError>
    ensures text { IfOk result (λ text. string_bytes text ≡ line (summary_json workers summary.now)) }
    ensures reads { OnOk result (IsReadBack (summary_json workers summary.now)) }
{
    let value = summary_value(alloc, summary, workers)?;
    line_of(alloc, &value)
}

/// Returns the value of the numbers of a trace.
fn summary_value(alloc: Global, summary: &TraceSummary, workers: u32) -> Result<Value, AllocError>
    ensures { IfOk result (λ v. view v ≡ summary_json workers summary.now) }
{
    let faults = finishes_value(alloc, &summary.faults)?;
    let by_worker = counts_value(alloc, &summary.by_worker)?;
    json!(in alloc; {
        "deepest_nest": summary.deepest_nest,
        "faults": faults,
        "most_live_tasks": summary.most_tasks,
        "replenishments": summary.replenishings,
        "span": summary.span,
        "status": 0u8,
        "steals": summary.steals,
        "steps": summary.steps,
        "steps_by_worker": by_worker,
        "tasks": summary.tasks,
        "workers": workers,
    })
}

/// Returns `[{"faults":2,"finish":"0#1"}]`: the finishes that have gathered faults.
fn finishes_value(alloc: Global, finishes: &[FinishFaults]) -> Result<Value, AllocError>
    ensures { IfOk result (λ v. view v ≡ list_by finish_json (map gathered_of finishes.now)) }
{
    let mut list = Vec::new(alloc);
    for gathered in finishes {
        list.push(finish_value(alloc, gathered)?)?;
    }
    Ok(Value::Array(list))
}

/// Returns `{"faults":2,"finish":"0#1"}`.
fn finish_value(alloc: Global, gathered: &FinishFaults) -> Result<Value, AllocError>
    ensures { IfOk result (λ v. view v ≡ finish_json (gathered_of gathered.now)) }
{
    json!(in alloc; {
        "faults": gathered.faults,
        "finish": format!(in alloc; "{}", gathered.finish)?,
    })
}

/// Returns a list of numbers.
fn counts_value(alloc: Global, counts: &[usize]) -> Result<Value, AllocError>
    ensures { IfOk result (λ v. view v ≡ list_by natural counts.now) }
{
    let mut list = Vec::new(alloc);
    for count in counts {
        list.push(Value::from(*count))?;
    }
    Ok(Value::Array(list))
}
