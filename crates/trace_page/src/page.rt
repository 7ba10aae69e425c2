//! The page in which the run of a trace can be explored.

ghost use Rattle.std.specs.Prelude.{◌≡◌, ◌++◌, IfErr, IfOk, map};
ghost use Rattle.std.specs.String.{string_bytes};
ghost use Rattle.serde_json.specs.View.{view};
ghost use Rattle.types.specs.Contents.{FitsArrays};
ghost use Rattle.types.specs.Translation.{array as array_of};
ghost use Rattle.trace_page.specs.Pages.{IsData, IsNoTrace, IsPage, IsReplayed, layout_json, parts_json};
ghost use Rattle.trace_page.specs.Pages.{described_json, program_json, trace_json, traced};
ghost use Rattle.trace_page.specs.Pieces.{list_by};
ghost use Rattle.trace_page.specs.Programs.{array_json};

use crate::after::AFTER;
use crate::before::BEFORE;
use crate::births::births_of;
use crate::costs::cost_value;
use crate::escaped::escaped;
use crate::layouts::{chain, finish_rows_value, kinds};
use crate::programs::{arrays_value, header_value, initial_value, places_in, summary_value};
use crate::replayed::changes_value;
use crate::tasks::{task_rows_value, tasks_value};
use crate::told::list;
use event_worlds::error::ReplayError;
use event_worlds::job::WeightedJob;
use events::event::Event;
use race_checker::accepted::Accepted;
use serde_json::{Value, json};
use std::alloc::{AllocError, Global};
use syntax::TextPlace;
use trace_layout::layout::{Layout, layout_of};
use trace_numbers::summary::{TraceSummary, summarize};
use trace_text::header::Header;
use types::code::{Array, Label};
use types::input::Input;

/// A trace of a program's run on an input.
#[derive(Clone, Copy)]
pub struct TracedRun<'t> {
    /// The program's file, as it was named.
    pub name: &'t str,
    pub text: &'t str,
    /// The trace's file, as it was named.
    pub trace: &'t str,
    pub accepted: &'t Accepted,
    pub input: &'t Input,
    pub header: &'t Header,
    pub events: &'t [Event],
    /// The label of the statement at each event, or 0.
    pub labels: &'t [Label],
}

/// Returns the page of a trace.
pub fn page(alloc: Global, run: TracedRun<'_>) -> Result<String, ReplayError>
    requires { FitsArrays (traced run).code.arrays (traced run).input }
    ensures page { IfOk result (λ text. IsPage (traced run.entry) (string_bytes text)) }
    ensures refused { IfErr result (IsNoTrace (traced run.entry)) }
{
    let Header { budget, w0, .. } = *run.header;
    let Some(job) = WeightedJob::new(alloc, run.accepted, run.input, budget, w0) else {
        unreachable!()
    };
    match changes_value(job, run.events, run.labels) {
        Ok(changes) => match page_with(alloc, run, changes) {
            Ok(text) => Ok(text),
            Err(_) => Err(ReplayError::NoMemory),
        },
        Err(error) => Err(error),
    }
}

/// Returns the page of a trace whose events change this.
fn page_with(alloc: Global, run: TracedRun<'_>, changes: Value) -> Result<String, AllocError>
    requires fits { FitsArrays (traced run).code.arrays (traced run).input }
    requires replayed { IsReplayed (traced run) (view changes) }
    ensures { IfOk result (λ text. IsPage (traced run.entry) (string_bytes text)) }
{
    let data = data_value(alloc, run, changes)?;
    let text = data.to_string(alloc)?;
    let inside = escaped(alloc, &text)?;
    joined(alloc, BEFORE, &inside, AFTER)
}

/// Returns three texts, one after the other.
fn joined(alloc: Global, before: &str, inside: &str, after: &str) -> Result<String, AllocError>
    ensures { IfOk result (λ text. string_bytes text ≡ before.now ++ (inside.now ++ after.now)) }
{
    let mut text = String::from_str(alloc, before)?;
    text.push_str(inside)?;
    text.push_str(after)?;
    Ok(text)
}

/// Returns the data of a page.
fn data_value(alloc: Global, run: TracedRun<'_>, changes: Value) -> Result<Value, AllocError>
    requires fits { FitsArrays (traced run).code.arrays (traced run).input }
    requires replayed { IsReplayed (traced run) (view changes) }
    ensures { IfOk result (λ v. IsData (traced run.entry) (view v)) }
{
    let places = places_in(alloc, run.text)?;
    let layout = layout_of(alloc, run.events)?;
    let births = births_of(alloc, run.events)?;
    let summary = summarize(alloc, run.events)?;
    let finish_rows = finish_rows_value(alloc, &layout.finishes.all)?;
    let task_rows = task_rows_value(alloc, &births, run.events)?;
    let drawn = layout_value(alloc, &layout, finish_rows, task_rows)?;
    let program = program_value(alloc, run, &places)?;
    let tasks = tasks_value(alloc, &births, run.events)?;
    let trace = trace_value(alloc, run, &summary, tasks, changes)?;
    whole(alloc, drawn, program, trace)
}

/// Returns the data with these parts.
fn whole(alloc: Global, layout: Value, program: Value, trace: Value) -> Result<Value, AllocError>
    ensures { IfOk result (λ v. view v ≡ parts_json (view layout) (view program) (view trace)) }
{
    json!(in alloc; {"format": 1u8, "layout": layout, "program": program, "trace": trace})
}

/// Returns the part on the program.
fn program_value(
    alloc: Global,
    run: TracedRun<'_>,
    places: &[TextPlace],
) -> Result<Value, AllocError>
    requires { FitsArrays (traced run).code.arrays (traced run).input }
    ensures { IfOk result (λ v. view v ≡ program_json (traced run.entry) places.now) }
{
    let typed = run.accepted.typed();
    let rows = places.len() + 1;
    let cost = cost_value(alloc, typed, run.input, run.header.budget, rows)?;
    described(alloc, run, &typed.code().arrays, cost, places)
}

/// Returns the part on a program with these arrays, this cost, and statements at these positions.
fn described(
    alloc: Global,
    run: TracedRun<'_>,
    arrays: &[Array],
    cost: Value,
    places: &[TextPlace],
) -> Result<Value, AllocError>
    ensures { IfOk result (λ v. view v ≡ described_json (traced run.entry)
        (list_by array_json (map array_of arrays.now)) (view cost) places.now) }
{
    json!(in alloc; {
        "arrays": arrays_value(alloc, arrays)?,
        "cost": cost,
        "name": run.name,
        "places": list(alloc, places)?,
        "text": run.text,
    })
}

/// Returns the part on the layout.
fn layout_value(
    alloc: Global,
    layout: &Layout,
    finish_rows: Value,
    task_rows: Value,
) -> Result<Value, AllocError>
    ensures { IfOk result (λ v. view v ≡ layout_json layout.now (view finish_rows) (view task_rows)) }
{
    json!(in alloc; {
        "chain": chain(alloc, &layout.chain)?,
        "finish_rows": finish_rows,
        "finishes": list(alloc, &layout.finishes.all)?,
        "spells": list(alloc, &layout.spells.all)?,
        "steals": list(alloc, &layout.moves.steals)?,
        "task_rows": task_rows,
    })
}

/// Returns the part on the events, which belong to these tasks and change this.
fn trace_value(
    alloc: Global,
    run: TracedRun<'_>,
    summary: &TraceSummary,
    tasks: Value,
    changes: Value,
) -> Result<Value, AllocError>
    ensures { IfOk result (λ v. view v
        ≡ trace_json (traced run.entry) summary.now (view tasks) (view changes)) }
{
    json!(in alloc; {
        "changes": changes,
        "header": header_value(alloc, run.header)?,
        "initial": initial_value(alloc, run.input)?,
        "kinds": kinds(alloc, run.events)?,
        "labels": list(alloc, run.labels)?,
        "name": run.trace,
        "summary": summary_value(alloc, summary)?,
        "tasks": tasks,
    })
}
