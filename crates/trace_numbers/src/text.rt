//! The text of the numbers of a trace.

ghost use Rattle.std.specs.Prelude.{◌≡◌, ◌++◌, codes, map, IfOk, OnOk};
ghost use Rattle.std.specs.String.{string_bytes};
ghost use Rattle.trace_numbers.specs.Tables.{gathered as gathered_of};
ghost use Rattle.trace_numbers.specs.Text.{faults_line, faults_lines, parallelism, summary_text};
ghost use Rattle.trace_numbers.specs.Text.{task_lines, work_lines, worker_line, worker_lines};

use crate::faults::FinishFaults;
use crate::summary::TraceSummary;
use std::alloc::{AllocError, Global};

/// Returns the numbers of a trace, one per line: the totals, and then the steps of each worker of
/// the run, which had this many, and of any other worker that did some; then the faults of each finish.
pub fn summary_text(
    alloc: Global,
    summary: &TraceSummary,
    workers: u32,
) -> Result<String, AllocError>
    ensures { IfOk result (λ text. string_bytes text ≡ summary_text workers summary.now) }
{
    let mut text = String::new(alloc);
    push_work(&mut text, summary)?;
    push_tasks(&mut text, summary)?;
    push_workers(&mut text, &summary.by_worker, workers)?;
    push_faults(&mut text, &summary.faults)?;
    Ok(text)
}

/// Adds the number of steps, the span and the parallelism.
fn push_work(text: &mut String, summary: &TraceSummary) -> Result<(), AllocError>
    ensures { OnOk result (string_bytes text.new ≡ string_bytes text.old ++ work_lines summary.now) }
{
    let tasks = summary.tasks;
    let steps = summary.steps;
    let span = summary.span;
    write!(
        text,
        "tasks: {tasks}\nsteps: {steps}\nspan: {span}\nparallelism: "
    )?;
    push_parallelism(text, steps, span)
}

/// Adds the steps divided by the span, with two digits, rounded down; `-` if there is no span.
pub fn push_parallelism(text: &mut String, steps: usize, span: usize) -> Result<(), AllocError>
    ensures { OnOk result (string_bytes text.new
        ≡ string_bytes text.old ++ (parallelism steps span ++ codes "\n")) }
{
    if span == 0 {
        return write!(text, "-\n");
    }
    let whole = steps / span;
    let hundredths = (steps % span) as u128 * 100 / span as u128;
    let tenth = hundredths as u32 / 10;
    let hundredth = hundredths as u32 % 10;
    write!(text, "{whole}.{tenth}{hundredth}\n")
}

/// Adds how tasks moved between workers, and how many were live.
fn push_tasks(text: &mut String, summary: &TraceSummary) -> Result<(), AllocError>
    ensures { OnOk result (string_bytes text.new ≡ string_bytes text.old ++ task_lines summary.now) }
{
    let steals = summary.steals;
    let replenishings = summary.replenishings;
    let deepest_nest = summary.deepest_nest;
    let most_tasks = summary.most_tasks;
    write!(
        text,
        "steals: {steals}\nreplenishments: {replenishings}\n\
         deepest nest: {deepest_nest}\nmost live tasks: {most_tasks}\n"
    )
}

/// Adds the steps of each worker, by its number.
fn push_workers(text: &mut String, by_worker: &[usize], workers: u32) -> Result<(), AllocError>
    ensures { OnOk result (string_bytes text.new
        ≡ string_bytes text.old ++ worker_lines workers 0 by_worker.now) }
{
    for (number, steps) in by_worker.iter().enumerate() {
        push_worker(text, number, *steps, workers as usize)?;
    }
    Ok(())
}

/// Adds the steps of a worker, if it is one of the run's workers or did some steps.
fn push_worker(
    text: &mut String,
    number: usize,
    steps: usize,
    workers: usize,
) -> Result<(), AllocError>
    ensures { OnOk result (string_bytes text.new
        ≡ string_bytes text.old ++ worker_line workers number steps) }
{
    if number >= workers && steps == 0 {
        return Ok(());
    }
    write!(text, "steps of worker {number}: {steps}\n")
}

/// Adds the number of faults of each finish.
fn push_faults(text: &mut String, finishes: &[FinishFaults]) -> Result<(), AllocError>
    ensures { OnOk result (string_bytes text.new
        ≡ string_bytes text.old ++ faults_lines (map gathered_of finishes.now)) }
{
    for gathered in finishes {
        push_gathered(text, gathered)?;
    }
    Ok(())
}

/// Adds the number of faults of a finish.
fn push_gathered(text: &mut String, gathered: &FinishFaults) -> Result<(), AllocError>
    ensures { OnOk result (string_bytes text.new
        ≡ string_bytes text.old ++ faults_line (gathered_of gathered.now)) }
{
    let finish = &gathered.finish;
    let faults = gathered.faults;
    write!(text, "faults of {finish}: {faults}\n")
}
