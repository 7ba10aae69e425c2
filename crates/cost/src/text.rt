//! The text of a cost.

ghost use Rattle.std.specs.Prelude.{◌≡◌, ◌++◌, map, slice_index, IfOk, OnOk};
ghost use Rattle.std.specs.String.{string_bytes};
ghost use Rattle.types.specs.Translation.{procedure as plain_procedure, program as plain_program};
ghost use Rattle.cost.specs.Shares.{share_of};
ghost use Rattle.cost.specs.Text.{advice, cost_text, grain_lines, is_too_fine, label_line, labels_text};
ghost use Rattle.cost.specs.Text.{procedure_line, procedure_lines as lines_of, procedures_text};
ghost use Rattle.cost.specs.Text.{share_line, small_line, steps_line, task_lines, work_lines};

use crate::cost::Cost;
use crate::shares::{at, share};
use std::alloc::{AllocError, Global};
use trace_numbers::text::push_parallelism;
use types::code::{Procedure, Program};

/// The number of tasks from which small ones are worth an advice.
const MANY_TASKS: usize = 100;

/// Returns the numbers of a cost, one per line: `work: 61`, `span: 17`, `parallelism: 3.58`, which
/// is work divided by span with two digits, `tasks: 8`, `deepest nest: 3`, `finishes: 2`, `copied
/// places: 24`, `steps per task: 7.62`, `tasks under 1000 steps: 8`. Adds what to change if tasks
/// are too small to pay.
pub fn cost_text(alloc: Global, cost: &Cost) -> Result<String, AllocError>
    ensures { IfOk result (λ text. string_bytes text ≡ cost_text cost.now) }
{
    let mut text = String::new(alloc);
    push_work(&mut text, cost)?;
    push_tasks(&mut text, cost)?;
    push_grain(&mut text, cost)?;
    Ok(text)
}

/// Adds the work, the span and the parallelism.
fn push_work(text: &mut String, cost: &Cost) -> Result<(), AllocError>
    ensures { OnOk result (string_bytes text.new ≡ string_bytes text.old ++ work_lines cost.now) }
{
    let work = cost.work;
    let span = cost.span;
    write!(text, "work: {work}\nspan: {span}\nparallelism: ")?;
    push_parallelism(text, work, span)
}

/// Adds the numbers of tasks, finishes and copied places, and how deep asyncs are nested.
fn push_tasks(text: &mut String, cost: &Cost) -> Result<(), AllocError>
    ensures { OnOk result (string_bytes text.new ≡ string_bytes text.old ++ task_lines cost.now) }
{
    let tasks = cost.tasks;
    let deepest_nest = cost.deepest_nest;
    let finishes = cost.finishes;
    let copied = cost.copied;
    write!(
        text,
        "tasks: {tasks}\ndeepest nest: {deepest_nest}\nfinishes: {finishes}\ncopied places: {copied}\n"
    )
}

/// Adds how many steps a task takes, and what to change if tasks are too small to pay.
pub fn push_grain(text: &mut String, cost: &Cost) -> Result<(), AllocError>
    ensures { OnOk result (string_bytes text.new ≡ string_bytes text.old ++ grain_lines cost.now) }
{
    push_steps(text, cost)?;
    push_small(text, cost)?;
    push_advice(text, cost)
}

/// Adds how many steps a task takes on average.
fn push_steps(text: &mut String, cost: &Cost) -> Result<(), AllocError>
    ensures { OnOk result (string_bytes text.new ≡ string_bytes text.old ++ steps_line cost.now) }
{
    let steps = cost.work;
    let tasks = cost.tasks;
    text.push_str("steps per task: ")?;
    push_parallelism(text, steps, tasks)
}

/// Adds how many tasks are small.
fn push_small(text: &mut String, cost: &Cost) -> Result<(), AllocError>
    ensures { OnOk result (string_bytes text.new ≡ string_bytes text.old ++ small_line cost.now) }
{
    let small = cost.small;
    write!(text, "tasks under 1000 steps: {small}\n")
}

/// Adds what to change, if tasks are too small to pay.
fn push_advice(text: &mut String, cost: &Cost) -> Result<(), AllocError>
    ensures { OnOk result (string_bytes text.new ≡ string_bytes text.old ++ advice cost.now) }
{
    if are_too_fine(cost) {
        text.push_str(
            "help: most tasks are too small to pay; stop dividing sooner, or take larger pieces\n",
        )?;
        Ok(())
    } else {
        Ok(())
    }
}

/// Returns whether there are many tasks, and more than half of them are small.
fn are_too_fine(cost: &Cost) -> bool
    ensures { result ≡ is_too_fine cost.now }
{
    cost.tasks >= MANY_TASKS && cost.small > cost.tasks / 2
}

/// Returns the share of each label, one per line: `label 3: work 7, span 2`. The tables are those
/// of a cost by label.
pub fn labels_text(alloc: Global, work: &[u64], span: &[u64]) -> Result<String, AllocError>
    ensures { IfOk result (λ text. string_bytes text ≡ labels_text work.now span.now) }
{
    let mut text = String::new(alloc);
    for (label, steps) in work.iter().enumerate() {
        push_label(&mut text, label, *steps, span)?;
    }
    Ok(text)
}

/// Adds the line of a label, if it is one.
fn push_label(text: &mut String, label: usize, work: u64, span: &[u64]) -> Result<(), AllocError>
    ensures { OnOk result (string_bytes text.new
        ≡ string_bytes text.old ++ label_line label work (slice_index span.now label)) }
{
    if label == 0 {
        return Ok(());
    }
    let span = at(span, label);
    write!(text, "label {label}: work {work}, span {span}\n")?;
    Ok(())
}

/// Returns the share of each procedure, one per line: `twice: work 59, span 15`, and then that of
/// `main`.
pub fn procedures_text(
    alloc: Global,
    code: &Program,
    work: &[u64],
    span: &[u64],
) -> Result<String, AllocError>
    ensures { IfOk result (λ text. string_bytes text
        ≡ procedures_text work.now span.now (plain_program code.now)) }
{
    let mut text = procedure_lines(alloc, &code.procedures, work, span)?;
    push_share(&mut text, "main", &code.main, work, span)?;
    Ok(text)
}

/// Adds the lines of procedures.
fn procedure_lines(
    alloc: Global,
    procedures: &[Procedure],
    work: &[u64],
    span: &[u64],
) -> Result<String, AllocError>
    ensures { IfOk result (λ text. string_bytes text
        ≡ lines_of work.now span.now (map plain_procedure procedures.now)) }
{
    let mut text = String::new(alloc);
    for procedure in procedures {
        push_procedure(&mut text, procedure, work, span)?;
    }
    Ok(text)
}

/// Adds the line of a procedure, by its name.
fn push_procedure(
    text: &mut String,
    procedure: &Procedure,
    work: &[u64],
    span: &[u64],
) -> Result<(), AllocError>
    ensures { OnOk result (string_bytes text.new ≡ string_bytes text.old
        ++ procedure_line work.now span.now (plain_procedure procedure.now)) }
{
    push_share(text, procedure.name.as_str(), procedure, work, span)?;
    Ok(())
}

/// Adds the line of a procedure with this name.
fn push_share(
    text: &mut String,
    name: &str,
    procedure: &Procedure,
    work: &[u64],
    span: &[u64],
) -> Result<(), AllocError>
    ensures { let f = plain_procedure procedure.now in OnOk result (string_bytes text.new
        ≡ string_bytes text.old
        ++ share_line name.now (share_of work.now f.body) (share_of span.now f.body)) }
{
    let work = share(work, procedure).ok_or(AllocError)?;
    let span = share(span, procedure).ok_or(AllocError)?;
    write!(text, "{name}: work {work}, span {span}\n")?;
    Ok(())
}
