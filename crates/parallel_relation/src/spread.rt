//! From what is found to pairs: what procedures meet is given to their labels, and each pair is
//! kept once.

ghost use Rattle.std.specs.Prelude.{◌↔◌, ◌≡◌, ◌≤◌, ◌<◌, ◌^◌, ℕ, IfOk, OnOk};
ghost use Rattle.types.specs.Translation.{program};
ghost use Rattle.effects.specs.LabelSets.{HasLabel};
ghost use Rattle.effects.specs.Summarized.{AreSummaries};
ghost use Rattle.parallel_relation.specs.Around.{Adds, each};
ghost use Rattle.parallel_relation.specs.Found.{FoundMeets};
ghost use Rattle.parallel_relation.specs.Rows.{HasAt};
ghost use Rattle.parallel_relation.specs.Spread.{Turns};

use crate::found::FoundPairs;
use crate::rows::Rows;
use effects::label_set::LabelSet;
use effects::summaries::Summaries;
use std::alloc::{AllocError, Global};
use types::code::{Label, Program};
use types::ids::ProcedureId;

/// Returns what the labels meet, including the labels in procedures.
pub fn spread(
    alloc: Global,
    code: &Program,
    summaries: &Summaries,
    found: FoundPairs,
) -> Result<Rows, AllocError>
    requires { AreSummaries (program code.now) summaries.now }
    ensures { IfOk result (λ rows. (x y : ℕ)
        → HasAt rows x y ↔ FoundMeets (program code.now) found x y) }
{
    let FoundPairs {
        mut labels,
        calls,
        ends,
    } = found;
    for number in 0..code.procedures.len() {
        let summary = summaries.of(ProcedureId { number });
        add_row(alloc, &summary.labels, &calls, number, &mut labels)?;
        add_row(alloc, &summary.pending_labels, &ends, number, &mut labels)?;
    }
    Ok(labels)
}

/// Adds the labels of a row to the rows of each of these labels.
fn add_row(
    alloc: Global,
    members: &LabelSet,
    from: &Rows,
    number: usize,
    rows: &mut Rows,
) -> Result<(), AllocError>
    ensures { OnOk result (Adds (HasAt rows.old)
        (each (HasLabel members.now) (HasAt from.now number)) (HasAt rows.new)) }
{
    match from.get(number) {
        Some(row) => add_to_each(alloc, members, row, rows),
        None => Ok(()),
    }
}

/// Adds the labels of a set to the rows of each of these labels.
fn add_to_each(
    alloc: Global,
    members: &LabelSet,
    those: &LabelSet,
    rows: &mut Rows,
) -> Result<(), AllocError>
    ensures { OnOk result (Adds (HasAt rows.old)
        (each (HasLabel members.now) (HasLabel those.now)) (HasAt rows.new)) }
{
    for label in 0..members.end() {
        add_where(alloc, members, label, those, rows)?;
    }
    Ok(())
}

/// Adds the labels of a set to the row of a label, if the label is one of these.
fn add_where(
    alloc: Global,
    members: &LabelSet,
    label: usize,
    those: &LabelSet,
    rows: &mut Rows,
) -> Result<(), AllocError>
    requires { label < 2 ^ 32 }
    ensures { OnOk result (Adds (HasAt rows.old)
        (λ x y. (x ≡ label) × each (HasLabel members.now) (HasLabel those.now) x y) (HasAt rows.new)) }
{
    if !members.has(label as Label) {
        return Ok(());
    }
    rows.add(alloc, label, those)
}

/// Puts each pair into the row of its smaller label.
pub fn turn(alloc: Global, rows: &mut Rows) -> Result<(), AllocError>
    ensures { OnOk result (Adds (HasAt rows.old) (Turns (HasAt rows.old)) (HasAt rows.new)) }
{
    for number in 0..rows.len() {
        turn_row(alloc, rows, number)?;
    }
    Ok(())
}

/// Puts the pairs of one row into the rows of smaller labels.
fn turn_row(alloc: Global, rows: &mut Rows, number: usize) -> Result<(), AllocError>
    requires { number < 2 ^ 32 }
    ensures { OnOk result (Adds (HasAt rows.old)
        (λ x y. (y ≡ number) × Turns (HasAt rows.old) x y) (HasAt rows.new)) }
{
    for label in start_of(rows, number)..number {
        turn_pair(alloc, rows, number, label)?;
    }
    Ok(())
}

/// Returns a number below which the row of another number has no labels; it is at most that other
/// number.
fn start_of(rows: &Rows, number: usize) -> usize
    ensures before { (y : ℕ) → HasAt rows.now number y → y < result → ⊥ }
    ensures within { result ≤ number }
{
    match rows.get(number) {
        Some(row) => least_below(row, number),
        None => number,
    }
}

/// Returns a number below which a set has no labels; it is at most the given number.
fn least_below(row: &LabelSet, number: usize) -> usize
    ensures before { (y : ℕ) → HasLabel row.now y → y < result → ⊥ }
    ensures within { result ≤ number }
{
    match row.least() {
        Some(label) => number.min(label as usize),
        None => number,
    }
}

/// Puts a pair into the row of its smaller label, if the row of the larger one has it.
fn turn_pair(alloc: Global, rows: &mut Rows, number: usize, label: usize) -> Result<(), AllocError>
    requires smaller { label < number }
    requires within { number < 2 ^ 32 }
    ensures { OnOk result (Adds (HasAt rows.old)
        (λ x y. (x ≡ label) × ((y ≡ number) × HasAt rows.old y x)) (HasAt rows.new)) }
{
    if !rows.has(number, label as Label) {
        return Ok(());
    }
    rows.put(alloc, label, number as Label)
}
