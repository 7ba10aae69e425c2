//! Answers that are written, and their exit status.

ghost use Rattle.std.specs.Prelude.{◌≡◌, map, IfOk, IfErr};
ghost use Rattle.std.specs.List.{flat_map};
ghost use Rattle.types.specs.Translation.{array, outcome as outcome_of};
ghost use Rattle.parallel_relation.specs.Pairs.{pairs_left};
ghost use Rattle.printing.specs.Appending.{Writes};
ghost use Rattle.printing.specs.ExploredText.{open_text};
ghost use Rattle.printing.specs.Labels.{pair_text};
ghost use Rattle.printing.specs.OutcomeText.{outcome_text, status_of};

use failures::failure::Failure;
use parallel_relation::pairs::PairList;
use printing::emit::{append, emit, emit_open, emit_pairs};
use std::io::Write;
use types::code::Array;
use types::outcome::Outcome;

/// Writes an outcome, with the arrays if they are requested, and returns its exit status: 0 ended,
/// 2 ended with faults, 3 stopped.
pub fn show<O: Write>(
    out: &mut O,
    declared: &[Array],
    outcome: &Outcome,
    arrays: bool,
) -> Result<u8, Failure>
    ensures text { Writes (O.contents out.old) (O.contents out.new) result
        (outcome_text (map array declared.now) arrays (outcome_of outcome.now)) }
    ensures status { IfOk result (λ status. status ≡ status_of (outcome_of outcome.now)) }
    ensures failure { IfErr result (λ failure. failure ≡ Failure.CannotWriteOutput) }
{
    if emit(out, outcome, declared, arrays).is_err() {
        return Err(Failure::CannotWriteOutput);
    }
    Ok(status(outcome))
}

/// Returns the exit status of an outcome: 0 ended, 2 ended with faults, 3 stopped.
pub fn status(outcome: &Outcome) -> u8
    ensures { result ≡ status_of (outcome_of outcome.now) }
{
    match outcome {
        Outcome::Stopped => 3,
        Outcome::Ended { faults, .. } => { if faults.is_empty() { 0 } else { 2 } }
    }
}

/// Writes the number of leaves that can step, and returns status 3.
pub fn show_open<O: Write>(out: &mut O, leaves: u32) -> Result<u8, Failure>
    ensures text { Writes (O.contents out.old) (O.contents out.new) result (open_text leaves) }
    ensures status { IfOk result (λ status. status ≡ 3) }
    ensures failure { IfErr result (λ failure. failure ≡ Failure.CannotWriteOutput) }
{
    match emit_open(out, leaves) {
        Ok(()) => Ok(3),
        Err(_) => Err(Failure::CannotWriteOutput),
    }
}

/// Writes an answer, and returns status 0.
pub fn answer<O: Write>(out: &mut O, text: &str) -> Result<u8, Failure>
    ensures text { Writes (O.contents out.old) (O.contents out.new) result text.now }
    ensures status { IfOk result (λ status. status ≡ 0) }
    ensures failure { IfErr result (λ failure. failure ≡ Failure.CannotWriteOutput) }
{
    match append(out, text.as_bytes()) {
        Ok(()) => Ok(0),
        Err(_) => Err(Failure::CannotWriteOutput),
    }
}

/// Writes pairs of labels, one per line, and returns status 0.
pub fn answer_pairs<O: Write>(out: &mut O, pairs: PairList<'_>) -> Result<u8, Failure>
    ensures text { Writes (O.contents out.old) (O.contents out.new) result
        (flat_map pair_text (pairs_left pairs.entry)) }
    ensures status { IfOk result (λ status. status ≡ 0) }
    ensures failure { IfErr result (λ failure. failure ≡ Failure.CannotWriteOutput) }
{
    match emit_pairs(out, pairs) {
        Ok(()) => Ok(0),
        Err(_) => Err(Failure::CannotWriteOutput),
    }
}
