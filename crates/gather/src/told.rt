//! The outcome of a run, once all of it has settled.

ghost use Rattle.std.specs.Prelude.{◌≡◌, IfOk, map};
ghost use Rattle.types.specs.Contents.{shown as shown_in};
ghost use Rattle.types.specs.Translation.{array as array_of, outcome as outcome_of, program as program_of};
ghost use Rattle.task_run.specs.Given.{told_of};
ghost use Rattle.task_run.specs.Translation.{contents_of, settled as settled_of};

use holdings::holdings::Holdings;
use sections::id::ArrayId;
use std::alloc::{AllocError, Global};
use task_run::result::Settled;
use types::code::{Array, Program};
use types::outcome::Outcome;

/// Returns the outcome of a run of the program with this settled result.
pub fn told(alloc: Global, program: &Program, settled: Settled) -> Result<Outcome, AllocError>
    ensures told { IfOk result (λ o. outcome_of o
        ≡ told_of (program_of program.now) (settled_of settled)) }
{
    if settled.stopped {
        return Ok(Outcome::Stopped);
    }
    Ok(Outcome::Ended {
        arrays: shown(alloc, &program.arrays, &settled.holdings)?,
        lines: settled.lines,
        faults: settled.faults,
    })
}

/// Returns the numbers of all arrays, in the order of declaration.
fn shown(
    alloc: Global,
    declared: &[Array],
    holdings: &Holdings,
) -> Result<Vec<Vec<i64>>, AllocError>
    ensures { IfOk result (λ lists. map (λ v. v.items) lists.items
        ≡ shown_in (map array_of declared.now) (contents_of holdings.now)) }
{
    let mut arrays = Vec::new(alloc);
    'arrays: for (number, array) in declared.iter().enumerate() {
        arrays.push(holdings.row(alloc, ArrayId { number }, array.length)?)?;
    }
    Ok(arrays)
}
