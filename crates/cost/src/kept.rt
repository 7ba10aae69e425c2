//! A run with a book.

ghost use Rattle.std.specs.Prelude.{◌≡◌, IfOk};
ghost use Rattle.types.specs.Contents.{FitsArrays};
ghost use Rattle.types.specs.Outcome.{outcome as one_thread_outcome};
ghost use Rattle.types.specs.Translation.{input as lists_in, budget as budget_of};
ghost use Rattle.types.specs.Typed.{code_of};
ghost use Rattle.statement_steps.specs.Standing.{state_of};
ghost use Rattle.cost.specs.Kept.{outcome_at, printed};

use crate::book::Book;
use crate::cost::ran;
use effects::summaries::summarize;
use statement_steps::store::Store;
use statement_steps::thread::{Plan, Thread};
use std::alloc::{AllocError, Global};
use types::budget::Budget;
use types::input::Input;
use types::typed::Typed;

/// Runs a program on one thread, and keeps a book of the run. Returns the thread at its end, with
/// the outcome, and with what was printed if the run is stopped. The input has a list for each
/// array, of its length.
pub fn kept<B: Book>(
    alloc: Global,
    typed: &Typed,
    input: &Input,
    budget: Budget,
    book: &mut B,
) -> Result<Thread<Store>, AllocError>
    requires { FitsArrays (code_of typed.now).arrays (lists_in input.now) }
    ensures outcome { IfOk result (λ t. outcome_at t
        ≡ one_thread_outcome (code_of typed.now) (lists_in input.now) (budget_of budget)) }
    ensures lines { IfOk result (λ t. (state_of t).lines
        ≡ printed (code_of typed.now) (lists_in input.now) (budget_of budget)) }
{
    let plan = Plan {
        alloc,
        program: typed.code(),
        budget,
    };
    let summaries = summarize(alloc, typed)?;
    let machine = ran(plan, &summaries, input, 0, book)?;
    Ok(machine.thread)
}
