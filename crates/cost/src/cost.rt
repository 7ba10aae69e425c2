//! The cost of a run.

ghost use Rattle.std.specs.Prelude.{◌≡◌, IfOk};
ghost use Rattle.types.specs.Contents.{FitsArrays};
ghost use Rattle.types.specs.Outcome.{outcome as one_thread_outcome};
ghost use Rattle.types.specs.Translation.{outcome as outcome_of, input as lists_in};
ghost use Rattle.types.specs.Translation.{budget as budget_of, program as program_of};
ghost use Rattle.types.specs.Typed.{code_of};
ghost use Rattle.effects.specs.Summarized.{AreSummaries};
ghost use Rattle.statement_steps.specs.Bounds.{IsInBounds};
ghost use Rattle.cost.specs.Accounts.{account_of, span_by_label};
ghost use Rattle.cost.specs.Costs.{cost_of, tally_of};
ghost use Rattle.cost.specs.Machines.{end_of, stands};

use crate::book::{Book, NoBook};
use crate::machine::CostMachine;
use crate::tally::{Tally, as_small};
use effects::summaries::{Summaries, summarize};
use statement_steps::thread::Plan;
use std::alloc::{AllocError, Global};
use types::budget::Budget;
use types::input::Input;
use types::outcome::Outcome;
use types::typed::Typed;

/// The cost of a run on one thread, in steps of the language. It is the same on every machine.
#[derive(Clone, Copy, PartialEq, Eq, Debug)]
pub struct Cost {
    /// The steps of all tasks.
    pub work: usize,
    /// The length of the longest chain of steps, in which each step comes after the one before it.
    pub span: usize,
    /// The number of tasks, including the root.
    pub tasks: usize,
    /// The number of asyncs around the deepest task.
    pub deepest_nest: usize,
    /// The number of finishes, including the one around `main`.
    pub finishes: usize,
    /// The number of copied places. At each async that starts a task, it counts the places in
    /// blocks of 256 that aren't wholly inside what its body may write. Each place counts twice:
    /// for the way to the task, and for the way back.
    pub copied: usize,
    /// The number of tasks with fewer than 1,000 steps.
    pub small: usize,
}

impl Cost {
    /// Returns the cost of a run with this tally.
    pub fn of(tally: Tally) -> Result<Cost, AllocError>
        ensures { IfOk result (λ c. c ≡ cost_of tally) }
    {
        let root = as_small(tally.along);
        Ok(Cost {
            work: tally.work,
            span: tally.here.max(tally.ended),
            tasks: tally.tasks,
            deepest_nest: tally.deepest,
            finishes: tally.finishes,
            copied: tally.copied,
            small: tally.small.checked_add(root).ok_or(AllocError)?,
        })
    }
}

/// The outcome of a run, and its cost.
#[derive(Debug, Drop)]
pub struct Costed {
    pub outcome: Outcome,
    /// The cost. If the run was stopped, it covers what was done until then.
    pub cost: Cost,
}

/// The outcome and cost of a run, and the cost at each label. A label's number is its index. No
/// statement has the first index.
#[derive(Drop)]
pub struct CostByLabel {
    pub costed: Costed,
    /// The number of steps that were taken at each label.
    pub work: Vec<u64>,
    /// The number of steps on the longest chain at each label.
    pub span: Vec<u64>,
}

/// Returns the outcome of a program, an input and a budget on one thread, and its cost. The input
/// has a list for each array, of its length. If a count is too large, the call fails as if memory
/// ran out.
///
/// `main { finish { async { skip; } skip; } skip; }` costs 5 steps, 4 of which come one after the
/// other.
pub fn measure(
    alloc: Global,
    typed: &Typed,
    input: &Input,
    budget: Budget,
) -> Result<Costed, AllocError>
    requires { FitsArrays (code_of typed.now).arrays (lists_in input.now) }
    ensures outcome { IfOk result (λ c. outcome_of c.outcome
        ≡ one_thread_outcome (code_of typed.now) (lists_in input.now) (budget_of budget)) }
    ensures cost { IfOk result (λ c. c.cost
        ≡ cost_of (tally_of (code_of typed.now) (lists_in input.now) (budget_of budget))) }
{
    let CostByLabel { costed, .. } = measure_by_label(alloc, typed, input, budget, 0)?;
    Ok(costed)
}

/// Returns the same as `measure`, and the cost by label, for labels less than `rows`. A step at any
/// other label is counted at 0. If two chains are equally long, a task's own chain counts, not the
/// chain of a task that it waited for. Of two tasks, the first counts.
///
/// `main { finish { async { skip; } skip; } skip; }` has 5 labels, and takes one step at each. The
/// step at 3, inside the async, isn't on the longest chain, which continues after the async.
pub fn measure_by_label(
    alloc: Global,
    typed: &Typed,
    input: &Input,
    budget: Budget,
    rows: usize,
) -> Result<CostByLabel, AllocError>
    requires { FitsArrays (code_of typed.now).arrays (lists_in input.now) }
    ensures outcome { IfOk result (λ c. outcome_of c.costed.outcome
        ≡ one_thread_outcome (code_of typed.now) (lists_in input.now) (budget_of budget)) }
    ensures cost { IfOk result (λ c. c.costed.cost
        ≡ cost_of (tally_of (code_of typed.now) (lists_in input.now) (budget_of budget))) }
    ensures work { IfOk result (λ c. c.work.items
        ≡ (account_of (code_of typed.now) rows (lists_in input.now) (budget_of budget)).work) }
    ensures span { IfOk result (λ c. c.span.items ≡ span_by_label
        (account_of (code_of typed.now) rows (lists_in input.now) (budget_of budget))) }
{
    let plan = Plan {
        alloc,
        program: typed.code(),
        budget,
    };
    let summaries = summarize(alloc, typed)?;
    let machine = ran(plan, &summaries, input, rows, &mut NoBook)?;
    let costed = Costed {
        cost: Cost::of(machine.account.tally)?,
        outcome: machine.thread.outcome(),
    };
    let (work, span) = machine.account.tables();
    Ok(CostByLabel { costed, work, span })
}

/// Returns the machine of a whole run, at its end. The run is reported to a book.
pub(crate) fn ran<'p, B: Book>(
    plan: Plan<'p>,
    summaries: &Summaries,
    input: &Input,
    rows: usize,
    book: &mut B,
) -> Result<CostMachine<'p>, AllocError>
    requires fits { FitsArrays (program_of plan.program.now).arrays (lists_in input.now) }
    requires summaries { AreSummaries (program_of plan.program.now) summaries.now }
    ensures stands { IfOk result (λ m. stands m ≡ end_of (program_of plan.entry.program.now)
        plan.entry.budget.steps plan.entry.budget.nest rows (lists_in input.now)) }
    ensures bounds { IfOk result
        (λ m. IsInBounds (program_of plan.entry.program.now) m.thread) }
{
    let mut machine = CostMachine::at_start(plan, input, rows)?;
    'turns: while machine.turn(summaries, book)? {}
    Ok(machine)
}
