//! The second run.

ghost use Rattle.std.specs.Prelude.{◌≡◌, length, map, take, IfOk};
ghost use Rattle.types.specs.Inputs.{IsInput};
ghost use Rattle.types.specs.Outcome.{Ending, outcome_by};
ghost use Rattle.types.specs.Translation.{fault as fault_of, input as lists_in};
ghost use Rattle.types.specs.Translation.{budget as budget_of};
ghost use Rattle.types.specs.Typed.{code_of};
ghost use Rattle.statement_steps.specs.Standing.{flow as flow_of, state_of};
ghost use Rattle.cost.specs.Kept.{outcome_at};
ghost use Rattle.run_explanations.specs.Seen.{OnlyIfStopped, Sees, faults_at, faults_by};

use crate::notes::{MOST_FAULTS, RunNotes, TaskLimit};
use crate::seen::{Overrun, SeenRun, SurplusTask};
use crate::steps::TaskSteps;
use cost::kept::kept;
use cost::machine::CostMachine;
use effects::summaries::summarize;
use statement_steps::flow::Flow;
use statement_steps::store::Store;
use statement_steps::thread::{Plan, Thread};
use std::alloc::{AllocError, Global};
use types::budget::Budget;
use types::fault::Fault;
use types::input::Input;
use types::typed::Typed;

/// The maximum number of printed lines that are shown.
const MOST_LINES: usize = 10;

/// Runs a program on one thread, with each async's body in place. Returns what was seen. The faults
/// are those of the one-thread outcome, and a stopped run has none. With an input that doesn't fit,
/// no run starts, and nothing is seen.
pub fn seen_again(
    alloc: Global,
    typed: &Typed,
    input: &Input,
    budget: Budget,
) -> Result<SeenRun, AllocError>
    ensures { IsInput (code_of typed.now).arrays (lists_in input.now)
        → IfOk result (Sees (code_of typed.now) (lists_in input.now) (budget_of budget)) }
{
    if !input.fits(typed) {
        return Ok(nothing_seen(alloc));
    }
    let mut notes = RunNotes::new(alloc);
    let thread = kept(alloc, typed, input, budget, &mut notes)?;
    Ok(seen_at_end(alloc, thread, notes))
}

/// Returns what is seen if no run starts.
fn nothing_seen(alloc: Global) -> SeenRun {
    SeenRun {
        faults: Vec::new(alloc),
        notes: Vec::new(alloc),
        many: 0,
        overrun: None,
        lines: Vec::new(alloc),
        printed: 0,
    }
}

/// Returns what was seen of a run that is at its end.
fn seen_at_end(alloc: Global, thread: Thread<Store>, notes: RunNotes) -> SeenRun
    ensures faults { map fault_of result.faults.items ≡ take 4 (faults_at thread) }
    ensures many { result.many ≡ length (faults_at thread) }
    ensures overrun { OnlyIfStopped (outcome_at thread) result.overrun }
    ensures lines { map (λ line. line.items) result.lines.items ≡ take 10 (state_of thread).lines }
    ensures printed { result.printed ≡ length (state_of thread).lines }
{
    let RunNotes {
        faults: notes,
        overrun,
        ..
    } = notes;
    let overrun = overrun_left(thread.flow, overrun);
    let mut lines = thread.lines;
    let printed = lines.len();
    lines.truncate(MOST_LINES);
    let mut faults = faults_left(alloc, thread.flow, thread.faults);
    let many = faults.len();
    faults.truncate(MOST_FAULTS);
    SeenRun {
        faults,
        notes,
        many,
        overrun,
        lines,
        printed,
    }
}

/// Returns the faults that a run reports: none if it is stopped.
fn faults_left(alloc: Global, flow: Flow, faults: Vec<Fault>) -> Vec<Fault>
    ensures { map fault_of result.items ≡ faults_by (flow_of flow) (map fault_of faults.items) }
{
    match flow {
        Flow::Stopped => Vec::new(alloc),
        Flow::On | Flow::Faulted => faults,
    }
}

/// Returns the task over its budget that a run reports: none if it isn't stopped.
fn overrun_left(flow: Flow, overrun: Option<Overrun>) -> Option<Overrun>
    ensures { (e : Ending) → OnlyIfStopped (outcome_by (flow_of flow) e) result }
{
    match flow {
        Flow::Stopped => overrun,
        Flow::On | Flow::Faulted => None,
    }
}

/// Runs a program as `seen_again` does, and returns the statements at which its tasks took steps:
/// none with an input that doesn't fit.
pub fn steps_again(
    alloc: Global,
    typed: &Typed,
    input: &Input,
    budget: Budget,
) -> Result<TaskSteps, AllocError> {
    let mut steps = TaskSteps::new(alloc);
    if !input.fits(typed) {
        return Ok(steps);
    }
    let _thread = kept(alloc, typed, input, budget, &mut steps)?;
    Ok(steps)
}

/// The maximum number of statements that are executed to find the async of a task too many.
const MOST_TURNS: u64 = 4_000_000;

/// Runs a program on one thread, up to the async that starts one task more than there may be.
/// Returns None if the run ends before, or takes too long, or if the input doesn't fit.
pub fn surplus_task(
    alloc: Global,
    typed: &Typed,
    input: &Input,
    budget: Budget,
    tasks: u64,
) -> Result<Option<SurplusTask>, AllocError> {
    if !input.fits(typed) {
        return Ok(None);
    }
    let plan = Plan {
        alloc,
        program: typed.code(),
        budget,
    };
    let summaries = summarize(alloc, typed)?;
    let mut machine = CostMachine::at_start(plan, input, 0)?;
    let mut limit = TaskLimit::new(alloc, tasks);
    'turns: for _ in 0..MOST_TURNS {
        if limit.surplus.is_some() {
            break;
        }
        if !machine.turn(&summaries, &mut limit)? {
            break;
        }
    }
    Ok(limit.surplus)
}
