//! The start of a task.

ghost use Rattle.std.specs.Prelude.{◌≡◌, IfOk};
ghost use Rattle.types.specs.Contents.{FitsArrays};
ghost use Rattle.types.specs.Translation.{budget as budget_of, input as lists_in, program as program_of};
ghost use Rattle.types.specs.Typed.{code_of};
ghost use Rattle.task_run.specs.Runs.{root as root_of};
ghost use Rattle.task_run.specs.Translation.{start as start_of};

use holdings::holdings::Holdings;
use statement_steps::thread::{Plan, main_environment};
use std::alloc::AllocError;
use types::code::{Label, Stmt};
use types::input::Input;
use types::path::Path;
use types::typed::Typed;
use types::value::Environment;

/// What a task starts with, except its steps.
#[derive(Drop)]
pub struct Start<'p> {
    pub body: &'p [Stmt],
    pub environment: Environment,
    /// What it may read, and what it owns and may write.
    pub holdings: Holdings,
    /// How many levels deep asyncs may be nested in it.
    pub nest: u32,
    pub path: Path,
    /// The label of the async whose body it is. The root has 0, which no statement has.
    pub label: Label,
}

impl<'p> Start<'p> {
    /// Returns the start of the root: `main`, with all arrays.
    pub fn root(plan: Plan<'p>, typed: &Typed, input: &Input) -> Result<Start<'p>, AllocError>
        requires program { program_of plan.program.now ≡ code_of typed.now }
        requires fits { FitsArrays (code_of typed.now).arrays (lists_in input.now) }
        ensures { IfOk result (λ s. start_of s ≡ root_of (code_of typed.now)
            (lists_in input.now) (budget_of plan.entry.budget)) }
    {
        let environment = main_environment(plan)?;
        let holdings = Holdings::of_input(plan.alloc, typed, input)?;
        Ok(Start {
            body: &plan.program.main.body,
            environment,
            holdings,
            nest: plan.budget.nest,
            path: Path::root(plan.alloc),
            label: 0,
        })
    }
}
