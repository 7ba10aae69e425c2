//! The job of a run.

ghost use Rattle.std.specs.Prelude.{◌≡◌, IfOk};
ghost use Rattle.types.specs.Contents.{FitsArrays};
ghost use Rattle.types.specs.Translation.{budget as budget_of, input as lists_in, program as program_of};
ghost use Rattle.types.specs.Typed.{code_of};
ghost use Rattle.task_run.specs.Runs.{root as root_of};
ghost use Rattle.task_run.specs.Translation.{start as start_of};

use crate::start::Start;
use race_checker::accepted::Accepted;
use statement_steps::thread::Plan;
use std::alloc::{AllocError, Global};
use types::budget::Budget;
use types::input::Input;

/// The job of a run: its program, input and budget.
#[derive(Clone, Copy)]
pub struct Job<'p> {
    pub alloc: Global,
    pub accepted: &'p Accepted,
    pub input: &'p Input,
    pub budget: Budget,
}

impl<'p> Job<'p> {
    /// Returns the plan of its tasks.
    pub fn plan(self) -> Plan<'p>
        ensures program { program_of result.program.now ≡ code_of self.entry.accepted.now.typed }
        ensures budget { result.budget ≡ self.entry.budget }
    {
        Plan {
            alloc: self.alloc,
            program: self.accepted.typed().code(),
            budget: self.budget,
        }
    }

    /// Returns the start of the root: `main`, with all arrays.
    pub fn root(self) -> Result<Start<'p>, AllocError>
        requires { FitsArrays (code_of self.accepted.now.typed).arrays (lists_in self.input.now) }
        ensures { IfOk result (λ s. start_of s ≡ root_of (code_of self.entry.accepted.now.typed)
            (lists_in self.entry.input.now) (budget_of self.entry.budget)) }
    {
        Start::root(self.plan(), self.accepted.typed(), self.input)
    }
}
