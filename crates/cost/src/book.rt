//! What is recorded of a run while it runs.

use statement_steps::store::Store;
use statement_steps::thread::{Plan, Thread};
use std::alloc::AllocError;
use types::code::{Label, Stmt, Truth};

/// A record of a run. The machine reports what happens, with the thread as it is then. A book that
/// isn't interested in an event ignores it.
pub trait Book {
    /// The task has taken a step at the statement with this label, which is executed next.
    #[inline(always)]
    fn step(&mut self, _thread: &Thread<Store>, _label: Label) -> Result<(), AllocError> {
        Ok(())
    }

    /// The task has just faulted. A fault changes neither the environment nor the store.
    #[inline(always)]
    fn fault(
        &mut self,
        _plan: Plan<'_>,
        _thread: &Thread<Store>,
        _faulty: Faulty<'_>,
    ) -> Result<(), AllocError> {
        Ok(())
    }

    /// The task has no budget left for the statement with this label. The run is stopped.
    #[inline(always)]
    fn stopped(
        &mut self,
        _thread: &Thread<Store>,
        _label: Label,
        _part: BudgetPart,
    ) -> Result<(), AllocError> {
        Ok(())
    }

    /// The async with this label starts a task.
    #[inline(always)]
    fn begin(&mut self, _label: Label) -> Result<(), AllocError> {
        Ok(())
    }

    /// A finish of the task has ended. A rescue drops this number of faults.
    #[inline(always)]
    fn leave(&mut self, _thread: &Thread<Store>, _rescued: usize) -> Result<(), AllocError> {
        Ok(())
    }

    /// The call with this label has started.
    #[inline(always)]
    fn call(&mut self, _label: Label) -> Result<(), AllocError> {
        Ok(())
    }

    /// The last call that has started has ended.
    #[inline(always)]
    fn returned(&mut self) {}
}

/// What has faulted.
#[derive(Clone, Copy)]
pub enum Faulty<'s> {
    Statement(&'s Stmt),
    /// The guard of a loop, before another iteration.
    Guard(&'s Truth),
}

/// A part of a budget.
#[derive(Clone, Copy, PartialEq, Eq, Debug)]
pub enum BudgetPart {
    /// The steps of a task.
    Steps,
    /// The nesting depth of asyncs.
    Nest,
}

/// A record of nothing.
#[derive(Drop)]
pub struct NoBook;

impl Book for NoBook {}
