//! What was seen of a run.

use crate::cause::Cause;
use cost::book::BudgetPart;
use types::code::Label;
use types::fault::Fault;
use types::path::Path;

/// How a fault came about.
#[derive(Drop)]
pub struct FaultNote {
    pub calls: CallChain,
    pub cause: Option<Cause>,
}

/// The calls that led to a statement, the last one first.
#[derive(Drop)]
pub struct CallChain {
    /// The number of calls.
    pub depth: u64,
    /// The last calls.
    pub last: Vec<EqualCalls>,
    /// The first call, if it isn't among the last ones.
    pub first: Option<Label>,
    /// Whether there are other calls between the first one and the last ones.
    pub skips: bool,
}

/// Calls by one statement, each inside the one before it.
#[derive(Clone, Copy)]
pub struct EqualCalls {
    pub label: Label,
    pub times: u64,
}

/// A task that was over its budget.
#[derive(Drop)]
pub struct Overrun {
    /// The task.
    pub path: Path,
    /// The statement that the task had no budget for.
    pub label: Label,
    pub calls: CallChain,
    pub part: BudgetPart,
}

/// An async that would start one task more than there may be.
#[derive(Drop)]
pub struct SurplusTask {
    pub label: Label,
    pub calls: CallChain,
}

/// What was seen of a run: its faults, or why it was stopped, and what it had printed.
#[derive(Drop)]
pub struct SeenRun {
    /// The first faults, in depth-first order.
    pub faults: Vec<Fault>,
    /// How these faults came about, in the same order.
    pub notes: Vec<FaultNote>,
    /// The number of all faults.
    pub many: usize,
    /// The first task in depth-first order that was over its budget.
    pub overrun: Option<Overrun>,
    /// The first printed lines.
    pub lines: Vec<Vec<i64>>,
    /// The number of all printed lines.
    pub printed: usize,
}
