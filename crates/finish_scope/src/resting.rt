//! Owners of scopes.

use task_run::result::TaskResult;
use weighted_task::finish::Parked;

/// The position of a scope: its scope table, and its slot there.
#[derive(Clone, Copy, PartialEq, Eq, Debug)]
pub struct ScopePosition {
    pub table: usize,
    pub slot: usize,
}

/// A task that is parked at its scope, and the positions of its other scopes.
#[derive(Drop)]
pub struct Resting<'p> {
    pub parked: Box<Parked<'p>>,
    /// The innermost last.
    pub outer: Vec<ScopePosition>,
}

/// The owner of a scope that passes, and the results that arrived there.
#[derive(Drop)]
pub struct Passing<'p> {
    pub owner: Resting<'p>,
    pub results: Vec<TaskResult>,
}
