//! The scopes of a running task.

use finish_scope::inner::Scope;
use finish_scope::resting::ScopePosition;
use finish_scope::running::Running;
use std::sync::Arc;
use types::outcome::Outcome;
use weighted_task::task::{Child, Task};

/// The scopes of the task that a worker runs: its innermost scope, and the positions of all of
/// them.
#[derive(Drop)]
pub struct OpenScopes<'p, J: Running> {
    pub scope: Arc<Scope<'p, J>>,
    /// The position of that scope.
    pub place: ScopePosition,
    /// The positions of the others, the innermost last.
    pub outer: Vec<ScopePosition>,
}

/// What a turn of a task led to.
#[derive(Drop)]
pub enum AfterTurn<'p> {
    Follows(Next<'p>),
    /// The task continues, and has spawned this child.
    Spawned(Task<'p>, Child<'p>),
}

/// What a worker does after a turn.
#[derive(Drop)]
pub enum Next<'p> {
    /// The worker continues with this task.
    Goes(Task<'p>),
    /// It looks for another task.
    Idle,
    /// The root has finished.
    Told(Outcome),
}
