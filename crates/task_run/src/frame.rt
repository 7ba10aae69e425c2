//! The frames of a task: the work that is left.

use crate::result::Listed;
use statement_steps::turns::TurnsToCome;
use types::code::{Label, Stmt, Truth};
use types::fault::Fault;
use types::ids::Slot;
use types::value::Environment;

/// Work that waits until the frames above it are done.
#[derive(Drop)]
pub enum TaskFrame<'p> {
    /// The rest of a block.
    Rest(&'p [Stmt]),
    /// The next iteration of a loop.
    Again {
        label: Label,
        guard: &'p Truth,
        body: &'p [Stmt],
    },
    /// The turns of a `parts` that are still to come.
    Turns(TurnsToCome<'p>),
    /// The end of a finish.
    EndFinish(Outer),
    /// The handler of a finish, right behind its end.
    OnFault {
        /// The faults of the task when the finish began.
        before: Vec<Fault>,
        /// The scalar that gets the number of faults.
        faults: Slot,
        handler: &'p [Stmt],
    },
    /// The return from a call to the caller's environment.
    EndCall {
        environment: Environment,
    },
}

/// The lines and faults of a task, and the tasks that it had listed, when a finish began.
#[derive(Drop)]
pub struct Outer {
    pub lines: Vec<Vec<i64>>,
    pub faults: Vec<Fault>,
    pub pending: Vec<Listed>,
}
