//! What comes after the step of a statement.

use crate::turns::TurnsToCome;
use types::code::{Label, Stmt, Truth};
use types::value::Environment;

/// What a task does after the step of a statement, before the rest of its block.
#[derive(Drop)]
pub enum Next<'p> {
    /// Nothing: the statement has done all that it does, or it has faulted.
    Nothing,
    /// A block.
    Block(&'p [Stmt]),
    /// The body of a loop, and then the loop's next iteration.
    Iteration {
        label: Label,
        guard: &'p Truth,
        body: &'p [Stmt],
    },
    /// The turns of a `parts`.
    Turns(TurnsToCome<'p>),
    /// The body of a procedure, and then the caller's environment comes back.
    Body {
        body: &'p [Stmt],
        caller: Environment,
    },
}
