//! The outcome of a run.

use crate::fault::Fault;

/// The outcome of a program on an input, under a budget.
#[derive(PartialEq, Eq, Debug, Drop)]
pub enum Outcome {
    /// The run ended, with or without faults.
    Ended {
        /// The contents of the arrays, in the order of declaration.
        arrays: Vec<Vec<i64>>,
        /// The printed lines, in depth-first order.
        lines: Vec<Vec<i64>>,
        /// The collected faults, in depth-first order.
        faults: Vec<Fault>,
    },
    /// A task exceeded its budget.
    Stopped,
}
