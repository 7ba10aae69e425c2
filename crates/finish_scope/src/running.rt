//! The run that tasks, results and owners belong to.

use std::marker::Brand;

/// The job of a run, the weight that its scopes issue at a time, and the word from which its tasks
/// draw tickets. Only the type of a value from a lock or a queue is known, so the types that go there
/// name these. A run picks them once.
pub trait Running {
    ghost use Rattle.std.specs.Prelude.{ℕ, Option};
    ghost use Rattle.task_run.specs.declared.job.Job.{Job};
    ghost use Rattle.tickets.specs.Seats.{WordId};

    ghost job: { Option Job };

    ghost w0: { ℕ };

    ghost word: { Option WordId };
}

impl Running for Brand {
    ghost use Rattle.std.specs.Prelude.{None};

    ghost job = { None };

    ghost w0 = { 0 };

    ghost word = { None };
}
