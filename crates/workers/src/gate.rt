//! Observers of tasks.

ghost use Rattle.std.specs.Prelude.{◌↔◌, IsSome, IsTrue};
ghost use Rattle.weighted_task.specs.Tasks.{IsTask};

use types::path::Path;
use weighted_task::task::Task;

/// An observer of each task except the root: as the task starts, and once it has finished. It also
/// observes when a worker holds the lock of a scope. It may wait.
pub trait Gate {
    ghost wants: { Type 0 };

    /// Returns whether `leave` is to get the paths of tasks. If not, no path is copied for it.
    fn wants_paths() -> bool
        ensures { IsTrue result ↔ wants };

    /// Returns whether it is to observe each task. If not, a worker may run a task with all tasks
    /// below it in place, and the gate observes only the end of that.
    fn observes_all() -> bool;

    /// Observes a task that is about to take its first turn, on this thread.
    fn enter(&self, task: &Task<'_>)
        requires task { IsTask task.now };

    /// Observes that the result of a task was given to its scope, on this thread. The path is that
    /// of the task. A gate that doesn't want paths gets none.
    fn leave(&self, path: Option<&Path>)
        requires { wants → IsSome path };

    /// Observes that this thread holds the lock of a scope, to which a task gives weight back. All
    /// other scopes are free.
    fn hold(&self);
}

/// A gate that lets every task pass.
pub struct NoGate;

impl Gate for NoGate {
    ghost wants = { ⊥ };

    fn wants_paths() -> bool {
        false
    }

    fn observes_all() -> bool {
        false
    }

    fn enter(&self, _task: &Task<'_>) {}

    fn leave(&self, _path: Option<&Path>) {}

    fn hold(&self) {}
}
