//! The results of tasks.

use holdings::holdings::Holdings;
use sections::window::Window;
use types::fault::Fault;
use types::path::Path;

/// What a parent knows of a task that it spawned.
#[derive(Drop)]
pub struct Listed {
    pub path: Path,
    /// The places that it may write, and that come back from it.
    pub windows: Vec<Window>,

    // The lines and faults of the parent since its previous child. The hole comes after them.
    pub lines: Vec<Vec<i64>>,
    pub faults: Vec<Fault>,
}

/// What a task has at its end, or at the end of a finish.
#[derive(Drop)]
pub struct TaskResult {
    pub path: Path,
    /// It was over its budget.
    pub stopped: bool,
    pub holdings: Holdings,

    // Its lines and faults since its last child.
    pub lines: Vec<Vec<i64>>,
    pub faults: Vec<Fault>,

    /// The tasks that it spawned, in order.
    pub children: Vec<Listed>,
}

/// The settled result of a task, with all tasks that it lists.
#[derive(Drop)]
pub struct Settled {
    /// The task or one of the tasks below it was over its budget.
    pub stopped: bool,
    pub holdings: Holdings,
    pub lines: Vec<Vec<i64>>,
    pub faults: Vec<Fault>,
}
