//! A theorem about tasks, as the contract of a function that does nothing.

ghost use Rattle.std.specs.Prelude.{ℕ};
ghost use Rattle.task_run.specs.declared.start.Start.{Start};
ghost use Rattle.weighted_task.specs.Turns.{AreTasks, IsWanting, Parts};
ghost use Rattle.weighted_task.specs.declared.task.Body.{Body};
ghost use Rattle.weighted_task.specs.declared.turn.WeightedTurn.{WeightedTurn};

/// A task that needed weight for its child, and that child, are tasks of the job once the weight is
/// divided.
pub fn more_weight_makes_tasks()
    ensures { (b : Body) (units : ℕ) (s : Start) (t : WeightedTurn) → Parts b units s t → IsWanting b s
        → AreTasks t }
{}
