//! Results that aren't used yet. Each is found by its path.

ghost use Rattle.std.specs.Prelude.{◌≡◌, ◌∷◌, ◌+◌, [], IfNone, IfOk, IfSome, List, MatchOption};
ghost use Rattle.std.specs.Prelude.{None, Some, length, map};
ghost use Rattle.std.specs.List.{IsAllAdjacentAnswer, position};
ghost use Rattle.std.specs.Ordering.{nat_cmp, partial_le};
ghost use Rattle.std.specs.Cmp.Lexicographic.{slice_partial_cmp};
ghost use Rattle.gather.specs.Unused.{is_of};
ghost use Rattle.task_run.specs.Settling.{take as take_of};
ghost use Rattle.task_run.specs.Translation.{task_result as result_of};

use crate::table::Table;
use std::alloc::{AllocError, Global};
use std::collections::VecDeque;
use task_run::result::TaskResult;
use types::path::Path;

/// Up to this number, a linear search is faster than a table.
const FEW: usize = 16;

/// Results that aren't used yet, in order.
#[derive(Drop)]
pub enum Unused {
    /// A few results, or results in the order of their paths. The search starts at the front.
    InTurn(VecDeque<TaskResult>),
    /// Many results in another order. Each is found by a look-up.
    Tabled(Table),
}

impl Unused {
    ghost use Rattle.gather.specs.Left.{left};

    /// Creates the collection of these results.
    pub fn of(alloc: Global, results: Vec<TaskResult>) -> Result<Unused, AllocError>
        ensures { IfOk result (λ unused. left unused ≡ results.items) }
    {
        if results.len() <= FEW || are_in_order(&results) {
            return Ok(Unused::InTurn(VecDeque::from(results)));
        }
        let table = Table::of(alloc, results)?;
        Ok(Unused::Tabled(table))
    }

    /// Takes out the first result with a path.
    pub fn take(&mut self, path: &Path) -> Option<TaskResult>
        ensures found { IfSome result (λ task.
            take_of path.now.turns.items (map result_of (left self.old))
            ≡ Some (result_of task, map result_of (left self.new))) }
        ensures none { IfNone result
            (take_of path.now.turns.items (map result_of (left self.old)) ≡ None) }
        ensures fewer { IfSome result (λ _.
            length (left self.new) + 1 ≡ length (left self.old)) }
    {
        match self {
            Unused::InTurn(tasks) => take_first(tasks, path),
            Unused::Tabled(table) => table.take(path),
        }
    }

    /// Returns the first of all remaining results.
    pub fn into_first(self) -> Option<TaskResult>
        ensures { MatchOption result (left self ≡ [])
            (λ task. (rest : List TaskResult) × (left self ≡ task ∷ rest)) }
    {
        match self {
            Unused::InTurn(tasks) => {
                let mut tasks = tasks;
                tasks.pop_front()
            }
            Unused::Tabled(table) => table.into_first(),
        }
    }
}

/// Returns whether results are in the order of their paths. The result of a hole is then the first
/// one left.
fn are_in_order(results: &[TaskResult]) -> bool
    ensures { IsAllAdjacentAnswer (λ one next b. b ≡ partial_le
        (slice_partial_cmp (λ x y. Some (nat_cmp x y)))
        one.path.turns.items next.path.turns.items) results.now result }
{
    results.is_sorted_by(|one, next| one.path.turns <= next.path.turns)
}

/// Takes out the first result with a path, searching from the front.
fn take_first(tasks: &mut VecDeque<TaskResult>, path: &Path) -> Option<TaskResult>
    ensures found { IfSome result (λ task.
        take_of path.now.turns.items (map result_of tasks.old.items)
        ≡ Some (result_of task, map result_of tasks.new.items)) }
    ensures none { IfNone result
        (take_of path.now.turns.items (map result_of tasks.old.items) ≡ None) }
    ensures fewer { IfSome result (λ _. length tasks.new.items + 1 ≡ length tasks.old.items) }
{
    match index_of(tasks, path) {
        None => None,
        Some(index) => tasks.remove(index),
    }
}

/// Returns the position of the first result with a path.
fn index_of(results: &VecDeque<TaskResult>, path: &Path) -> Option<usize>
    ensures { result ≡ position (is_of path.now.turns.items) results.now.items }
{
    results.iter().position(|task| task.path == *path)
}
