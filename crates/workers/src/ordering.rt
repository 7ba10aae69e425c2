//! The order in which results are settled.

ghost use Rattle.std.specs.Prelude.{◌<◌, length, IfSome, IsPermutation};

use std::alloc::Global;
use task_run::result::TaskResult;

/// Up to this number, settling is fast in any order.
const FEW: usize = 16;

/// Returns results in another order. If one worker has left them, they are in the order of their
/// paths then, in which settling needs no table. One worker takes the last child first, and gives a
/// task's result back before it takes the task's children.
pub(crate) fn in_order(alloc: Global, results: Vec<TaskResult>) -> Vec<TaskResult>
    ensures { IsPermutation results.items result.items }
{
    if !are_falling(&results) {
        return results;
    }
    let results = reversed(results);
    match targets(alloc, &results) {
        Some(targets) => moved(results, targets),
        None => results,
    }
}

/// Returns whether the last result has a lesser path than the first, or than the second: a single
/// task at the top comes before all others in both orders.
fn are_falling(results: &[TaskResult]) -> bool {
    is_lesser_last(results, 0) || is_lesser_last(results, 1)
}

/// Returns whether the last result has a lesser path than the one at a position.
fn is_lesser_last(results: &[TaskResult], at: usize) -> bool {
    match (results.get(at), results.last()) {
        (Some(task), Some(last)) => last.path.turns < task.path.turns,
        _ => false,
    }
}

/// Returns the results, the last first. Those of a loop of asyncs are then in the order of their paths.
/// Of others, the results of a task's children come right before its own.
fn reversed(results: Vec<TaskResult>) -> Vec<TaskResult>
    ensures { IsPermutation results.items result.items }
{
    let mut results = results;
    results.reverse();
    results
}

/// Returns the position of each result in the order of paths, if the results of a task's children
/// come right before its own. Returns None if they don't, if there are no children, or if the results
/// are few. It doesn't compare paths: if a position is wrong, settling takes longer, and nothing else.
fn targets(alloc: Global, results: &[TaskResult]) -> Option<Vec<usize>> {
    if results.len() <= FEW || results.iter().all(|task| task.children.is_empty()) {
        return None;
    }
    let depth = results.last()?.path.turns.len();
    let mut sizes = Vec::with_capacity(alloc, results.len()).ok()?;
    let mut targets = Vec::with_capacity(alloc, results.len()).ok()?;
    for (at, task) in results.iter().enumerate() {
        let size = size_of(&sizes, at, task.children.len())?;
        let above = task.path.turns.len().checked_sub(depth)?;
        let first = at.checked_sub(size)?;
        sizes.push(size.checked_add(1)?).ok()?;
        targets.push(first.checked_add(above)?).ok()?;
    }
    Some(targets)
}

/// Returns the number of results below the one at a position, which has this number of children. The
/// sizes of those before it are known.
fn size_of(sizes: &[usize], at: usize, children: usize) -> Option<usize> {
    let mut size = 0usize;
    for _ in 0..children {
        let last = at.checked_sub(size)?.checked_sub(1)?;
        size = size.checked_add(*sizes.get(last)?)?;
    }
    Some(size)
}

/// Moves each result to its target, as far as there is one for each position.
fn moved(results: Vec<TaskResult>, targets: Vec<usize>) -> Vec<TaskResult>
    ensures { IsPermutation results.items result.items }
{
    let mut results = results;
    let mut targets = targets;
    let mut at = 0;
    // A swap puts one of the results to its target. So there are no more swaps than results.
    let mut left = results.len().saturating_mul(2);
    'swaps: while left > 0 {
        left -= 1;
        let next = swapped(&mut results, &mut targets, at);
        at = next;
    }
    results
}

/// Swaps the result at a position to its target. Returns the next position to be looked at: the same
/// one, or the one after it if there was nothing to do.
fn swapped(results: &mut Vec<TaskResult>, targets: &mut Vec<usize>, at: usize) -> usize
    ensures { IsPermutation results.old.items results.new.items }
{
    match place_to_go(results.len(), targets, at) {
        None => at.saturating_add(1),
        Some(to) => {
            results.swap(at, to);
            targets.swap(at, to);
            at
        }
    }
}

/// Returns the target of the result at a position, unless it is there.
fn place_to_go(results: usize, targets: &[usize], at: usize) -> Option<usize>
    ensures from { IfSome result (λ to. at < results) }
    ensures to { IfSome result (λ to. to < results) }
    ensures from_target { IfSome result (λ to. at < length targets.now) }
    ensures to_target { IfSome result (λ to. to < length targets.now) }
{
    let count = results.min(targets.len());
    if at >= count {
        return None;
    }
    let to = targets[at];
    if to == at || to >= count {
        return None;
    }
    Some(to)
}
