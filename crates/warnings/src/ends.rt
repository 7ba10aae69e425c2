//! Statements after which their task doesn't continue, and blocks that start no task.

ghost use Rattle.std.specs.Prelude.{◌≡◌};
ghost use Rattle.types.specs.Translation.{code as plain_code, codes as codes_of, primitive as primitive_of};
ghost use Rattle.types.specs.Translation.{truth as truth_of};
ghost use Rattle.warnings.specs.Ends.{block_may_leave as leaves_in, block_stops as ends_in};
ghost use Rattle.warnings.specs.Ends.{is_always as always, is_async as starts_task, is_fault as faults};
ghost use Rattle.warnings.specs.Ends.{is_lone_task as lone_task};
ghost use Rattle.warnings.specs.Ends.{is_never as never, may_leave as leaves, stops as ends};

use types::code::{Primitive, Stmt, StmtKind, Truth};

/// Returns whether a condition is `true`.
pub fn is_always(truth: &Truth) -> bool
    ensures { result ≡ always (truth_of truth.now) }
{
    match truth {
        Truth::Constant(value) => *value,
        Truth::Compare { .. } => false,
        Truth::Not(_) => false,
        Truth::Both(_) => false,
        Truth::Either(_) => false,
    }
}

/// Returns whether a condition is `false`.
pub fn is_never(truth: &Truth) -> bool
    ensures { result ≡ never (truth_of truth.now) }
{
    match truth {
        Truth::Constant(value) => !*value,
        Truth::Compare { .. } => false,
        Truth::Not(_) => false,
        Truth::Both(_) => false,
        Truth::Either(_) => false,
    }
}

/// Returns whether a statement of one step always faults.
fn is_fault(primitive: &Primitive) -> bool
    ensures { result ≡ faults (primitive_of primitive.now) }
{
    match primitive {
        Primitive::Fault { .. } => true,
        Primitive::Skip => false,
        Primitive::Assign { .. } => false,
        Primitive::Store { .. } => false,
        Primitive::Print { .. } => false,
    }
}

/// Returns whether a task doesn't continue after a statement, whatever its numbers are.
#[cycle(stops)]
pub fn stops(kind: &StmtKind) -> bool
    ensures { result ≡ ends (plain_code kind.now) }
{
    match kind {
        StmtKind::Do(primitive) => is_fault(primitive),
        StmtKind::If { guard, body, other } => {
            let one = is_never(guard) | block_stops(body);
            let two = is_always(guard) | block_stops(other);
            one & two
        }
        StmtKind::While { guard, .. } => is_always(guard),
        StmtKind::Split { body, .. } => block_stops(body),
        StmtKind::Parts { .. } => false,
        StmtKind::Call { .. } => false,
        StmtKind::Async { .. } => false,
        StmtKind::Finish { body } => block_stops(body),
        StmtKind::Rescue { body, handler, .. } => block_stops(body) & block_stops(handler),
    }
}

/// Returns whether a task doesn't continue after a statement of a block.
#[cycle(stops)]
fn block_stops(block: &[Stmt]) -> bool
    ensures { result ≡ ends_in (codes_of block.now) }
{
    for stmt in block {
        if stops(&stmt.kind) {
            return true;
        }
    }
    false
}

/// Returns whether a finish around a statement may wait for a task: it has an async outside of the
/// bodies of inner finishes, or a call.
#[cycle(leaves)]
fn may_leave(kind: &StmtKind) -> bool
    ensures { result ≡ leaves (plain_code kind.now) }
{
    match kind {
        StmtKind::Do(_) => false,
        StmtKind::If { body, other, .. } => block_may_leave(body) | block_may_leave(other),
        StmtKind::While { body, .. } => block_may_leave(body),
        StmtKind::Split { body, .. } => block_may_leave(body),
        StmtKind::Parts { body, .. } => block_may_leave(body),
        StmtKind::Call { .. } => true,
        StmtKind::Async { .. } => true,
        StmtKind::Finish { .. } => false,
        StmtKind::Rescue { handler, .. } => block_may_leave(handler),
    }
}

/// Returns whether a finish around a block may wait for a task.
#[cycle(leaves)]
pub fn block_may_leave(block: &[Stmt]) -> bool
    ensures { result ≡ leaves_in (codes_of block.now) }
{
    for stmt in block {
        if may_leave(&stmt.kind) {
            return true;
        }
    }
    false
}

/// Returns whether the last statement of a block is an async, and no statement before it may leave a
/// task: then a finish around the block waits for that task at once.
pub fn is_lone_task(block: &[Stmt]) -> bool
    ensures { result ≡ lone_task (codes_of block.now) }
{
    let mut ends_with_task = false;
    for stmt in block {
        if ends_with_task {
            return false;
        }
        if is_async(&stmt.kind) {
            ends_with_task = true;
        } else if may_leave(&stmt.kind) {
            return false;
        }
    }
    ends_with_task
}

/// Returns whether a statement is an async.
fn is_async(kind: &StmtKind) -> bool
    ensures { result ≡ starts_task (plain_code kind.now) }
{
    match kind {
        StmtKind::Async { .. } => true,
        _ => false,
    }
}
