//! The numbers of procedures and labels in a program.

ghost use Rattle.std.specs.Prelude.{◌≡◌, ◌-◌, ◌^◌, IfOk, IfSome, map, min};
ghost use Rattle.std.specs.String.{string_bytes};
ghost use Rattle.types.specs.Statements.{statements, statements_in};
ghost use Rattle.types.specs.Translation.{code as plain_code, codes, procedure as plain, program};
ghost use Rattle.printing.specs.Labels.{accepted_text, labels_in, labels_in_procedures};

use std::alloc::{AllocError, Global};
use types::code::{Procedure, Program, Stmt, StmtKind};

/// Returns the line for an accepted program: `accepted: 1 procedures, 9 labels`.
pub fn accepted_line(alloc: Global, code: &Program) -> Result<String, AllocError>
    ensures { IfOk result (λ text. string_bytes text ≡ accepted_text (program code.now)) }
{
    let procedures = code.procedures.len();
    let Some(labels) = labels(code) else {
        return Err(AllocError);
    };
    format!(in alloc; "accepted: {procedures} procedures, {labels} labels\n")
}

/// Returns the number of labels in a program: one for each statement. None if it doesn't fit in 64
/// bits, which is more than any memory can store.
pub fn labels(code: &Program) -> Option<u64>
    ensures { IfSome result (λ n. n ≡ labels_in (program code.now)) }
{
    let all = in_procedures(&code.procedures).saturating_add(in_block(&code.main.body));
    if all < u64::MAX { Some(all) } else { None }
}

/// Returns the number of statements in procedures, or the largest 64-bit number if there are more.
fn in_procedures(procedures: &[Procedure]) -> u64
    ensures { result ≡ min (labels_in_procedures (map plain procedures.now)) (2 ^ 64 - 1) }
{
    let mut sum = 0u64;
    for procedure in procedures {
        sum = sum.saturating_add(in_block(&procedure.body));
    }
    sum
}

/// Counts the statements of a block, including those inside others.
#[cycle(count)]
fn in_block(block: &[Stmt]) -> u64
    ensures { result ≡ min (statements (codes block.now)) (2 ^ 64 - 1) }
{
    let mut sum = 0u64;
    for stmt in block {
        sum = sum.saturating_add(in_statement(&stmt.kind));
    }
    sum
}

/// Counts a statement and those inside it.
#[cycle(count)]
fn in_statement(kind: &StmtKind) -> u64
    ensures { result ≡ min (statements_in (plain_code kind.now)) (2 ^ 64 - 1) }
{
    match kind {
        StmtKind::Do(_) => 1,
        StmtKind::If { body, other, .. } => in_block(body)
            .saturating_add(in_block(other))
            .saturating_add(1),
        StmtKind::While { body, .. } => in_block(body).saturating_add(1),
        StmtKind::Split { body, .. } => in_block(body).saturating_add(1),
        StmtKind::Parts { body, .. } => in_block(body).saturating_add(1),
        StmtKind::Call { .. } => 1,
        StmtKind::Async { body } => in_block(body).saturating_add(1),
        StmtKind::Finish { body } => in_block(body).saturating_add(1),
        StmtKind::Rescue { body, handler, .. } => in_block(body)
            .saturating_add(in_block(handler))
            .saturating_add(1),
    }
}
