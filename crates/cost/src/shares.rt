//! The total that a table by label has for the statements of a procedure.

ghost use Rattle.std.specs.Prelude.{◌≡◌, ◌-◌, ◌^◌, IfSome, min, slice_index};
ghost use Rattle.types.specs.Translation.{code as plain_code, codes};
ghost use Rattle.cost.specs.Shares.{share_inside, share_of};

use types::code::{Procedure, Stmt, StmtKind};

/// Returns the total of a procedure. None if it doesn't fit in 64 bits.
pub fn share(table: &[u64], procedure: &Procedure) -> Option<u64>
    ensures { IfSome result (λ n. n ≡ share_of table.now (codes procedure.now.body.items)) }
{
    let all = in_block(table, &procedure.body);
    if all < u64::MAX { Some(all) } else { None }
}

/// Returns the number of a label, or 0.
pub fn at(table: &[u64], label: usize) -> u64
    ensures { result ≡ slice_index table.now label }
{
    table.get(label).copied().unwrap_or(0)
}

/// Returns the total of a block, including all statements inside, or the largest 64-bit number if
/// it is more.
#[cycle(count)]
fn in_block(table: &[u64], block: &[Stmt]) -> u64
    ensures { result ≡ min (share_of table.now (codes block.now)) (2 ^ 64 - 1) }
{
    let mut sum = 0u64;
    for stmt in block {
        let own = at(table, stmt.label as usize);
        sum = sum
            .saturating_add(own)
            .saturating_add(in_statement(table, &stmt.kind));
    }
    sum
}

/// Returns the total of the statements inside a statement.
#[cycle(count)]
fn in_statement(table: &[u64], kind: &StmtKind) -> u64
    ensures { result ≡ min (share_inside table.now (plain_code kind.now)) (2 ^ 64 - 1) }
{
    match kind {
        StmtKind::Do(_) => 0,
        StmtKind::If { body, other, .. } => {
            in_block(table, body).saturating_add(in_block(table, other))
        }
        StmtKind::While { body, .. } => in_block(table, body),
        StmtKind::Split { body, .. } => in_block(table, body),
        StmtKind::Parts { body, .. } => in_block(table, body),
        StmtKind::Call { .. } => 0,
        StmtKind::Async { body } => in_block(table, body),
        StmtKind::Finish { body } => in_block(table, body),
        StmtKind::Rescue { body, handler, .. } => {
            in_block(table, body).saturating_add(in_block(table, handler))
        }
    }
}
