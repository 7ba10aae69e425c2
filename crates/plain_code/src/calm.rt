//! Which statements are plain: no async and no finish can be reached from them.

ghost use Rattle.std.specs.Prelude.{◌≡◌, ◌<◌, length, IfOk};
ghost use Rattle.std.specs.Bool.{OnFalse, OnTrue};
ghost use Rattle.types.specs.Translation.{code as plain_code, codes as codes_of, program as program_of};
ghost use Rattle.plain_code.specs.Calm.{AreCalm, AreMarked, are_plain_by, calm_count, is_plain_by};

use std::alloc::{AllocError, Global};
use types::code::{Program, Stmt, StmtKind};

/// Returns whether each procedure is calm. All procedures are assumed to be calm at first, and are
/// then marked one after the other as not calm.
pub fn calm_procedures(alloc: Global, program: &Program) -> Result<Vec<bool>, AllocError>
    ensures { IfOk result (λ c. AreCalm (program_of program.now) c.items) }
{
    let mut calm = vec![in alloc; true; program.procedures.len()]?;
    // Each round except the last marks one more, so the number of unmarked procedures decreases.
    'rounds: while round(program, &mut calm) {}
    Ok(calm)
}

/// Marks procedures that aren't calm, assuming that the procedures marked so far aren't calm.
/// Returns whether it marked one. If it marked none, it has looked at all procedures.
fn round(program: &Program, calm: &mut [bool]) -> bool
    requires count { length calm.old ≡ length program.now.procedures.items }
    requires marked { AreMarked (program_of program.now) calm.old }
    ensures marked { AreMarked (program_of program.now) calm.new }
    ensures found { OnTrue result (calm_count calm.new < calm_count calm.old) }
    ensures none { OnFalse result (AreCalm (program_of program.now) calm.new) }
{
    let mut found = false;
    let mut left = program.procedures.len();
    // Start with the last procedure: a procedure mostly calls those before it, or itself.
    'procedures: while left > 0 {
        left -= 1;
        if calm[left] && !are_plain(calm, &program.procedures[left].body) {
            calm[left] = false;
            found = true;
        }
    }
    found
}

/// Returns whether each statement of a block is plain, if the procedures that `calm` takes to be
/// calm are calm.
#[cycle(plain)]
pub fn are_plain(calm: &[bool], block: &[Stmt]) -> bool
    ensures { result ≡ are_plain_by calm.now (codes_of block.now) }
{
    for stmt in block {
        if !is_plain(calm, &stmt.kind) {
            return false;
        }
    }
    true
}

/// Returns whether a statement is plain, under the same assumption as `are_plain`.
#[cycle(plain)]
pub fn is_plain(calm: &[bool], kind: &StmtKind) -> bool
    ensures { result ≡ is_plain_by calm.now (plain_code kind.now) }
{
    match kind {
        StmtKind::Do(_) => true,
        StmtKind::If { body, other, .. } => are_plain(calm, body) && are_plain(calm, other),
        StmtKind::While { body, .. } => are_plain(calm, body),
        StmtKind::Split { body, .. } => are_plain(calm, body),
        StmtKind::Parts { body, .. } => are_plain(calm, body),
        StmtKind::Call { procedure, .. } => match calm.get(procedure.number) {
            Some(is_calm) => *is_calm,
            None => true,
        },
        StmtKind::Async { .. } | StmtKind::Finish { .. } | StmtKind::Rescue { .. } => false,
    }
}
