//! What each async of a program needs.

ghost use Rattle.std.specs.Prelude.{◌≡◌, ℕ, IfOk, OnOk};
ghost use Rattle.types.specs.Code.{Async};
ghost use Rattle.types.specs.Translation.{code as plain_code, codes as codes_of, program as program_of};
ghost use Rattle.effects.specs.AsyncNeeds.{IsNeedAt, Keeps, needs_at};
ghost use Rattle.effects.specs.Sound.{IsSound};
ghost use Rattle.effects.specs.Statements.{HasStatement, IsPartOf, Stands};
ghost use Rattle.effects.specs.Summarized.{AreOfProcedures};

use crate::doings::add_block;
use crate::firsts::Firsts;
use crate::needs::Needs;
use crate::summary::Summary;
use crate::visits::{Standing, visit_block};
use std::alloc::{AllocError, Global};
use std::collections::BTreeMap;
use types::code::{Label, Program, Stmt, StmtKind};

/// Returns what the body of each async needs, by the async's label.
pub fn needs_of_asyncs(
    alloc: Global,
    code: &Program,
    table: &[Summary],
) -> Result<BTreeMap<Label, Needs>, AllocError>
    requires sound { IsSound (program_of code.now) }
    requires summaries { AreOfProcedures (program_of code.now) table.now }
    ensures { IfOk result (λ kept. (l : ℕ)
        → IsNeedAt (program_of code.now) l (needs_at kept l)) }
{
    let mut kept = BTreeMap::new(alloc);
    for procedure in &code.procedures {
        keep_block(alloc, code, table, &procedure.body, &mut kept)?;
    }
    keep_block(alloc, code, table, &code.main.body, &mut kept)?;
    Ok(kept)
}

/// Adds the needs of the asyncs in a block.
fn keep_block(
    alloc: Global,
    code: &Program,
    table: &[Summary],
    block: &[Stmt],
    kept: &mut BTreeMap<Label, Needs>,
) -> Result<(), AllocError>
    requires sound { IsSound (program_of code.now) }
    requires summaries { AreOfProcedures (program_of code.now) table.now }
    requires part { IsPartOf (program_of code.now) (codes_of block.now) }
    ensures { OnOk result (Keeps (program_of code.now)
        (λ l b. Stands (codes_of block.now) l (Async b)) (needs_at kept.old) (needs_at kept.new)) }
{
    let mut visits = Vec::new(alloc);
    visit_block(Standing::Open, block, &mut visits)?;
    for visit in &visits {
        keep(alloc, code, table, visit.statement, kept)?;
    }
    Ok(())
}

/// Adds the needs of a statement's body if the statement is an async.
fn keep(
    alloc: Global,
    code: &Program,
    table: &[Summary],
    statement: &Stmt,
    kept: &mut BTreeMap<Label, Needs>,
) -> Result<(), AllocError>
    requires sound { IsSound (program_of code.now) }
    requires summaries { AreOfProcedures (program_of code.now) table.now }
    requires there { HasStatement (program_of code.now) statement.now.label
        (plain_code statement.now.kind) }
    ensures { OnOk result (Keeps (program_of code.now)
        (λ l b. (statement.now.label ≡ l) × (plain_code statement.now.kind ≡ Async b))
        (needs_at kept.old) (needs_at kept.new)) }
{
    let StmtKind::Async { body } = &statement.kind else {
        return Ok(());
    };
    let mut all = Firsts::new(alloc);
    add_block(alloc, code, table, body, &mut all)?;
    let needs = Needs::of(alloc, all.items())?;
    kept.insert(statement.label, needs)?;
    Ok(())
}
