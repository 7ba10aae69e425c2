//! All that statements may do, by section and kind, with first labels.

ghost use Rattle.std.specs.Prelude.{◌≡◌, ◌<◌, OnOk, length, map};
ghost use Rattle.sections.specs.Translation.{section as section_of};
ghost use Rattle.types.specs.Run.{procedure_of};
ghost use Rattle.types.specs.Translation.{code as plain_code, codes as codes_of, program as program_of};
ghost use Rattle.types.specs.Sound.{passed_for};
ghost use Rattle.effects.specs.Effects.{accesses, All};
ghost use Rattle.effects.specs.Firsts.{AddsFirsts, kept_in};
ghost use Rattle.effects.specs.Rows.{AllInside, Renamed};
ghost use Rattle.effects.specs.Sound.{IsSound};
ghost use Rattle.effects.specs.Statements.{HasStatement, IsPartOf};
ghost use Rattle.effects.specs.Summarized.{AreOfProcedures};

use crate::firsts::Firsts;
use crate::own::own_accesses;
use crate::summary::Summary;
use sections::id::SectionId;
use std::alloc::{AllocError, Global};
use types::code::{Program, Stmt, StmtKind};
use types::ids::ProcedureId;

/// Adds what the statements of a block may do.
#[cycle(doings)]
pub fn add_block(
    alloc: Global,
    code: &Program,
    table: &[Summary],
    block: &[Stmt],
    into: &mut Firsts,
) -> Result<(), AllocError>
    requires sound { IsSound (program_of code.now) }
    requires summaries { AreOfProcedures (program_of code.now) table.now }
    requires part { IsPartOf (program_of code.now) (codes_of block.now) }
    ensures { OnOk result (AddsFirsts (All (program_of code.now) accesses (codes_of block.now))
        (kept_in into.old) (kept_in into.new)) }
{
    for place in (0..block.len()).rev() {
        let statement = &block[place];
        let own = own_accesses(alloc, statement.label, &statement.kind)?;
        into.add_all(&own)?;
        add_inside(alloc, code, table, statement, into)?;
    }
    Ok(())
}

/// Adds what the blocks and the call of a statement may do.
#[cycle(doings)]
fn add_inside(
    alloc: Global,
    code: &Program,
    table: &[Summary],
    statement: &Stmt,
    into: &mut Firsts,
) -> Result<(), AllocError>
    requires sound { IsSound (program_of code.now) }
    requires summaries { AreOfProcedures (program_of code.now) table.now }
    requires there { HasStatement (program_of code.now) statement.now.label
        (plain_code statement.now.kind) }
    ensures { OnOk result (AddsFirsts
        (AllInside (program_of code.now) accesses (plain_code statement.now.kind))
        (kept_in into.old) (kept_in into.new)) }
{
    match &statement.kind {
        StmtKind::Do(_) => Ok(()),
        StmtKind::If { body, other, .. } => {
            add_block(alloc, code, table, body, into)?;
            add_block(alloc, code, table, other, into)
        }
        StmtKind::Rescue { body, handler, .. } => {
            add_block(alloc, code, table, body, into)?;
            add_block(alloc, code, table, handler, into)
        }
        StmtKind::While { body, .. } | StmtKind::Async { body } | StmtKind::Finish { body } => {
            add_block(alloc, code, table, body, into)
        }
        StmtKind::Split { sides, body } => {
            let mut inside = Firsts::new(alloc);
            add_block(alloc, code, table, body, &mut inside)?;
            let outside = inside.past_split(alloc, sides.section, sides.left, sides.right)?;
            into.add_all(outside.items())
        }
        StmtKind::Parts { pieces, body } => {
            let mut inside = Firsts::new(alloc);
            add_block(alloc, code, table, body, &mut inside)?;
            let outside = inside.past_parts(alloc, pieces.section, pieces.piece)?;
            into.add_all(outside.items())
        }
        StmtKind::Call {
            procedure,
            sections,
            ..
        } => add_call(alloc, code, table, *procedure, sections, into),
    }
}

/// Adds what a procedure may do, in the names around a call of it that passes these sections.
fn add_call(
    alloc: Global,
    code: &Program,
    table: &[Summary],
    callee: ProcedureId,
    sections: &[SectionId],
    into: &mut Firsts,
) -> Result<(), AllocError>
    requires sound { IsSound (program_of code.now) }
    requires summaries { AreOfProcedures (program_of code.now) table.now }
    requires there { callee.number < length (program_of code.now).procedures }
    requires number { length sections.now
        ≡ length (procedure_of (program_of code.now) callee.number).parameters }
    ensures { let p = program_of code.now in OnOk result (AddsFirsts
        (Renamed p accesses (passed_for (map section_of sections.now))
        (All p accesses (procedure_of p callee.number).body))
        (kept_in into.old) (kept_in into.new)) }
{
    let outside = Firsts::past_call(alloc, &table[callee.number].all, sections)?;
    into.add_all(outside.items())
}
