//! The walk that finds which labels may run together.

ghost use Rattle.std.specs.Prelude.{◌↔◌, ℕ, IfOk, OnOk};
ghost use Rattle.types.specs.Translation.{program, codes, code as plain_code};
ghost use Rattle.effects.specs.LabelSets.{HasLabel};
ghost use Rattle.effects.specs.Summarized.{AreSummaries};
ghost use Rattle.parallel_relation.specs.Around.{Adds, BlockMeets, InsideMeets};
ghost use Rattle.parallel_relation.specs.Found.{FoundMeets, Arises};

use crate::found::FoundPairs;
use crate::labels::{add_labels_of, copy_of, union_of};
use effects::label_set::LabelSet;
use effects::summaries::Summaries;
use std::alloc::{AllocError, Global};
use types::code::{Program, Stmt, StmtKind};

/// What the walk needs to know about the program.
#[derive(Clone, Copy)]
pub struct Guide<'p> {
    pub alloc: Global,
    pub code: &'p Program,
    /// What the procedures of the program do.
    pub summaries: &'p Summaries,
}

/// Finds the pairs of all procedures and of `main`.
pub fn walk_all(
    alloc: Global,
    code: &Program,
    summaries: &Summaries,
) -> Result<FoundPairs, AllocError>
    requires { AreSummaries (program code.now) summaries.now }
    ensures { let p = program code.now in
        IfOk result (λ found. (x y : ℕ) → FoundMeets p found x y ↔ Arises p x y) }
{
    let guide = Guide {
        alloc,
        code,
        summaries,
    };
    let none = LabelSet::new(alloc);
    let mut found = FoundPairs::new(alloc);
    for procedure in &code.procedures {
        let body = &procedure.body;
        walk(guide, &none, &none, body, &mut found)?;
    }
    let body = &code.main.body;
    walk(guide, &none, &none, body, &mut found)?;
    Ok(found)
}

/// Finds the pairs of a block: everything that it does meets `everything`, what it leaves pending
/// meets `later`, and its statements meet one another. It walks the statements from the last to the
/// first, so what comes after each statement is known.
#[cycle(walk)]
pub fn walk(
    guide: Guide<'_>,
    everything: &LabelSet,
    later: &LabelSet,
    block: &[Stmt],
    found: &mut FoundPairs,
) -> Result<(), AllocError>
    requires { AreSummaries (program guide.code.now) guide.summaries.now }
    ensures { let p = program guide.entry.code.now in OnOk result (Adds (FoundMeets p found.old)
        (BlockMeets p (HasLabel everything.now) (HasLabel later.now) (codes block.now))
        (FoundMeets p found.new)) }
{
    let mut behind = copy_of(guide.alloc, later)?;
    for k in (0..block.len()).rev() {
        let statement = &block[k];
        found.add_label(guide.alloc, statement.label, everything)?;
        walk_inside(guide, everything, &behind, statement, found)?;
        add_labels_of(guide.code, guide.summaries, statement, &mut behind)?;
    }
    Ok(())
}

/// Finds the pairs of a statement's blocks and of its call.
#[cycle(walk)]
fn walk_inside(
    guide: Guide<'_>,
    everything: &LabelSet,
    later: &LabelSet,
    statement: &Stmt,
    found: &mut FoundPairs,
) -> Result<(), AllocError>
    requires { AreSummaries (program guide.code.now) guide.summaries.now }
    ensures { let p = program guide.entry.code.now in OnOk result (Adds (FoundMeets p found.old)
        (InsideMeets p (HasLabel everything.now) (HasLabel later.now) statement.now.label
        (plain_code statement.now.kind)) (FoundMeets p found.new)) }
{
    match &statement.kind {
        StmtKind::Do(_) => Ok(()),
        StmtKind::If { body, other, .. } => {
            walk(guide, everything, later, body, found)?;
            walk(guide, everything, later, other, found)
        }
        StmtKind::While { body, .. } => {
            let mut again = copy_of(guide.alloc, later)?;
            add_labels_of(guide.code, guide.summaries, statement, &mut again)?;
            walk(guide, everything, &again, body, found)
        }
        StmtKind::Split { body, .. } => walk(guide, everything, later, body, found),
        StmtKind::Parts { body, .. } => {
            let mut further = copy_of(guide.alloc, later)?;
            add_labels_of(guide.code, guide.summaries, statement, &mut further)?;
            walk(guide, everything, &further, body, found)
        }
        StmtKind::Call { procedure, .. } => {
            found.add_call(guide.alloc, *procedure, everything, later)
        }
        StmtKind::Async { body } => {
            let beside = union_of(guide.alloc, everything, later)?;
            let none = LabelSet::new(guide.alloc);
            walk(guide, &beside, &none, body, found)
        }
        StmtKind::Finish { body } => {
            let none = LabelSet::new(guide.alloc);
            walk(guide, everything, &none, body, found)
        }
        StmtKind::Rescue { body, handler, .. } => {
            let none = LabelSet::new(guide.alloc);
            walk(guide, everything, &none, body, found)?;
            walk(guide, everything, later, handler, found)
        }
    }
}
