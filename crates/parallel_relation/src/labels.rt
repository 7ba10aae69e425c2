//! The labels of statements.

ghost use Rattle.std.specs.Prelude.{◌∷◌, [], IfOk, OnOk};
ghost use Rattle.types.specs.Run.{procedure_of};
ghost use Rattle.types.specs.Translation.{program, codes};
ghost use Rattle.effects.specs.Effects.{labels, All};
ghost use Rattle.effects.specs.LabelSets.{HasLabel};
ghost use Rattle.effects.specs.Summarized.{AreSummaries};
ghost use Rattle.parallel_relation.specs.Around.{Gains, none};

use effects::label_set::LabelSet;
use effects::summaries::Summaries;
use std::alloc::{AllocError, Global};
use types::code::{Program, Stmt, StmtKind};
use types::ids::ProcedureId;

/// Returns a copy of a set.
pub fn copy_of(alloc: Global, set: &LabelSet) -> Result<LabelSet, AllocError>
    ensures { IfOk result (λ copy. Gains none (HasLabel set.now) (HasLabel copy)) }
{
    set.copied(alloc)
}

/// Returns the labels of two sets.
pub fn union_of(alloc: Global, one: &LabelSet, other: &LabelSet) -> Result<LabelSet, AllocError>
    ensures { IfOk result (λ union. Gains (HasLabel one.now) (HasLabel other.now) (HasLabel union)) }
{
    let mut union = one.copied(alloc)?;
    union.unite(other)?;
    Ok(union)
}

/// Adds the labels of a list of statements, of everything inside them, and of their calls.
#[cycle(labels)]
pub fn add_labels(
    code: &Program,
    summaries: &Summaries,
    block: &[Stmt],
    set: &mut LabelSet,
) -> Result<(), AllocError>
    requires { AreSummaries (program code.now) summaries.now }
    ensures { OnOk result (Gains (HasLabel set.old)
        (All (program code.now) labels (codes block.now)) (HasLabel set.new)) }
{
    for statement in block {
        add_labels_of(code, summaries, statement, set)?;
    }
    Ok(())
}

/// Adds the labels of a statement.
#[cycle(labels)]
pub fn add_labels_of(
    code: &Program,
    summaries: &Summaries,
    statement: &Stmt,
    set: &mut LabelSet,
) -> Result<(), AllocError>
    requires { AreSummaries (program code.now) summaries.now }
    ensures { OnOk result (Gains (HasLabel set.old)
        (All (program code.now) labels (codes (statement.now ∷ []))) (HasLabel set.new)) }
{
    set.insert(statement.label)?;
    match &statement.kind {
        StmtKind::Do(_) => Ok(()),
        StmtKind::If { body, other, .. } => {
            add_labels(code, summaries, body, set)?;
            add_labels(code, summaries, other, set)
        }
        StmtKind::Rescue { body, handler, .. } => {
            add_labels(code, summaries, body, set)?;
            add_labels(code, summaries, handler, set)
        }
        StmtKind::While { body, .. }
        | StmtKind::Split { body, .. }
        | StmtKind::Parts { body, .. }
        | StmtKind::Async { body }
        | StmtKind::Finish { body } => add_labels(code, summaries, body, set),
        StmtKind::Call { procedure, .. } => add_labels_of_call(code, summaries, *procedure, set),
    }
}

/// Adds the labels of a procedure.
fn add_labels_of_call(
    code: &Program,
    summaries: &Summaries,
    procedure: ProcedureId,
    set: &mut LabelSet,
) -> Result<(), AllocError>
    requires { AreSummaries (program code.now) summaries.now }
    ensures { let p = program code.now in OnOk result (Gains (HasLabel set.old)
        (All p labels (procedure_of p procedure.number).body) (HasLabel set.new)) }
{
    if procedure.number >= code.procedures.len() {
        return Ok(());
    }
    set.unite(&summaries.of(procedure).labels)?;
    Ok(())
}
