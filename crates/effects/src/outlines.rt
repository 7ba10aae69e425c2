//! What each procedure does without its calls, and what its calls bring.

ghost use Rattle.std.specs.Prelude.{◌≡◌, ◌↔◌, ◌++◌, ◌+◌, ℕ, OnOk, IfOk, map, flat_map, length};
ghost use Rattle.sections.specs.Member.{Member};
ghost use Rattle.types.specs.Translation.{procedure as plain, program as program_of};
ghost use Rattle.effects.specs.Closing.{HasIn};
ghost use Rattle.effects.specs.Flows.{flows_of};
ghost use Rattle.effects.specs.Outlines.{starts_in, flows_in, flows_in_all, StartsAt, numbered};
ghost use Rattle.effects.specs.Roots.{root_in};
ghost use Rattle.effects.specs.Starts.{starts_of};
ghost use Rattle.effects.specs.SummaryRows.{HasRow};
ghost use Rattle.effects.specs.Visits.{visit as visit_of};
ghost use Rattle.effects.specs.declared.summary.SummaryRow.{SummaryRow as TheRow};

use crate::flows::{CallFlow, flow_visit};
use crate::roots::Roots;
use crate::starts::{FirstLabel, start_visit};
use crate::summary::Summary;
use crate::visits::{Standing, Visit, visit_block};
use std::alloc::{AllocError, Global};
use types::code::{Procedure, Program};
use types::ids::ProcedureId;

/// Returns what each procedure, and after them `main`, does without its calls, and what all calls
/// bring.
pub fn outlines(
    alloc: Global,
    code: &Program,
    flows: &mut Vec<CallFlow>,
) -> Result<Vec<Summary>, AllocError>
    ensures rows { IfOk result (λ table. (f : ℕ) (r : TheRow) (l : ℕ)
        → HasIn table.items f r l ↔ StartsAt (numbered (program_of code.now)) f r l) }
    ensures flows { let p = program_of code.now in OnOk result (flows.new.items
        ≡ flows.old.items ++ flows_in_all (length p.procedures) 0 (numbered p)) }
    ensures number { IfOk result (λ table. length table.items
        ≡ length (numbered (program_of code.now))) }
{
    let procedures = code.procedures.len();
    let mut table = Vec::new(alloc);
    for (number, procedure) in code.procedures.iter().enumerate() {
        let caller = ProcedureId { number };
        let summary = outline(alloc, procedures, caller, procedure, flows)?;
        table.push(summary)?;
    }
    let main = ProcedureId { number: procedures };
    let summary = outline(alloc, procedures, main, &code.main, flows)?;
    table.push(summary)?;
    Ok(table)
}

/// Returns what one procedure does without its calls, and what its calls bring.
fn outline(
    alloc: Global,
    procedures: usize,
    caller: ProcedureId,
    procedure: &Procedure,
    flows: &mut Vec<CallFlow>,
) -> Result<Summary, AllocError>
    ensures rows { IfOk result (λ x. (r : TheRow) (l : ℕ)
        → HasRow x r l ↔ Member (record { row = r; label = l }) (starts_in (plain procedure.now))) }
    ensures flows { OnOk result (flows.new.items
        ≡ flows.old.items ++ flows_in procedures caller (plain procedure.now)) }
{
    let roots = Roots::new(alloc, &procedure.sections)?;
    let mut visits = Vec::new(alloc);
    visit_block(Standing::Open, &procedure.body, &mut visits)?;
    flow_visits(caller, procedures, &roots, &visits, flows)?;
    let starts = starts(alloc, &roots, &visits)?;
    collected(alloc, &starts)
}

/// Adds what the calls among statements bring.
fn flow_visits(
    caller: ProcedureId,
    procedures: usize,
    roots: &Roots,
    visits: &[Visit<'_>],
    into: &mut Vec<CallFlow>,
) -> Result<(), AllocError>
    ensures { OnOk result (into.new.items ≡ into.old.items
        ++ flat_map (flows_of caller procedures (root_in roots.now)) (map visit_of visits.entry.now)) }
{
    for visit in visits {
        flow_visit(caller, procedures, roots, *visit, into)?;
    }
    Ok(())
}

/// Returns what statements do without their calls.
fn starts(alloc: Global, roots: &Roots, visits: &[Visit<'_>]) -> Result<Vec<FirstLabel>, AllocError>
    ensures { IfOk result (λ xs. xs.items
        ≡ flat_map (starts_of (root_in roots.now)) (map visit_of visits.entry.now)) }
{
    let mut starts = Vec::new(alloc);
    for visit in visits {
        start_visit(alloc, roots, *visit, &mut starts)?;
    }
    Ok(starts)
}

/// Returns a summary whose rows contain these labels.
fn collected(alloc: Global, starts: &[FirstLabel]) -> Result<Summary, AllocError>
    ensures { IfOk result (λ x. (r : TheRow) (l : ℕ)
        → HasRow x r l ↔ Member (record { row = r; label = l }) starts.now) }
{
    let mut summary = Summary::new(alloc);
    for start in starts {
        summary.insert(alloc, start.row, start.label)?;
    }
    Ok(summary)
}
