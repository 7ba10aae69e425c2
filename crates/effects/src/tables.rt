//! The summary of each procedure of a program.

ghost use Rattle.std.specs.Prelude.{◌≡◌, ◌↔◌, ℕ, IfOk, OnOk, length};
ghost use Rattle.sections.specs.Member.{Member};
ghost use Rattle.types.specs.Translation.{program as program_of};
ghost use Rattle.effects.specs.Closing.{HasIn};
ghost use Rattle.effects.specs.Coming.{Comes};
ghost use Rattle.effects.specs.Outlines.{numbered};
ghost use Rattle.effects.specs.declared.flows.CallFlow.{CallFlow as TheFlow};
ghost use Rattle.effects.specs.declared.summary.SummaryRow.{SummaryRow as TheRow};

use crate::closing::close;
use crate::flows::CallFlow;
use crate::outlines::outlines;
use crate::summary::Summary;
use std::alloc::{AllocError, Global};
use types::code::Program;

/// Returns the summaries of the procedures in the order of the text, and after them that of `main`.
pub fn table(alloc: Global, code: &Program) -> Result<Vec<Summary>, AllocError>
    ensures exact { IfOk result (λ table. (f : ℕ) (r : TheRow) (l : ℕ)
        → HasIn table.items f r l ↔ Comes (program_of code.now) f r l) }
    ensures number { IfOk result (λ table. length table.items
        ≡ length (numbered (program_of code.now))) }
{
    let mut flows = Vec::new(alloc);
    let mut table = outlines(alloc, code, &mut flows)?;
    add_reversed(&mut flows)?;
    close(alloc, &flows, &mut table)?;
    Ok(table)
}

/// Adds the flows once more, in reverse order. So one round propagates labels along a chain of
/// calls, whether procedures are declared before or after their callers.
fn add_reversed(flows: &mut Vec<CallFlow>) -> Result<(), AllocError>
    ensures { OnOk result ((x : TheFlow)
        → Member x flows.new.items ↔ Member x flows.old.items) }
{
    for place in (0..flows.len()).rev() {
        let flow = flows[place];
        flows.push(flow)?;
    }
    Ok(())
}
