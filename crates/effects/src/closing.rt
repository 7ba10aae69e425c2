//! Rows that contain what calls bring, and only that.

ghost use Rattle.std.specs.Prelude.{◌≡◌, ◌↔◌, ◌⊎◌, ℕ, OnOk, IfOk, false, true, length};
ghost use Rattle.effects.specs.Closing.{HasIn, Reached, Brings, BringsNew, IsClosed};
ghost use Rattle.effects.specs.LabelSets.{HasNew};
ghost use Rattle.effects.specs.declared.summary.SummaryRow.{SummaryRow as TheRow};

use crate::flows::CallFlow;
use crate::summary::Summary;
use std::alloc::{AllocError, Global};

/// Propagates labels along the flows until no label is new. Each round except the last adds a
/// label, and a row has fewer than 2^32 labels.
pub fn close(alloc: Global, flows: &[CallFlow], table: &mut Vec<Summary>) -> Result<(), AllocError>
    ensures exact { OnOk result ((f : ℕ) (r : TheRow) (l : ℕ)
        → HasIn table.new.items f r l ↔ Reached flows.now table.old.items f r l) }
    ensures number { OnOk result (length table.new.items ≡ length table.old.items) }
{
    loop {
        if !round(alloc, flows, table)? {
            return Ok(());
        }
    }
}

/// Propagates labels along each flow once. Returns false if no label was new.
fn round(alloc: Global, flows: &[CallFlow], table: &mut Vec<Summary>) -> Result<bool, AllocError>
    ensures number { OnOk result (length table.new.items ≡ length table.old.items) }
    ensures more { OnOk result ((f : ℕ) (r : TheRow) (l : ℕ)
        → HasIn table.old.items f r l → HasIn table.new.items f r l) }
    ensures reached { OnOk result ((f : ℕ) (r : TheRow) (l : ℕ)
        → HasIn table.new.items f r l → Reached flows.now table.old.items f r l) }
    ensures same { IfOk result (λ grown. grown ≡ false → (f : ℕ) (r : TheRow) (l : ℕ)
        → HasIn table.new.items f r l → HasIn table.old.items f r l) }
    ensures closed { IfOk result (λ grown. grown ≡ false → IsClosed flows.now table.old.items) }
    ensures new { IfOk result (λ grown. grown ≡ true
        → BringsNew flows.now table.old.items table.new.items) }
{
    let mut grown = false;
    for flow in flows {
        grown |= bring(alloc, *flow, table)?;
    }
    Ok(grown)
}

/// Propagates labels along one flow. Returns false if no label was new.
fn bring(alloc: Global, flow: CallFlow, table: &mut Vec<Summary>) -> Result<bool, AllocError>
    ensures number { OnOk result (length table.new.items ≡ length table.old.items) }
    ensures both { OnOk result ((f : ℕ) (r : TheRow) (l : ℕ) → HasIn table.new.items f r l
        ↔ (HasIn table.old.items f r l ⊎ Brings flow table.old.items f r l)) }
    ensures grown { IfOk result (λ grown. grown ≡ false → (l : ℕ)
        → Brings flow table.old.items flow.caller.number flow.to l
        → HasIn table.old.items flow.caller.number flow.to l) }
    ensures new { IfOk result (λ grown. grown ≡ true → HasNew
        (HasIn table.old.items flow.caller.number flow.to)
        (Brings flow table.old.items flow.caller.number flow.to)) }
{
    let labels = match table.get(flow.callee.number) {
        Some(callee) => callee.copied(alloc, flow.from)?,
        None => return Ok(false),
    };
    match table.get_mut(flow.caller.number) {
        Some(caller) => caller.unite(alloc, flow.to, &labels),
        None => Ok(false),
    }
}
