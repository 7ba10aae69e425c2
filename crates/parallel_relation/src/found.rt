//! What the walk finds about the labels that may run together.

ghost use Rattle.std.specs.Prelude.{OnOk, ℕ};
ghost use Rattle.types.specs.Code.{Program};
ghost use Rattle.effects.specs.LabelSets.{HasLabel};
ghost use Rattle.parallel_relation.specs.Around.{Adds, at, CallMeets};

use crate::rows::Rows;
use effects::label_set::LabelSet;
use std::alloc::{AllocError, Global};
use types::code::Label;
use types::ids::ProcedureId;

/// Which labels may be done while others are pending.
#[derive(Drop)]
pub struct FoundPairs {
    /// The labels that each label meets.
    pub labels: Rows,
    /// For each procedure, the labels that everything it does meets.
    pub calls: Rows,
    /// For each procedure, the labels that what it leaves pending meets.
    pub ends: Rows,
}

impl FoundPairs {
    ghost use Rattle.parallel_relation.specs.Found.{FoundMeets};

    /// Returns an empty result.
    pub fn new(alloc: Global) -> FoundPairs
        ensures { (p : Program) (x y : ℕ) → FoundMeets p result x y → ⊥ }
    {
        FoundPairs {
            labels: Rows::new(alloc),
            calls: Rows::new(alloc),
            ends: Rows::new(alloc),
        }
    }

    /// Records that a label meets all of these labels.
    pub fn add_label(
        &mut self,
        alloc: Global,
        label: Label,
        those: &LabelSet,
    ) -> Result<(), AllocError>
        ensures { OnOk result ((p : Program) → Adds (FoundMeets p self.old)
            (at label (HasLabel those.now)) (FoundMeets p self.new)) }
    {
        self.labels.add(alloc, label as usize, those)
    }

    /// Records a call: everything that the procedure does meets `everything`, and what it leaves
    /// pending meets `later`.
    pub fn add_call(
        &mut self,
        alloc: Global,
        procedure: ProcedureId,
        everything: &LabelSet,
        later: &LabelSet,
    ) -> Result<(), AllocError>
        ensures { OnOk result ((p : Program) → Adds (FoundMeets p self.old)
            (CallMeets p procedure.number (HasLabel everything.now) (HasLabel later.now))
            (FoundMeets p self.new)) }
    {
        self.calls.add(alloc, procedure.number, everything)?;
        self.ends.add(alloc, procedure.number, later)
    }
}
