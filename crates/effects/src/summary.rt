//! What a procedure may do.

ghost use Rattle.std.specs.Prelude.{◌↔◌, ◌⊎◌, ◌≡◌, OnOk, IfOk, false, true, ℕ};
ghost use Rattle.effects.specs.LabelSets.{HasLabel, HasNew};
ghost use Rattle.effects.specs.SummaryRows.{HasRow};
ghost use Rattle.effects.specs.declared.summary.SummaryRow.{SummaryRow as TheRow};

use crate::accesses::Accesses;
use crate::label_set::LabelSet;
use sections::id::SectionId;
use std::alloc::{AllocError, Global};
use types::code::Label;

/// What the body of a procedure may do, in the names of its parameters.
#[derive(Drop)]
pub struct Summary {
    pub all: Accesses,
    /// What may still be done after the body has finished.
    pub pending: Accesses,
    /// The labels of its statements, and of the statements that its calls run.
    pub labels: LabelSet,
    pub pending_labels: LabelSet,
}

/// The name of one set of labels in a summary.
#[derive(Clone, Copy, PartialEq, Eq, Debug)]
pub enum SummaryRow {
    /// The labels of the accesses that write a section, or of those that read it.
    All { section: SectionId, write: bool },
    /// The labels of the pending accesses that write a section, or of those that read it.
    Pending { section: SectionId, write: bool },
    /// The labels of all statements.
    Labels,
    /// The labels of the statements that are left pending.
    PendingLabels,
}

impl Summary {
    /// Returns the summary of a body that does nothing.
    pub fn new(alloc: Global) -> Summary
        ensures { (r : TheRow) (l : ℕ) → HasRow result r l → ⊥ }
    {
        Summary {
            all: Accesses::new(alloc),
            pending: Accesses::new(alloc),
            labels: LabelSet::new(alloc),
            pending_labels: LabelSet::new(alloc),
        }
    }

    /// Adds a label to a row.
    pub fn insert(&mut self, alloc: Global, row: SummaryRow, label: Label) -> Result<(), AllocError>
        ensures { OnOk result ((r : TheRow) (l : ℕ) → HasRow self.new r l
            ↔ (HasRow self.old r l ⊎ ((r ≡ row) × (l ≡ label)))) }
    {
        match row {
            SummaryRow::All { section, write } => self.all.insert(alloc, section, write, label),
            SummaryRow::Pending { section, write } => self
                .pending
                .insert(alloc, section, write, label),
            SummaryRow::Labels => self.labels.insert(label),
            SummaryRow::PendingLabels => self.pending_labels.insert(label),
        }
    }

    /// Adds labels to a row. Returns false if all of them were already there.
    pub fn unite(
        &mut self,
        alloc: Global,
        row: SummaryRow,
        labels: &LabelSet,
    ) -> Result<bool, AllocError>
        ensures both { OnOk result ((r : TheRow) (l : ℕ) → HasRow self.new r l
            ↔ (HasRow self.old r l ⊎ ((r ≡ row) × HasLabel labels.now l))) }
        ensures grown { IfOk result (λ grown. grown ≡ false
            → (l : ℕ) → HasLabel labels.now l → HasRow self.old row l) }
        ensures new { IfOk result (λ grown. grown ≡ true
            → HasNew (HasRow self.old row) (HasLabel labels.now)) }
    {
        match row {
            SummaryRow::All { section, write } => self.all.unite(alloc, section, write, labels),
            SummaryRow::Pending { section, write } => self
                .pending
                .unite(alloc, section, write, labels),
            SummaryRow::Labels => self.labels.unite(labels),
            SummaryRow::PendingLabels => self.pending_labels.unite(labels),
        }
    }

    /// Returns the labels of a row.
    pub fn copied(&self, alloc: Global, row: SummaryRow) -> Result<LabelSet, AllocError>
        ensures { IfOk result (λ labels. (l : ℕ) → HasLabel labels l ↔ HasRow self.now row l) }
    {
        match row {
            SummaryRow::All { section, write } => self.all.copied(alloc, section, write),
            SummaryRow::Pending { section, write } => self.pending.copied(alloc, section, write),
            SummaryRow::Labels => self.labels.copied(alloc),
            SummaryRow::PendingLabels => self.pending_labels.copied(alloc),
        }
    }
}
