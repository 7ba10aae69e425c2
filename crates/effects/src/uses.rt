//! Sets of labels by section.

ghost use Rattle.std.specs.Prelude.{◌↔◌, ◌⊎◌, ◌≡◌, ◌<◌, ℕ, IsTrue, OnOk, IfOk, false, true, vec_len};
ghost use Rattle.effects.specs.Least.{IsLeast};
ghost use Rattle.effects.specs.LabelSets.{HasLabel, HasNew};
ghost use Rattle.effects.specs.UseSets.{HasUse};

use crate::label_set::LabelSet;
use sections::id::SectionId;
use std::alloc::{AllocError, Global};
use types::code::Label;

/// The labels of the statements that use each section in one way, either by reading or by writing
/// it.
#[derive(Drop)]
pub struct Uses {
    /// One set for each section, by section number.
    sets: Vec<LabelSet>,
}

impl Uses {
    /// Returns an empty set of uses. It allocates no memory.
    pub fn new(alloc: Global) -> Uses
        ensures { (s l : ℕ) → HasUse result s l → ⊥ }
    {
        Uses {
            sets: Vec::new(alloc),
        }
    }

    /// Returns whether the statement with this label uses a section.
    pub fn has(&self, section: SectionId, label: Label) -> bool
        ensures { IsTrue result ↔ HasUse self.now section.number label }
    {
        match self.sets.get(section.number) {
            Some(labels) => labels.has(label),
            None => false,
        }
    }

    /// Returns the smallest label of the statements that use a section.
    pub fn first(&self, section: SectionId) -> Option<Label>
        ensures { IsLeast (HasUse self.now section.number) result }
    {
        match self.sets.get(section.number) {
            Some(labels) => labels.least(),
            None => None,
        }
    }

    /// Adds that a statement uses a section.
    pub fn insert(
        &mut self,
        alloc: Global,
        section: SectionId,
        label: Label,
    ) -> Result<(), AllocError>
        ensures { OnOk result ((s l : ℕ) → HasUse self.new s l
            ↔ (HasUse self.old s l ⊎ ((s ≡ section.number) × (l ≡ label)))) }
    {
        self.reserve(alloc, section.number)?;
        self.sets[section.number].insert(label)?;
        Ok(())
    }

    /// Adds that the statements with these labels use a section. Returns false if all of these uses
    /// were already known.
    pub fn unite(
        &mut self,
        alloc: Global,
        section: SectionId,
        labels: &LabelSet,
    ) -> Result<bool, AllocError>
        ensures both { OnOk result ((s l : ℕ) → HasUse self.new s l
            ↔ (HasUse self.old s l ⊎ ((s ≡ section.number) × HasLabel labels.now l))) }
        ensures grown { IfOk result (λ grown. grown ≡ false
            → (l : ℕ) → HasLabel labels.now l → HasUse self.old section.number l) }
        ensures new { IfOk result (λ grown. grown ≡ true
            → HasNew (HasUse self.old section.number) (HasLabel labels.now)) }
    {
        self.reserve(alloc, section.number)?;
        let grown = self.sets[section.number].unite(labels)?;
        Ok(grown)
    }

    /// Returns the labels of the statements that use a section.
    pub fn copied(&self, alloc: Global, section: SectionId) -> Result<LabelSet, AllocError>
        ensures { IfOk result (λ labels. (l : ℕ)
            → HasLabel labels l ↔ HasUse self.now section.number l) }
    {
        match self.sets.get(section.number) {
            Some(labels) => labels.copied(alloc),
            None => Ok(LabelSet::new(alloc)),
        }
    }

    /// Returns an upper bound: each used section has a smaller number.
    pub fn end(&self) -> usize
        ensures { (s l : ℕ) → HasUse self.now s l → s < result }
    {
        self.sets.len()
    }

    /// Makes room for a section. The uses stay as they are.
    fn reserve(&mut self, alloc: Global, section: usize) -> Result<(), AllocError>
        ensures same { OnOk result ((s l : ℕ) → HasUse self.new s l ↔ HasUse self.old s l) }
        ensures room { OnOk result (section < vec_len self.new.sets) }
    {
        let count = section.checked_add(1).ok_or(AllocError)?;
        for _ in self.sets.len()..count {
            self.sets.push(LabelSet::new(alloc))?;
        }
        Ok(())
    }
}
