//! Sets of labels by number.

ghost use Rattle.std.specs.Prelude.{◌↔◌, ◌≡◌, ◌≤◌, ◌<◌, ◌^◌, ℕ, IsTrue, OnOk, length, slice_get};
ghost use Rattle.std.specs.Option.{option_copied};
ghost use Rattle.effects.specs.LabelSets.{HasLabel};
ghost use Rattle.parallel_relation.specs.Around.{Adds, at};

use effects::label_set::LabelSet;
use std::alloc::{AllocError, Global};
use types::code::Label;

/// A set of labels for each number. At first each set is empty.
#[derive(Drop)]
pub struct Rows {
    rows: Vec<LabelSet>,
    ghost within: { length rows.items ≤ 2 ^ 32 },
}

impl Rows {
    ghost use Rattle.parallel_relation.specs.Rows.{HasAt, rows_of};

    /// Returns rows without labels. They take no memory.
    pub fn new(alloc: Global) -> Rows
        ensures { (i y : ℕ) → HasAt result i y → ⊥ }
    {
        Rows {
            rows: Vec::new(alloc),
        }
    }

    /// Returns the number of rows; rows past this number have no labels.
    pub fn len(&self) -> usize
        ensures len { result ≡ length (rows_of self.now) }
        ensures within { result ≤ 2 ^ 32 }
    {
        self.rows.len()
    }

    /// Returns the row with this number, if there is one.
    pub fn get(&self, number: usize) -> Option<&LabelSet>
        ensures { option_copied result ≡ slice_get (rows_of self.now) number }
    {
        self.rows.get(number)
    }

    /// Returns whether the row with this number has a label.
    pub fn has(&self, number: usize, label: Label) -> bool
        ensures { IsTrue result ↔ HasAt self.now number label }
    {
        match self.rows.get(number) {
            Some(row) => row.has(label),
            None => false,
        }
    }

    /// Adds labels to the row with this number.
    pub fn add(&mut self, alloc: Global, number: usize, more: &LabelSet) -> Result<(), AllocError>
        ensures { OnOk result
            (Adds (HasAt self.old) (at number (HasLabel more.now)) (HasAt self.new)) }
    {
        self.reach(alloc, number)?;
        self.rows[number].unite(more)?;
        Ok(())
    }

    /// Adds a label to the row with this number.
    pub fn put(&mut self, alloc: Global, number: usize, label: Label) -> Result<(), AllocError>
        ensures { OnOk result
            (Adds (HasAt self.old) (at number (λ y. y ≡ label)) (HasAt self.new)) }
    {
        self.reach(alloc, number)?;
        self.rows[number].insert(label)?;
        Ok(())
    }

    /// Makes a row for a number. If more than 4,294,967,296 rows are needed, it fails with
    /// `AllocError`.
    fn reach(&mut self, alloc: Global, number: usize) -> Result<(), AllocError>
        ensures there { OnOk result (number < length (rows_of self.new)) }
        ensures same { OnOk result ((i y : ℕ) → HasAt self.new i y ↔ HasAt self.old i y) }
    {
        if number > Label::MAX as usize {
            return Err(AllocError);
        }
        while self.rows.len() <= number {
            self.rows.push(LabelSet::new(alloc))?;
        }
        Ok(())
    }
}
