//! The work so far in a run, and its share at each label.

ghost use Rattle.std.specs.Prelude.{◌≡◌, IfOk, OnOk};
ghost use Rattle.types.specs.Translation.{code as plain_code};
ghost use Rattle.cost.specs.Accounts.{begins_at, counted_at, ends_behind, enters_at};
ghost use Rattle.cost.specs.Accounts.{leaves_behind, longer as rows_of_longer, noted};
ghost use Rattle.cost.specs.Accounts.{nothing_noted, row_of as row_in, span_by_label, steps_at};
ghost use Rattle.cost.specs.Translation.{account};

use crate::tally::Tally;
use std::alloc::{AllocError, Global};
use types::code::{Label, StmtKind};

/// The work so far. A table by label has a row for each label and for 0. If it has no rows, nothing
/// is kept by label.
#[derive(Drop)]
pub struct Account {
    pub tally: Tally,
    /// The steps of all tasks, by label.
    pub work: Vec<u64>,
    /// The steps of the longest chain to the task's current position, by label.
    pub here: Vec<u64>,
    /// The steps of the longest chain to the end of a task that ended in its innermost finish, by
    /// label. Has no rows if no task has ended there.
    pub ended: Vec<u64>,
}

impl Account {
    /// Returns an account of no work.
    pub fn start(alloc: Global, rows: usize) -> Result<Account, AllocError>
        ensures { IfOk result (λ a. account a ≡ nothing_noted rows) }
    {
        Ok(Account {
            tally: Tally::START,
            work: vec![in alloc; 0u64; rows]?,
            here: vec![in alloc; 0u64; rows]?,
            ended: Vec::new(alloc),
        })
    }

    /// Counts the step of a statement. An async and a finish count their step when they start.
    pub fn count(&mut self, label: Label, kind: &StmtKind) -> Result<(), AllocError>
        ensures { OnOk result
            (account self.new ≡ counted_at label (plain_code kind.now) (account self.old)) }
    {
        match kind {
            StmtKind::Async { .. } | StmtKind::Finish { .. } | StmtKind::Rescue { .. } => Ok(()),
            StmtKind::Do(_)
            | StmtKind::If { .. }
            | StmtKind::While { .. }
            | StmtKind::Split { .. }
            | StmtKind::Parts { .. }
            | StmtKind::Call { .. } => self.step(label),
        }
    }

    /// Counts a step of the task.
    pub fn step(&mut self, label: Label) -> Result<(), AllocError>
        ensures { OnOk result (account self.new ≡ steps_at label (account self.old)) }
    {
        self.tally.one_more()?;
        note(&mut self.work, label)?;
        note(&mut self.here, label)?;
        Ok(())
    }

    /// Counts the step of an async, and its new task, which is inside `depth` asyncs and copies
    /// `copied` places.
    pub fn begin_task(
        &mut self,
        label: Label,
        depth: usize,
        copied: usize,
    ) -> Result<(), AllocError>
        ensures { OnOk result (account self.new
            ≡ begins_at label depth copied (account self.old)) }
    {
        self.tally.begin_task(depth, copied)?;
        note(&mut self.work, label)?;
        note(&mut self.here, label)?;
        Ok(())
    }

    /// Returns the chain to the task's current position, by label.
    pub fn chain(&self, alloc: Global) -> Result<Vec<u64>, AllocError>
        ensures { IfOk result (λ rows. rows.items ≡ self.now.here.items) }
    {
        Vec::from_slice(alloc, &self.here)
    }

    /// Counts the end of an async's task. Its parent continues at `here`, with this chain, and with
    /// the steps `along` the way to it.
    pub fn end_task(
        &mut self,
        here: usize,
        along: usize,
        by_label: Vec<u64>,
    ) -> Result<(), AllocError>
        ensures { OnOk result
            (account self.new ≡ ends_behind here along by_label.items (account self.old)) }
    {
        let chain = std::mem::replace(&mut self.here, by_label);
        lengthen(&mut self.ended, self.tally.ended, chain, self.tally.here);
        self.tally.end_task(here, along)?;
        Ok(())
    }

    /// Counts the step of a finish, and starts the finish.
    pub fn enter_finish(&mut self, label: Label) -> Result<(), AllocError>
        ensures { OnOk result (account self.new ≡ enters_at label (account self.old)) }
    {
        self.tally.enter_finish()?;
        note(&mut self.work, label)?;
        note(&mut self.here, label)?;
        self.ended.clear();
        Ok(())
    }

    /// Counts the end of a finish. In the surrounding finish, tasks had ended at `ended`, by this
    /// chain.
    pub fn leave_finish(&mut self, ended: usize, by_label: Vec<u64>)
        ensures { account self.new ≡ leaves_behind ended by_label.items (account self.old) }
    {
        let chain = std::mem::replace(&mut self.ended, by_label);
        lengthen(&mut self.here, self.tally.here, chain, self.tally.ended);
        self.tally.leave_finish(ended);
    }

    /// Returns the steps at each label, and the steps of the longest chain to the end of all work.
    pub fn tables(self) -> (Vec<u64>, Vec<u64>)
        ensures work { result.0.items ≡ (account self).work }
        ensures span { result.1.items ≡ span_by_label (account self) }
    {
        let span = longer(self.tally.here, self.tally.ended, self.here, self.ended);
        (self.work, span)
    }
}

/// Counts one more step at a label.
#[tactic(auto, using(crate::proofs::Rows::noted_none))]
fn note(table: &mut Vec<u64>, label: Label) -> Result<(), AllocError>
    ensures { OnOk result (table.new.items ≡ noted label table.old.items) }
{
    let row = row_of(label, table.len());
    if row < table.len() {
        let steps = table[row].checked_add(1).ok_or(AllocError)?;
        table[row] = steps;
    }
    Ok(())
}

/// Returns the row of a label, or 0 if it has none.
fn row_of(label: Label, rows: usize) -> usize
    ensures { result ≡ row_in label rows }
{
    let row = label as usize;
    if row < rows { row } else { 0 }
}

/// Replaces a chain by another one if that is longer, by label.
fn lengthen(chain: &mut Vec<u64>, steps: usize, other: Vec<u64>, of_other: usize)
    ensures { chain.new.items ≡ rows_of_longer steps of_other chain.old.items other.items }
{
    if steps < of_other {
        *chain = other;
    }
}

/// Returns the longer of two chains, by label, or the first if they are equally long.
fn longer(first: usize, second: usize, of_first: Vec<u64>, of_second: Vec<u64>) -> Vec<u64>
    ensures { result.items ≡ rows_of_longer first second of_first.items of_second.items }
{
    if first < second { of_second } else { of_first }
}
