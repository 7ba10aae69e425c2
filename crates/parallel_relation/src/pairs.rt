//! The pairs of labels that may run together.

ghost use Rattle.std.specs.Prelude.{◌↔◌, ◌≤◌, IfOk, IsTrue};
ghost use Rattle.types.specs.Typed.{code_of};
ghost use Rattle.effects.specs.LabelSets.{HasLabel};
ghost use Rattle.effects.specs.Least.{IsLeast};
ghost use Rattle.effects.specs.Summarized.{AreSummaries};
ghost use Rattle.parallel_relation.specs.Pairs.{ArePairs};

use crate::rows::Rows;
use crate::spread::{spread, turn};
use crate::walk::walk_all;
use effects::label_set::LabelSet;
use effects::summaries::Summaries;
use std::alloc::{AllocError, Global};
use types::code::Label;
use types::typed::Typed;

/// The pairs of labels of a program that may run together. A pair has no order.
#[derive(Drop)]
pub struct Pairs {
    /// For each label, the labels not smaller than it with which it forms a pair.
    rows: Rows,
}

/// An iterator over the pairs in order, the smaller label first.
#[derive(Drop)]
pub struct PairList<'a> {
    pairs: &'a Pairs,
    /// The position of the iterator: the next pair is at or after these two labels.
    first: usize,
    second: usize,
}

/// Returns the pairs of labels that may run together, in all procedures, called or not, and in
/// `main`.
pub fn may_run_together(
    alloc: Global,
    typed: &Typed,
    summaries: &Summaries,
) -> Result<Pairs, AllocError>
    requires { ∥ AreSummaries (code_of typed.now) summaries.now ∥₁ }
    ensures { IfOk result (ArePairs (code_of typed.now)) }
{
    let code = typed.code();
    let found = walk_all(alloc, code, summaries)?;
    let mut rows = spread(alloc, code, summaries, found)?;
    turn(alloc, &mut rows)?;
    Ok(Pairs { rows })
}

impl Pairs {
    ghost use Rattle.parallel_relation.specs.Pairs.{HasPair, AreListed, pairs_left};

    /// Returns whether two labels may run together.
    pub fn has(&self, one: Label, other: Label) -> bool
        ensures { IsTrue result ↔ HasPair self.now one other }
    {
        if one <= other {
            self.rows.has(one as usize, other)
        } else {
            self.rows.has(other as usize, one)
        }
    }

    /// Returns an iterator over each pair once, the smaller label first, in ascending order.
    pub fn list(&self) -> PairList<'_>
        ensures { AreListed (HasPair self.now) (pairs_left result) }
    {
        PairList {
            pairs: self,
            first: 0,
            second: 0,
        }
    }
}

/// Returns the smallest label of a row that is at least `from`.
fn next_in(row: &LabelSet, from: usize) -> Option<Label>
    ensures { IsLeast (λ l. (from ≤ l) × HasLabel row.now l) result }
{
    for label in from..row.end() {
        if row.has(label as Label) {
            return Some(label as Label);
        }
    }
    None
}

impl<'a> Iterator for PairList<'a> {
    type Item = (Label, Label);

    ghost use Rattle.std.specs.Iterator.{YieldsFirst, item_count};
    ghost use Rattle.parallel_relation.specs.Pairs.{pairs_left};

    ghost next_gives = { YieldsFirst pairs_left };

    ghost remaining = { item_count pairs_left };

    fn next(&mut self) -> Option<(Label, Label)> {
        while let Some(row) = self.pairs.rows.get(self.first) {
            match next_in(row, self.second) {
                Some(second) => {
                    self.second = second as usize + 1;
                    return Some((self.first as Label, second));
                }
                None => {
                    self.first += 1;
                    self.second = self.first;
                }
            }
        }
        None
    }
}
