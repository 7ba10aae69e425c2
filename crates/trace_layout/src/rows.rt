//! Stretches in rows.

ghost use Rattle.std.specs.Prelude.{◌≡◌, ◌<◌, ◌≤◌, All, Any, IfOk, IfSome, MatchOption};
ghost use Rattle.trace_layout.specs.Rows.{AreApart, first_free as first_free_row, rows_of as rows_in};

use crate::stretch::Stretch;
use std::alloc::{AllocError, Global};

/// Returns the row of each stretch: the first that is free at its start. Returns None if that takes
/// more rows than `most`.
pub fn rows_of(
    alloc: Global,
    stretches: &[Stretch],
    most: usize,
) -> Result<Option<Vec<usize>>, AllocError>
    ensures placed { IfOk result (λ o. IfSome o (λ rows. rows.items ≡ rows_in stretches.now)) }
    ensures few { IfOk result (λ o. MatchOption o
        (Any (λ row. most ≤ row) (rows_in stretches.now)) (λ rows. All (λ row. row < most) rows.items)) }
    ensures apart { IfOk result (λ o. IfSome o (λ rows. AreApart stretches.now rows.items)) }
{
    let mut ends: Vec<usize> = Vec::new(alloc);
    let mut rows = Vec::new(alloc);
    for stretch in stretches {
        let row = first_free(&ends, stretch.first);
        if row >= most {
            return Ok(None);
        }
        if row < ends.len() {
            ends[row] = stretch.last;
        } else {
            ends.push(stretch.last)?;
        }
        rows.push(row)?;
    }
    Ok(Some(rows))
}

/// Returns the first row that is free from `first` on, given the ends of the rows; or the row after
/// the last.
fn first_free(ends: &[usize], first: usize) -> usize
    ensures { result ≡ first_free_row ends.now first }
{
    for (row, end) in ends.iter().enumerate() {
        if *end < first {
            return row;
        }
    }
    ends.len()
}
