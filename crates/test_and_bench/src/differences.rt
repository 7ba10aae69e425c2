//! Where two texts differ.

ghost use Rattle.std.specs.Prelude.{◌≡◌, ◌++◌, codes, IfOk, option_map};
ghost use Rattle.std.specs.Fmt.{decimal};
ghost use Rattle.test_and_bench.specs.Differences.{description, difference as difference_of, differing_line};

use crate::hunks::{lines_in, push_hunk};
use std::alloc::{AllocError, Global};

/// Returns how a text differs from the expected one, or None if they are equal: the line in which
/// they first differ, followed by the lines that do.
pub fn difference(alloc: Global, told: &[u8], wanted: &[u8]) -> Result<Option<Vec<u8>>, AllocError>
    ensures { IfOk result
        (λ d. option_map (λ v. v.items) d ≡ difference_of told.now wanted.now) }
{
    if told == wanted {
        Ok(None)
    } else {
        Ok(Some(described(alloc, told, wanted)?))
    }
}

/// Returns the line in which two texts first differ, followed by the lines that do.
fn described(alloc: Global, told: &[u8], wanted: &[u8]) -> Result<Vec<u8>, AllocError>
    ensures { IfOk result (λ v. v.items ≡ description told.now wanted.now) }
{
    let mut text = headed(alloc, line_of_difference(told, wanted))?;
    let told_lines = lines_in(alloc, told)?;
    let wanted_lines = lines_in(alloc, wanted)?;
    push_hunk(alloc, &mut text, &told_lines, &wanted_lines)?;
    Ok(text)
}

/// Returns the end of the line that names the first line that differs.
fn headed(alloc: Global, line: usize) -> Result<Vec<u8>, AllocError>
    ensures { IfOk result (λ v. v.items
        ≡ codes "differs at line " ++ (decimal line ++ codes "\n")) }
{
    let head = format!(in alloc; "differs at line {line}\n")?;
    Vec::from_slice(alloc, head.as_bytes())
}

/// Returns the number of the first line in which two texts differ, from 1. If one begins with the
/// other, it is the line in which the shorter one ends.
fn line_of_difference(told: &[u8], wanted: &[u8]) -> usize
    ensures { result ≡ differing_line 1 told.now wanted.now }
{
    let mut line = 1;
    for index in 0..told.len().min(wanted.len()) {
        if told[index] != wanted[index] {
            return line;
        }
        if told[index] == b'\n' {
            line += 1;
        }
    }
    line
}
