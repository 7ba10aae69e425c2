//! The lines in which two texts differ.

ghost use Rattle.std.specs.Prelude.{◌≡◌, ◌≤◌, ◌++◌, IfOk, OnOk, length, map, reverse};
ghost use Rattle.test_and_bench.specs.Hunks.{common as common_lines, hunk, lines_of, shown_byte};
ghost use Rattle.test_and_bench.specs.Hunks.{signed, signed_line};

use std::alloc::{AllocError, Global};

/// The number of equal lines that are shown before and after the others.
const CONTEXT: usize = 3;

/// Returns the lines of a text: its parts between line feeds.
pub fn lines_in(alloc: Global, text: &[u8]) -> Result<Vec<&[u8]>, AllocError>
    ensures { IfOk result (λ v. map (λ line. line.now) v.items ≡ lines_of text.now) }
{
    text.split(|byte| *byte == b'\n').collect(alloc)
}

/// Adds the lines in which these lines differ from the expected ones: those with `+`, the expected
/// ones with `-`, and some equal lines before and after them.
pub fn push_hunk(
    alloc: Global,
    text: &mut Vec<u8>,
    told: &[&[u8]],
    wanted: &[&[u8]],
) -> Result<(), AllocError>
    ensures { OnOk result (text.new.items
        ≡ text.old.items ++ hunk (λ line. line.now) told.now wanted.now) }
{
    let before = common(told, wanted);
    let behind = common_at_end(alloc, &told[before..], &wanted[before..])?;
    let told_end = told.len() - behind;
    let wanted_end = wanted.len() - behind;
    let after_end = told_end + behind.saturating_sub(1).min(CONTEXT);
    push_lines(text, b' ', &told[before.saturating_sub(CONTEXT)..before])?;
    push_lines(text, b'-', &wanted[before..wanted_end])?;
    push_lines(text, b'+', &told[before..told_end])?;
    push_lines(text, b' ', &told[told_end..after_end])
}

/// Returns the number of lines that two texts have in common at their start.
fn common(told: &[&[u8]], wanted: &[&[u8]]) -> usize
    ensures count { result ≡ common_lines (λ line. line.now) told.now wanted.now }
    ensures fits { (result ≤ length told.now) × (result ≤ length wanted.now) }
{
    let most = told.len().min(wanted.len());
    for index in 0..most {
        if told[index] != wanted[index] {
            return index;
        }
    }
    most
}

/// Returns the number of lines that two texts have in common at their end.
fn common_at_end(alloc: Global, told: &[&[u8]], wanted: &[&[u8]]) -> Result<usize, AllocError>
    ensures count { IfOk result
        (λ n. n ≡ common_lines (λ line. line.now) (reverse told.now) (reverse wanted.now)) }
    ensures fits { IfOk result (λ n. (n ≤ length told.now) × (n ≤ length wanted.now)) }
{
    let mut told = Vec::from_slice(alloc, told)?;
    let mut wanted = Vec::from_slice(alloc, wanted)?;
    told.reverse();
    wanted.reverse();
    Ok(common(&told, &wanted))
}

/// Adds these lines, each after a sign.
fn push_lines(text: &mut Vec<u8>, sign: u8, lines: &[&[u8]]) -> Result<(), AllocError>
    ensures { OnOk result (text.new.items
        ≡ text.old.items ++ signed (λ line. line.now) sign lines.now) }
{
    for line in lines {
        push_line(text, sign, line)?;
    }
    Ok(())
}

/// Adds a line after a sign.
fn push_line(text: &mut Vec<u8>, sign: u8, line: &[u8]) -> Result<(), AllocError>
    ensures { OnOk result (text.new.items ≡ text.old.items ++ signed_line sign line.now) }
{
    text.push(sign)?;
    push_shown(text, line)?;
    text.push(b'\n')?;
    Ok(())
}

/// Adds the bytes of a line as they are shown.
fn push_shown(text: &mut Vec<u8>, line: &[u8]) -> Result<(), AllocError>
    ensures { OnOk result (text.new.items ≡ text.old.items ++ map shown_byte line.now) }
{
    for byte in line {
        text.push(shown(*byte))?;
    }
    Ok(())
}

/// Returns a byte as it is shown: `?` unless it is a printable ASCII character.
fn shown(byte: u8) -> u8
    ensures { result ≡ shown_byte byte }
{
    if byte < 32 || 126 < byte { b'?' } else { byte }
}
