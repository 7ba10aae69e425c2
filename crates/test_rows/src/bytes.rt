//! Bytes in the notation of a table, after the character that says where they go; and bytes as
//! text.

use std::alloc::Global;
use std::io;
use std::io::ErrorKind;

/// Returns the error for a line of a table that can't be parsed.
pub fn not_understood() -> io::Error {
    io::Error::from(ErrorKind::InvalidData)
}

/// Parses a decimal number.
pub fn number_in(text: &str) -> io::Result<usize> {
    match text.parse::<usize>() {
        Ok(number) => Ok(number),
        Err(_) => Err(not_understood()),
    }
}

/// Appends a whole line (` skip;`), a part of one (`+ "skip;"`), a part that is repeated (`* 99
/// "("`), or bytes in hexadecimal (`x c3 a9`).
pub fn push_spelled(alloc: Global, bytes: &mut Vec<u8>, spelled: &str) -> io::Result<()> {
    if spelled.is_empty() {
        push_line(bytes, "")
    } else if let Some(line) = spelled.strip_prefix(' ') {
        push_line(bytes, line)
    } else if let Some(pairs) = spelled.strip_prefix("x ") {
        push_hexadecimal(bytes, pairs)
    } else {
        push_quoted(alloc, bytes, spelled)
    }
}

/// Appends a line with its line feed.
fn push_line(bytes: &mut Vec<u8>, line: &str) -> io::Result<()> {
    bytes.extend_from_slice(line.as_bytes())?;
    bytes.extend_from_slice(b"\n")?;
    Ok(())
}

/// Appends a byte for each pair of hexadecimal digits.
fn push_hexadecimal(bytes: &mut Vec<u8>, pairs: &str) -> io::Result<()> {
    for pair in pairs.split(' ') {
        match u8::from_str_radix(pair, 16) {
            Ok(byte) => bytes.push(byte)?,
            Err(_) => return Err(not_understood()),
        }
    }
    Ok(())
}

/// Appends the text between the first quote and the last, once or repeatedly.
fn push_quoted(alloc: Global, bytes: &mut Vec<u8>, spelled: &str) -> io::Result<()> {
    let Some((head, piece)) = split_at_quotes(spelled) else {
        return Err(not_understood());
    };
    if head == "+ " {
        bytes.extend_from_slice(piece.as_bytes())?;
        return Ok(());
    }
    let turns = turns_of(head)?;
    push_turns(alloc, bytes, &turns, piece)
}

/// Returns the text before the first quote, and the text between it and the last quote, which ends
/// the line.
fn split_at_quotes(spelled: &str) -> Option<(&str, &str)> {
    let (head, behind) = spelled.split_once('"')?;
    let piece = behind.strip_suffix('"')?;
    Some((head, piece))
}

/// The number of repetitions of a part, and the numbers that replace `#` in it: the first, and the
/// difference between two of them.
#[derive(Clone, Copy)]
struct Turns {
    count: usize,
    first: usize,
    step: usize,
}

/// Parses the repetitions in a head: `* 99 `, `* 99 from 1 ` or `* 99 from 2 by 2 `.
fn turns_of(head: &str) -> io::Result<Turns> {
    let Some(said) = head.trim_end().strip_prefix("* ") else {
        return Err(not_understood());
    };
    let (said, step) = said.split_once(" by ").unwrap_or((said, "1"));
    let (count, first) = said.split_once(" from ").unwrap_or((said, "0"));
    Ok(Turns {
        count: number_in(count)?,
        first: number_in(first)?,
        step: number_in(step)?,
    })
}

/// Appends all repetitions of a part.
fn push_turns(alloc: Global, bytes: &mut Vec<u8>, turns: &Turns, piece: &str) -> io::Result<()> {
    let mut number = turns.first;
    for _ in 0..turns.count {
        push_turn(alloc, bytes, piece, number)?;
        number = number.saturating_add(turns.step);
    }
    Ok(())
}

/// Appends a part with a number in place of each `#`.
fn push_turn(alloc: Global, bytes: &mut Vec<u8>, piece: &str, number: usize) -> io::Result<()> {
    let mut parts = piece.split('#');
    if let Some(first) = parts.next() {
        bytes.extend_from_slice(first.as_bytes())?;
    }
    for part in parts {
        let digits = format!(in alloc; "{number}")?;
        bytes.extend_from_slice(digits.as_bytes())?;
        bytes.extend_from_slice(part.as_bytes())?;
    }
    Ok(())
}

/// Returns the bytes as text, if they are UTF-8.
pub fn text_of(bytes: &[u8]) -> &str {
    std::str::from_utf8(bytes).unwrap_or("not UTF-8")
}
