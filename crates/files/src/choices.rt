//! The choices of a command line, and of a file.

ghost use Rattle.std.specs.Prelude.{◌≡◌, IfErr, IfOk, Some, option_map};
ghost use Rattle.files.specs.Choices.{behind_comma, filed_by, nothing_read, numbers_of, read_from};
ghost use Rattle.files.specs.Choices.{read_of_file, reading_of, renumbered, said_by};
ghost use Rattle.files.specs.Choices.{separates as may_separate, with_begun, with_byte};
ghost use Rattle.files.specs.Choices.{with_byte_of_file, with_digit};
ghost use Rattle.files.specs.Choosing.{SaysChoices, TellsNoChoices, TellsNone};
ghost use Rattle.command_line.specs.Requests.{InFile};

use crate::file_source::{FileError, FileSource};
use failures::failure::Failure;
use std::alloc::{AllocError, Global};

/// The maximum number of bytes of a file of choices.
pub const MOST_BYTES: usize = 16_777_216;

/// Returns the choices in the file with this name. Reads no more of the file than it needs to.
#[tactic(auto, using(crate::proofs::ReadChoices::file_unread))]
pub fn choices_in_file<F: FileSource>(
    alloc: Global,
    files: &mut F,
    name: &str,
) -> Result<Vec<u32>, Failure>
    ensures says { IfOk result
        (λ numbers. SaysChoices (F.held files.old) name.now (Some numbers.items)) }
    ensures why { IfErr result (TellsNoChoices (Some (InFile name.now)) (F.held files.old)) }
    ensures keeps { F.held files.new ≡ F.held files.old }
{
    match files.read_first(name, MOST_BYTES + 1) {
        Ok(bytes) => choices_filed(alloc, &bytes),
        Err(FileError::NoMemory) => Err(Failure::NoMemory),
        Err(FileError::Failed) => Err(Failure::cannot_read(alloc, name)),
    }
}

/// Returns the choices in the bytes of a file.
fn choices_filed(alloc: Global, bytes: &[u8]) -> Result<Vec<u32>, Failure>
    ensures says { IfOk result (λ numbers. filed_by bytes.now ≡ Some numbers.items) }
    ensures why { IfErr result (TellsNone (filed_by bytes.now)) }
{
    if bytes.len() > MOST_BYTES {
        return Err(Failure::ChoicesNotUnderstood);
    }
    match filed(alloc, bytes) {
        Ok(Some(numbers)) => Ok(numbers),
        Ok(None) => Err(Failure::ChoicesNotUnderstood),
        Err(_) => Err(Failure::NoMemory),
    }
}

/// Returns the choices in a list: decimal numbers separated by commas.
pub fn choices_said(alloc: Global, text: &str) -> Result<Vec<u32>, Failure>
    ensures says { IfOk result (λ numbers. said_by text.now ≡ Some numbers.items) }
    ensures why { IfErr result (TellsNone (said_by text.now)) }
{
    match said(alloc, text.as_bytes()) {
        Ok(Some(numbers)) => Ok(numbers),
        Ok(None) => Err(Failure::ChoicesNotUnderstood),
        Err(_) => Err(Failure::NoMemory),
    }
}

/// Returns the choices in these bytes, if they are numbers separated by commas.
fn said(alloc: Global, text: &[u8]) -> Result<Option<Vec<u32>>, AllocError>
    ensures { IfOk result (λ r. option_map (λ numbers. numbers.items) r ≡ said_by text.now) }
{
    match text {
        [] => Ok(Some(Vec::new(alloc))),
        [_, ..] => numbers_in(alloc, text),
    }
}

/// What was read so far: the numbers before the last comma, and the one after it, if that has a
/// digit.
#[derive(Drop)]
pub struct ChoicesSoFar {
    pub before: Vec<u32>,
    pub number: Option<u32>,
}

/// Reads one or more numbers separated by commas.
fn numbers_in(alloc: Global, text: &[u8]) -> Result<Option<Vec<u32>>, AllocError>
    ensures { IfOk result
        (λ r. option_map (λ numbers. numbers.items) r ≡ read_from nothing_read text.now) }
{
    let mut reading = ChoicesSoFar {
        before: Vec::new(alloc),
        number: None,
    };
    let mut left = text;
    'bytes: while let Some((byte, behind)) = left.split_first() {
        let Some(next) = byte_read(reading, *byte)? else {
            return Ok(None);
        };
        reading = next;
        left = behind;
    }
    numbers_read(reading)
}

/// Reads one more byte.
fn byte_read(reading: ChoicesSoFar, byte: u8) -> Result<Option<ChoicesSoFar>, AllocError>
    ensures { IfOk result (λ r. option_map reading_of r ≡ with_byte (reading_of reading) byte) }
{
    if byte == b',' {
        comma_read(reading)
    } else {
        Ok(digit_read(reading, byte))
    }
}

/// Reads a comma.
fn comma_read(reading: ChoicesSoFar) -> Result<Option<ChoicesSoFar>, AllocError>
    ensures { IfOk result
        (λ r. option_map reading_of r ≡ option_map behind_comma (numbers_of (reading_of reading))) }
{
    match numbers_read(reading)? {
        None => Ok(None),
        Some(before) => Ok(Some(ChoicesSoFar {
            before,
            number: None,
        })),
    }
}

/// Returns all numbers, if the last one has a digit.
fn numbers_read(reading: ChoicesSoFar) -> Result<Option<Vec<u32>>, AllocError>
    ensures { IfOk result
        (λ r. option_map (λ numbers. numbers.items) r ≡ numbers_of (reading_of reading)) }
{
    let ChoicesSoFar { mut before, number } = reading;
    match number {
        None => Ok(None),
        Some(number) => {
            before.push(number)?;
            Ok(Some(before))
        }
    }
}

/// Reads a digit.
fn digit_read(reading: ChoicesSoFar, byte: u8) -> Option<ChoicesSoFar>
    ensures { option_map reading_of result ≡ option_map (renumbered (reading_of reading))
        (with_digit reading.number byte) }
{
    let ChoicesSoFar { before, number } = reading;
    match digit_behind(number, byte) {
        None => None,
        Some(number) => Some(ChoicesSoFar {
            before,
            number: Some(number),
        }),
    }
}

/// Appends a digit to a number, if the result is small enough.
fn digit_behind(number: Option<u32>, byte: u8) -> Option<u32>
    ensures { result ≡ with_digit number byte }
{
    if byte < b'0' || b'9' < byte {
        return None;
    }
    let value = u64::from(number.unwrap_or(0)) * 10 + u64::from(byte - b'0');
    if u64::from(u32::MAX) < value {
        None
    } else {
        Some(value as u32)
    }
}

// ---- in a file

/// Reads the numbers of a file, with commas or white space between them.
fn filed(alloc: Global, bytes: &[u8]) -> Result<Option<Vec<u32>>, AllocError>
    ensures { IfOk result
        (λ r. option_map (λ numbers. numbers.items) r ≡ read_of_file nothing_read bytes.now) }
{
    let mut reading = ChoicesSoFar {
        before: Vec::new(alloc),
        number: None,
    };
    let mut left = bytes;
    'bytes: while let Some((byte, behind)) = left.split_first() {
        let Some(next) = byte_of_file_read(reading, *byte)? else {
            return Ok(None);
        };
        reading = next;
        left = behind;
    }
    let numbers = all_begun(reading)?;
    Ok(Some(numbers))
}

/// Reads one more byte of a file.
fn byte_of_file_read(reading: ChoicesSoFar, byte: u8) -> Result<Option<ChoicesSoFar>, AllocError>
    ensures { IfOk result
        (λ r. option_map reading_of r ≡ with_byte_of_file (reading_of reading) byte) }
{
    if separates(byte) {
        let before = all_begun(reading)?;
        Ok(Some(ChoicesSoFar {
            before,
            number: None,
        }))
    } else {
        Ok(digit_read(reading, byte))
    }
}

/// Returns all numbers, including the last one if it has a digit.
fn all_begun(reading: ChoicesSoFar) -> Result<Vec<u32>, AllocError>
    ensures { IfOk result
        (λ numbers. numbers.items ≡ with_begun reading.before.items reading.number) }
{
    let ChoicesSoFar { mut before, number } = reading;
    if let Some(number) = number {
        before.push(number)?;
    }
    Ok(before)
}

/// Returns whether a byte can separate two numbers of a file.
fn separates(byte: u8) -> bool
    ensures { result ≡ may_separate byte }
{
    byte == b'\t' || byte == b'\n' || byte == b'\r' || byte == b' ' || byte == b','
}
