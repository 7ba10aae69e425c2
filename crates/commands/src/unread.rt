//! Explanations for files that can't be read, or are not text.

ghost use Rattle.std.specs.Prelude.{◌≡◌};

use excerpts::heading::Heading;
use failures::failure::Failure;
use files::file_source::{FileSource, Unreadable};
use run_explanations::headings::heading_of;
use std::alloc::{AllocError, Global};
use syntax::TextPlace;
use syntax::error::SyntaxError;
use syntax::parser::MOST_BYTES;

/// The maximum number of bytes that are read of a text that is too long, to count its bytes.
const MOST_COUNTED: usize = 16_777_216;

const MISSING: &str = "There is no file with this name.
help: check the name: it is relative to the current folder. `-` is standard input.
";

const FOLDER: &str = "This is a folder.
help: name a file in it. `afx test` takes folders.
";

const FORBIDDEN: &str = "You may not read this file.
help: give yourself the permission to read it, with `chmod u+r`.
";

const UNREAD: &str = "The file can't be read, or has more than 1 GiB.
help: check the file, and its name. `-` is standard input.
";

const UNWRITTEN: &str =
    "The folder doesn't exist, the name is a folder, the file can't be written, or the disk is full.
Or the command has read this file under another name. Or `fmt --write` would make a program of over 1,048,576 bytes of it.
help: name a file in an existing folder that you can write to.
";

const NEVER_WRITTEN: &str = "`-` is standard input and can't be written.
help: name a file.
";

const NO_TEXT: &str = "Programs, inputs and traces must be UTF-8.
help: save the file as UTF-8; outside comments a program is ASCII only.
";

/// Explains why the file of a program gives no text, and what would be right. Returns an empty text
/// if there is no more to say than the failure's line.
pub fn unread_explanation<F: FileSource>(
    alloc: Global,
    files: &mut F,
    name: &str,
    failure: &Failure,
) -> Result<String, AllocError>
    ensures { F.held files.new ≡ F.held files.old }
{
    match failure {
        Failure::CannotRead { .. } => unreadable_explained(alloc, files, name),
        Failure::Syntax(SyntaxError::TooLong) => {
            let many = bytes_of(files, name);
            too_long_explained(alloc, name, many)
        }
        Failure::NotUtf8 { .. } => match first_of(files, name, MOST_BYTES) {
            Some(bytes) => no_text_explained(alloc, name, &bytes),
            None => headed(alloc, heading_of(name, NO_UTF8), NO_TEXT),
        },
        _ => Ok(String::new(alloc)),
    }
}

/// The word of the page about files that aren't text.
const NO_UTF8: &str = "not-UTF-8";

/// Returns an explanation without a position.
pub fn headed(alloc: Global, heading: Heading<'_>, behind: &str) -> Result<String, AllocError> {
    let mut told = String::new(alloc);
    heading.push(&mut told, None)?;
    told.push_str(behind)?;
    Ok(told)
}

/// Returns the first bytes of a file, if they can be read again: the standard input gives them
/// once.
pub fn first_of<F: FileSource>(files: &mut F, name: &str, most: usize) -> Option<Vec<u8>>
    ensures { F.held files.new ≡ F.held files.old }
{
    if name == "-" {
        return None;
    }
    files.read_first(name, most).ok()
}

/// Returns the number of bytes of a file, up to a maximum; 0 if they can't be counted.
fn bytes_of<F: FileSource>(files: &mut F, name: &str) -> usize
    ensures { F.held files.new ≡ F.held files.old }
{
    match first_of(files, name, MOST_COUNTED) {
        Some(bytes) => bytes.len(),
        None => 0,
    }
}

/// Explains how many bytes a program's text has that is too long.
fn too_long_explained(alloc: Global, name: &str, many: usize) -> Result<String, AllocError> {
    let mut told = String::new(alloc);
    heading_of(name, "S5").push(&mut told, None)?;
    told.push_str("A program can have at most 1048576 bytes; this one has ")?;
    if many >= MOST_COUNTED {
        told.push_str("at least 16777216.\n")?;
    } else if many > MOST_BYTES {
        write!(told, "{many}.\n")?;
    } else {
        told.push_str("more.\n")?;
    }
    told.push_str("help: shorten it; use --input to read numbers from a file.\n")?;
    Ok(told)
}

/// Explains which byte of a file that was read again is not UTF-8.
pub fn reread_explained<F: FileSource>(
    alloc: Global,
    files: &mut F,
    name: &str,
) -> Result<String, AllocError>
    ensures { F.held files.new ≡ F.held files.old }
{
    match files.read(name) {
        Ok(bytes) => no_text_explained(alloc, name, &bytes),
        Err(_) => headed(alloc, heading_of(name, NO_UTF8), NO_TEXT),
    }
}

/// Explains where bytes are not UTF-8.
fn no_text_explained(alloc: Global, name: &str, bytes: &[u8]) -> Result<String, AllocError> {
    let heading = heading_of(name, NO_UTF8);
    let front = text_before(bytes);
    let at = front.len();
    let Some(byte) = bytes.get(at) else {
        return headed(alloc, heading, NO_TEXT);
    };
    let mut told = String::new(alloc);
    heading.push_excerpt(&mut told, front, place_behind(front))?;
    write!(
        told,
        "Byte {at} of the file (counting from 0) is {byte}, which is not valid UTF-8 there.\n"
    )?;
    told.push_str("help: save the file as UTF-8; outside comments a program is ASCII only.\n")?;
    Ok(told)
}

/// Returns the bytes before the first that are not UTF-8, as text.
pub fn text_before(bytes: &[u8]) -> &str {
    match std::str::from_utf8(bytes) {
        Ok(text) => text,
        Err(error) => {
            let front = bytes.get(..error.valid_up_to()).unwrap_or(&[]);
            std::str::from_utf8(front).unwrap_or("")
        }
    }
}

/// Returns the line and the column right after a text.
pub fn place_behind(text: &str) -> TextPlace {
    let mut line: u32 = 1;
    let mut column: u32 = 1;
    for character in text.chars() {
        if character == '\n' {
            line = line.saturating_add(1);
            column = 1;
        } else {
            column = column.saturating_add(1);
        }
    }
    TextPlace { line, column }
}

/// Explains why a file can't be read. It looks at the file again.
pub fn unreadable_explained<F: FileSource>(
    alloc: Global,
    files: &F,
    name: &str,
) -> Result<String, AllocError> {
    let why = match files.unreadable(name) {
        Unreadable::Missing => MISSING,
        Unreadable::Folder => FOLDER,
        Unreadable::Forbidden => FORBIDDEN,
        Unreadable::Otherwise => UNREAD,
    };
    headed(alloc, heading_of(name, "cannot-read"), why)
}

/// Explains why a file can't be written.
pub fn unwritten_explained(alloc: Global, name: &str) -> Result<String, AllocError> {
    let heading = heading_of(name, "cannot-write");
    if name == "-" {
        headed(alloc, heading, NEVER_WRITTEN)
    } else {
        headed(alloc, heading, UNWRITTEN)
    }
}
