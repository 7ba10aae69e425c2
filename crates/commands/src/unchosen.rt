//! Explanations for choices that don't parse, or that name no task.

ghost use Rattle.std.specs.Prelude.{◌≡◌};

use crate::unread::{first_of, headed, place_behind, text_before};
use command_line::request::Choosing;
use excerpts::heading::Heading;
use files::choices::MOST_BYTES;
use files::file_source::FileSource;
use run_explanations::headings::heading_of;
use std::alloc::{AllocError, Global};

const TOO_LONG: &str = "A file of choices can have at most 16777216 bytes; this one is larger.
help: use fewer choices, or let `--random 1` make them.
";

const LISTED: &str =
    "help: write numbers separated by single commas, without spaces, as in `--choices 0,1`.\n";

const FILED: &str = "help: write numbers separated by commas or white space.\n";

const NO_LEAF: &str = "fewer such tasks, or the run has ended.
help: remove this choice and those after it; `open N` then gives the number of tasks that can take a step.
More: `afx explain no-leaf`.
";

const OPEN: &str =
    "All choices are used and the run has not ended: this many tasks can still take a step.
help: add choices, or let `--random 1` choose until the end.
More: `afx explain open`.
";

const DRAWN: &str =
    "1000000 random choices have not ended the run: this many tasks can still take a step.
help: look for a loop that doesn't end, or give the program a smaller input.
More: `afx explain open`.
";

/// Explains which entry of a list or of a file is not a choice, and what a choice is.
pub fn choices_explained<F: FileSource>(
    alloc: Global,
    files: &mut F,
    choosing: Option<Choosing<'_>>,
) -> Result<String, AllocError>
    ensures { F.held files.new ≡ F.held files.old }
{
    match choosing {
        Some(Choosing::Listed(list)) => {
            let heading = heading_of("--choices", WORD);
            entry_explained(alloc, heading, list, wrong_in_list(list), LISTED)
        }
        Some(Choosing::InFile(name)) => match first_of(files, name, MOST_BYTES + 1) {
            Some(bytes) => filed_explained(alloc, name, &bytes),
            None => entry_explained(alloc, heading_of(name, WORD), "", None, FILED),
        },
        _ => Ok(String::new(alloc)),
    }
}

/// The word of the page about choices.
const WORD: &str = "choices";

/// Explains which entry of a file is not a choice, or that the file is too long.
fn filed_explained(alloc: Global, name: &str, bytes: &[u8]) -> Result<String, AllocError> {
    let heading = heading_of(name, WORD);
    if bytes.len() > MOST_BYTES {
        return headed(alloc, heading, TOO_LONG);
    }
    let text = text_before(bytes);
    let behind = if text.len() < bytes.len() {
        Some(text.len())
    } else {
        None
    };
    entry_explained(alloc, heading, text, wrong_in_file(text).or(behind), FILED)
}

/// Explains where the entry is that is not a choice, and how to write choices.
fn entry_explained(
    alloc: Global,
    heading: Heading<'_>,
    text: &str,
    at: Option<usize>,
    mend: &str,
) -> Result<String, AllocError> {
    let mut told = String::new(alloc);
    match at {
        Some(at) => {
            let place = place_behind(text.get(..at).unwrap_or(""));
            heading.push_excerpt(&mut told, text, place)?;
            told.push_str("Expected a choice: an integer from 0 to 4294967295.\n")?;
        }
        None => {
            heading.push(&mut told, None)?;
            told.push_str("A choice is an integer from 0 to 4294967295.\n")?;
        }
    }
    told.push_str(mend)?;
    Ok(told)
}

/// Returns the start of the first entry of a list that is not a choice, in bytes.
fn wrong_in_list(list: &str) -> Option<usize> {
    let mut at: usize = 0;
    for entry in list.split(',') {
        if entry.is_empty() || wrong_in_file(entry).is_some() || has_blank(entry) {
            return Some(at);
        }
        at = at.saturating_add(entry.len()).saturating_add(1);
    }
    None
}

/// Returns whether an entry contains a separator of files.
fn has_blank(entry: &str) -> bool {
    for byte in entry.as_bytes() {
        if separates(*byte) {
            return true;
        }
    }
    false
}

/// Returns the start of the first entry of a file that is not a choice, in bytes.
fn wrong_in_file(text: &str) -> Option<usize> {
    let mut begun: usize = 0;
    let mut value: u64 = 0;
    for (at, byte) in text.as_bytes().iter().enumerate() {
        if separates(*byte) {
            begun = at.saturating_add(1);
            value = 0;
        } else if b'0' <= *byte && *byte <= b'9' {
            let digit = u64::from(*byte - b'0');
            value = value.saturating_mul(10).saturating_add(digit);
        } else {
            return Some(begun);
        }
        if value > u64::from(u32::MAX) {
            return Some(begun);
        }
    }
    None
}

/// Returns whether a byte can separate two numbers of a file.
fn separates(byte: u8) -> bool {
    byte == b'\t' || byte == b'\n' || byte == b'\r' || byte == b' ' || byte == b','
}

/// Explains why a choice names no task.
pub fn no_leaf_explained(alloc: Global, file: &str, choice: usize) -> Result<String, AllocError> {
    let mut told = String::new(alloc);
    heading_of(file, "no-leaf").push(&mut told, None)?;
    write!(
        told,
        "A choice is the number, from 0, of a task that can take a step. At choice {choice} (counting from 0) there are\n"
    )?;
    told.push_str(NO_LEAF)?;
    Ok(told)
}

/// Explains why a run by choices is open.
pub fn open_explained(
    alloc: Global,
    file: &str,
    choosing: Option<Choosing<'_>>,
) -> Result<String, AllocError> {
    let text = match choosing {
        Some(Choosing::Random(_)) => DRAWN,
        _ => OPEN,
    };
    headed(alloc, heading_of(file, "open"), text)
}
