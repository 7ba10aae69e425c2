//! Sources of inputs that `clap` finds in the arguments.

use clap::ArgMatches;
use command_line::lists::{awaits, list_of};
use command_line::request::InputSource;

/// Returns the source of an input, or what is wrong with it. `clap` has checked that at most one kind
/// of option names one.
pub(crate) fn source_among<'w>(
    words: &'w [String],
    given: &ArgMatches<'w>,
) -> Result<Option<InputSource<'w>>, &'static str> {
    if let Some(file) = given.get_str("input") {
        return Ok(Some(InputSource::File(file)));
    }
    if let Some(lists) = given.get_strs("set") {
        return match mistake_in(words, lists) {
            None => Ok(Some(InputSource::Lists(words))),
            Some(wrong) => Err(wrong),
        };
    }
    match given.get_str("text") {
        Some(word) => match word.split_once('=') {
            Some((name, file)) if is_name(name) => Ok(Some(InputSource::Bytes { name, file })),
            _ => Err(NO_FILE_OF_BYTES),
        },
        None => Ok(None),
    }
}

const NO_FILE_OF_BYTES: &str =
    "--text takes NAME=FILE: the name of an array, and a file whose bytes are its elements";

const NO_LIST: &str =
    "--set takes NAME=1,2,3: the name of an array, and its elements in digits with commas between them";

const TWO_LISTS: &str = "--set gives the elements of an array only once";

const OTHER_LISTS: &str = "write --set as an option only, and not as a value or the name of a file";

/// Returns what is wrong with the lists that `clap` found, if something is: one isn't a list, two
/// are of one array, or they aren't those that the arguments have in the order of the text.
fn mistake_in(words: &[String], lists: &[&str]) -> Option<&'static str> {
    for index in 0..lists.len() {
        let Some((name, elements)) = lists[index].split_once('=') else {
            return Some(NO_LIST);
        };
        if !is_name(name) || !are_numbers(elements) {
            return Some(NO_LIST);
        }
        if has_list_of(name, &lists[..index]) {
            return Some(TWO_LISTS);
        }
    }
    if are_lists(words, lists) {
        None
    } else {
        Some(OTHER_LISTS)
    }
}

/// Returns whether one of these lists is of the array with this name.
fn has_list_of(name: &str, lists: &[&str]) -> bool {
    for list in lists {
        match list.split_once('=') {
            Some((other, _)) if other == name => return true,
            _ => {}
        }
    }
    false
}

/// Returns whether these are the lists among the arguments.
fn are_lists(words: &[String], lists: &[&str]) -> bool {
    let mut left = lists;
    let mut awaited = false;
    for word in words {
        if let Some(list) = list_of(awaited, word.as_str()) {
            match left {
                [first, others @ ..] if *first == list => left = others,
                _ => return false,
            }
        }
        awaited = awaits(awaited, word.as_str());
    }
    left.is_empty()
}

/// Returns whether this can be a part of a name. Then JSON spells it without escapes.
fn is_name(name: &str) -> bool {
    !name.is_empty()
        && name
            .bytes()
            .all(|byte| byte.is_ascii_alphanumeric() || byte == b'_')
}

/// Returns whether this is a list of integers in decimal, or empty.
fn are_numbers(elements: &str) -> bool {
    elements.is_empty() || elements.split(',').all(|part| is_number(part))
}

/// Returns whether this is an integer as JSON spells it.
fn is_number(part: &str) -> bool {
    let digits = part.strip_prefix('-').unwrap_or(part);
    let is_padded = digits.len() > 1 && digits.starts_with('0');
    !digits.is_empty() && !is_padded && digits.bytes().all(|byte| byte.is_ascii_digit())
}
