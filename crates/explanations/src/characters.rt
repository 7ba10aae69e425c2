//! Characters that no token starts with, and what to write instead.

use crate::brackets::without_comment;
use crate::habits::{COMMENT, FOR, PARALLEL_LOOP};
use excerpts::source::line_of;
use syntax::TextPlace;

const BITS: &str = "there are no operators on bits; use `and`, `or` and `not` between booleans";

const NAME: &str = "pass only the name, as in `f(a);`: the parameter declares `mut` or `read`";

const RANGE: &str =
    "there are no ranges: name a part with split, as in `split a at 2 as l, r { f(l); }`";

const TRACE: &str =
    "this is a trace: name the program first and the trace second, as in `afx view p.afx run.trace`";

const INPUT: &str =
    "this is JSON: name the program first, and the input with `--input`, as in `afx run p.afx --input p.json`";

/// Returns what to write instead of the unexpected character at a place.
pub fn mend_of_character(text: &str, place: TextPlace) -> &'static str {
    if text.starts_with("{\"format\"") {
        return TRACE;
    }
    if text.starts_with("{\"") {
        return INPUT;
    }
    if is_in_comment(text, place) {
        return COMMENT;
    }
    let line = line_of(text, place);
    let before = usize::try_from(place.column).unwrap_or(1).saturating_sub(1);
    let Some(character) = line.chars().nth(before) else {
        return "remove it";
    };
    let next = line.chars().nth(before.saturating_add(1));
    match character {
        '&' | '|' | '^' | '~' => mend_of_bits(line, before, character, next),
        '.' => mend_of_point(line, before, next),
        _ => mend_of_other(character),
    }
}

/// Handles an operator on bits, or a reference: after an opening parenthesis or a comma.
fn mend_of_bits(line: &str, before: usize, character: char, next: Option<char>) -> &'static str {
    let is_twice = next == Some(character);
    match (character, last_before(line, before)) {
        ('&', _) if is_twice => "use `and`",
        ('|', _) if is_twice => "use `or`",
        ('&', Some('(')) | ('&', Some(',')) => NAME,
        _ => BITS,
    }
}

/// Handles a point: a range, a fraction, or a field.
fn mend_of_point(line: &str, before: usize, next: Option<char>) -> &'static str {
    if next == Some('.') {
        return mend_of_range(line);
    }
    match last_before(line, before) {
        Some(last) if last.is_ascii_digit() => "use an integer; there are no fractions",
        _ => "there are no fields or methods; the length of a section is `len(s)`",
    }
}

/// Handles any other character.
fn mend_of_other(character: char) -> &'static str {
    match character {
        '!' => "use `not` to negate; not equal is `!=`",
        '"' | '\'' => "print only numbers; there are no strings",
        '#' => "use `//` for a comment",
        '?' => "write `if .. { .. } else { .. }`: there is no `? :`",
        '\u{feff}' => "save the file without a byte order mark",
        '\u{a0}' => "write a space here: this is a no-break space",
        _ if !character.is_ascii() && character.is_alphabetic() => {
            "use only the letters a to z and A to Z, digits and `_` in names"
        }
        _ if !character.is_ascii() => "remove it: outside comments a program is ASCII only",
        _ => "remove it; comments start with `//`, and not equal is `!=`",
    }
}

/// Returns the last character that isn't a space among the first characters of a line.
fn last_before(line: &str, many: usize) -> Option<char> {
    let mut last = None;
    for character in line.chars().take(many) {
        if character != ' ' {
            last = Some(character);
        }
    }
    last
}

/// Handles a range: in a loop as in other languages, or in place of a part.
fn mend_of_range(line: &str) -> &'static str {
    for word in line.split(' ') {
        match word {
            "for" => return FOR,
            "parallel_for" | "cilk_for" | "parfor" | "forall" | "coforall" => return PARALLEL_LOOP,
            _ => {}
        }
    }
    RANGE
}

/// Returns whether a place is after a `/*` that no `*/` has followed.
fn is_in_comment(text: &str, place: TextPlace) -> bool {
    let mut is_open = false;
    let mut number: u32 = 0;
    for line in text.lines() {
        number = number.saturating_add(1);
        if number > place.line {
            break;
        }
        let line = without_comment(line);
        if number == place.line {
            return is_open || has_opened(line, place.column);
        }
        is_open = (is_open || line.contains("/*")) && !line.contains("*/");
    }
    is_open
}

/// Returns whether a line has a `/*` before a column.
fn has_opened(line: &str, column: u32) -> bool {
    let mut before: u32 = 0;
    let mut last = ' ';
    for character in line.chars() {
        before = before.saturating_add(1);
        if before >= column {
            break;
        }
        if last == '/' && character == '*' {
            return true;
        }
        last = character;
    }
    false
}
