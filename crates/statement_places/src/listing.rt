//! A listing, with the places of its statements.

ghost use Rattle.std.specs.Prelude.{◌≡◌, ◌++◌, map, IfOk, OnOk};
ghost use Rattle.std.specs.Str.Lines.{lines};
ghost use Rattle.std.specs.String.{string_bytes};
ghost use Rattle.statement_places.specs.Lines.{has_label as shows_label, left_behind, margin, place_margin};
ghost use Rattle.statement_places.specs.Lines.{placed_line, placed_lines};

use std::alloc::{AllocError, Global};
use syntax::TextPlace;

/// Returns the lines of a listing. Each line with a label comes after the line and the column where
/// its statement starts.
pub fn placed_listing(
    alloc: Global,
    listing: &str,
    places: &[TextPlace],
) -> Result<String, AllocError>
    ensures { IfOk result (λ text. string_bytes text ≡ placed_lines places.now (lines listing.now)) }
{
    let lines = lines(alloc, listing)?;
    let mut text = String::new(alloc);
    let mut left = places;
    for line in &lines {
        left = push_line(&mut text, left, line)?;
    }
    Ok(text)
}

/// Returns the lines of a text.
fn lines(alloc: Global, text: &str) -> Result<Vec<&str>, AllocError>
    ensures { IfOk result (λ lines_found. map (λ l. l.now) lines_found.items ≡ lines text.now) }
{
    text.lines().collect(alloc)
}

/// Adds a line, and returns the places that remain after it.
fn push_line<'p>(
    text: &mut String,
    places: &'p [TextPlace],
    line: &str,
) -> Result<&'p [TextPlace], AllocError>
    ensures left { IfOk result
        (λ left. left.now ≡ left_behind (shows_label line.now) places.now) }
    ensures text { IfOk result
        (λ _. string_bytes text.new ≡ string_bytes text.old ++ placed_line places.now line.now) }
{
    let left = push_margin(text, has_label(line), places)?;
    text.push_str(line)?;
    text.push('\n')?;
    Ok(left)
}

/// Adds the margin of a line, and returns the places that remain after it.
fn push_margin<'p>(
    text: &mut String,
    labelled: bool,
    places: &'p [TextPlace],
) -> Result<&'p [TextPlace], AllocError>
    ensures left { IfOk result (λ left. left.now ≡ left_behind labelled places.now) }
    ensures text { IfOk result
        (λ _. string_bytes text.new ≡ string_bytes text.old ++ margin labelled places.now) }
{
    if labelled {
        if let [first, behind @ ..] = places {
            push_place(text, *first)?;
            return Ok(behind);
        }
    }
    text.push_str("          ")?;
    Ok(places)
}

/// Adds a place: its line right-aligned in five columns, and its column left-aligned in four.
fn push_place(text: &mut String, place: TextPlace) -> Result<(), AllocError>
    ensures { OnOk result (string_bytes text.new ≡ string_bytes text.old ++ place_margin place) }
{
    let line = place.line;
    let column = place.column;
    write!(text, "{line:>5}:{column:<4}")
}

/// Returns whether a line of a listing starts with a label.
fn has_label(line: &str) -> bool
    ensures { result ≡ shows_label line.now }
{
    match line.as_bytes().get(4) {
        Some(last) => last.is_ascii_digit(),
        None => false,
    }
}
