//! The brackets of finishes, below the lanes.

ghost use Rattle.std.specs.Prelude.{◌≤◌};

use crate::elements::{LineElement, push_circle, push_line, push_words};
use crate::heading::push_count;
use crate::sheet::Sheet;
use crate::statements::Statements;
use std::alloc::{AllocError, Global};
use trace_layout::axis::{Axis, LEFT};
use trace_layout::finishes::{Finish, Finishes, Return, longest};
use trace_layout::rows::rows_of;
use trace_layout::stretch::Stretch;

/// The maximum number of rows.
const ROWS: usize = 24;

/// The scopes that have a bracket, by their numbers, and the row of each.
#[derive(Drop)]
pub struct Brackets {
    pub shown: Vec<usize>,
    pub rows: Vec<usize>,
    /// The number of scopes without a bracket.
    pub left_out: usize,
}

/// Returns a bracket for each scope, or for the longest ones if all would take too many rows.
pub fn brackets_of(
    alloc: Global,
    axis: Axis,
    all: &[Finish],
    statements: Statements<'_>,
) -> Result<Brackets, AllocError> {
    let every = longest(alloc, all, all.len())?;
    if let Some(rows) = rows_for(alloc, axis, all, &every, statements)? {
        return Ok(Brackets {
            shown: every,
            rows,
            left_out: 0,
        });
    }
    let shown = longest(alloc, all, ROWS)?;
    let rows = match rows_for(alloc, axis, all, &shown, statements)? {
        Some(rows) => rows,
        None => Vec::new(alloc),
    };
    Ok(Brackets {
        left_out: all.len().saturating_sub(shown.len()),
        shown,
        rows,
    })
}

/// Returns the rows of these scopes, each with room for its name. None if there are too many rows.
fn rows_for(
    alloc: Global,
    axis: Axis,
    all: &[Finish],
    shown: &[usize],
    statements: Statements<'_>,
) -> Result<Option<Vec<usize>>, AllocError> {
    let mut stretches = Vec::new(alloc);
    for number in shown {
        if let Some(finish) = all.get(*number) {
            let name = name_of(alloc, finish, statements)?;
            let named = named_at(axis, finish, name.len());
            let first = axis.x(finish.first).min(named) as usize;
            let last = (named as usize).saturating_add(letters_width(name.len()) as usize);
            let end = axis.end(finish.last) as usize;
            stretches.push(Stretch::new(first, last.max(end).saturating_add(40)))?;
        }
    }
    rows_of(alloc, &stretches, ROWS)
}

/// Returns the width of a name with this many letters, with some room after it.
fn letters_width(letters: usize) -> u32
    ensures { result ≤ 6560 }
{
    letters.min(100) as u32 * 65 + 60
}

/// Returns where the name of a scope starts: above the start of its bracket, but far enough left to
/// end on the paper.
fn named_at(axis: Axis, finish: &Finish, letters: usize) -> u32
    ensures { result ≤ 16000 }
{
    let right = axis.x(axis.events) + 240;
    let most = right.saturating_sub(letters_width(letters)).max(LEFT);
    (axis.x(finish.first) + 40).min(most)
}

/// Returns `finish 0#1`, or `finish 0#1, 2 faults rescued`.
fn name_of(
    alloc: Global,
    finish: &Finish,
    statements: Statements<'_>,
) -> Result<String, AllocError> {
    let name = &finish.name;
    let faults = rescued_in(finish, statements);
    if faults == 0 {
        return format!(in alloc; "finish {name}");
    }
    let ending = if faults == 1 { "" } else { "s" };
    format!(in alloc; "finish {name}, {faults} fault{ending} rescued")
}

/// Returns the number of faults that the rescue of a finish has dropped, or 0. The root's scope has no
/// rescue: no event opens it.
fn rescued_in(finish: &Finish, statements: Statements<'_>) -> u64 {
    if finish.name.number == 0 {
        return 0;
    }
    statements.rescued_at(finish.first)
}

impl Brackets {
    /// Returns the number of rows, including the one for what is left out.
    pub fn count(&self) -> u32
        ensures { result ≤ 25 }
    {
        let mut count: usize = 0;
        for row in &self.rows {
            count = count.max(row.saturating_add(1));
        }
        let count = count.min(ROWS) as u32;
        if self.left_out > 0 {
            return count + 1;
        }
        count
    }

    /// Adds all brackets.
    pub fn push(
        &self,
        text: &mut String,
        alloc: Global,
        sheet: Sheet,
        finishes: &Finishes,
        statements: Statements<'_>,
    ) -> Result<(), AllocError> {
        push_words(text, "worker", LEFT - 100, sheet.row(0) + 40, "finishes")?;
        for (number, row) in self.shown.iter().zip(&self.rows) {
            if let Some(finish) = finishes.all.get(*number) {
                let y = sheet.row(*row);
                let name = name_of(alloc, finish, statements)?;
                push_bracket(text, sheet.axis, finish, name.as_str(), y)?;
                if rescued_in(finish, statements) > 0 {
                    push_circle(text, "rescue", sheet.axis.end(finish.last), y)?;
                }
            }
        }
        if sheet.axis.is_wide() {
            self.push_returns(text, sheet, &finishes.returns)?;
        }
        self.push_left_out(text, alloc, sheet)
    }

    /// Adds an open circle where the weight of a task comes back.
    fn push_returns(
        &self,
        text: &mut String,
        sheet: Sheet,
        returns: &[Return],
    ) -> Result<(), AllocError> {
        for back in returns {
            if let Ok(place) = self.shown.binary_search(&back.finish) {
                if let Some(row) = self.rows.get(place) {
                    push_circle(text, "back", sheet.axis.middle(back.at), sheet.row(*row))?;
                }
            }
        }
        Ok(())
    }

    /// Adds `.. and 190 shorter ones`.
    fn push_left_out(
        &self,
        text: &mut String,
        alloc: Global,
        sheet: Sheet,
    ) -> Result<(), AllocError> {
        if self.left_out == 0 {
            return Ok(());
        }
        let mut words = String::new(alloc);
        push_count(&mut words, ".. and ", self.left_out, "shorter one")?;
        let row = sheet.rows.saturating_sub(1) as usize;
        push_words(text, "path", LEFT, sheet.row(row) + 40, words.as_str())
    }
}

/// Adds a bracket: solid while the owner works in it, dashed while the owner waits, and a full
/// circle where it parked.
fn push_bracket(
    text: &mut String,
    axis: Axis,
    finish: &Finish,
    name: &str,
    y: u32,
) -> Result<(), AllocError> {
    let first = axis.x(finish.first);
    let last = axis.end(finish.last);
    let parked = match finish.parked {
        Some(event) => axis.middle(event),
        None => last,
    };
    push_line(text, "work", &LineElement::level(first, parked, y))?;
    if parked < last {
        push_line(text, "wait", &LineElement::level(parked, last, y))?;
    }
    push_line(text, "work", &LineElement::tick(first, y))?;
    if finish.is_passed {
        push_line(text, "work", &LineElement::tick(last, y))?;
    }
    if finish.parked.is_some() && axis.is_wide() {
        push_circle(text, "owner", parked, y)?;
    }
    let named = named_at(axis, finish, name.len());
    push_words(text, "path", named, y.saturating_sub(70), name)
}
