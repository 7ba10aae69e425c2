//! Faults.

use crate::causes::{push_cause, push_mend, spot_of};
use crate::chains::push_calls;
use crate::headings::heading_of;
use crate::seen::{FaultNote, SeenRun};
use excerpts::statements::PlacedStatements;
use std::alloc::AllocError;
use types::code::Program;
use types::fault::{Fault, FaultKind};

/// Adds the first faults, and the number of the others.
pub fn push_faults(
    told: &mut String,
    statements: &PlacedStatements<'_>,
    code: &Program,
    seen: &SeenRun,
    file: &str,
) -> Result<(), AllocError> {
    let mut more = seen.many;
    for (nth, fault) in seen.faults.iter().enumerate() {
        push_fault(told, statements, code, fault, seen.notes.get(nth), file)?;
        more = more.saturating_sub(1);
    }
    match more {
        0 => Ok(()),
        1 => told.push_str("\n1 more fault\n"),
        _ => write!(told, "\n{more} more faults\n"),
    }
}

/// Adds one fault: where, and how it came about.
fn push_fault(
    told: &mut String,
    statements: &PlacedStatements<'_>,
    code: &Program,
    fault: &Fault,
    note: Option<&FaultNote>,
    file: &str,
) -> Result<(), AllocError> {
    let cause = match note {
        Some(note) => note.cause,
        None => None,
    };
    let label = fault.label;
    let spot = spot_of(statements, label, cause)?;
    let place = statements.place_at(label, spot.at);
    heading_of(file, word_of(fault.kind)).push(told, place)?;
    write!(told, "{fault}\n")?;
    statements.push_at(told, label, spot.at)?;
    if let Some(cause) = cause {
        push_cause(told, code, spot, cause)?;
    }
    if let Some(note) = note {
        push_calls(told, statements, &note.calls)?;
    }
    match cause {
        Some(cause) => push_mend(told, spot, cause),
        None => Ok(()),
    }
}

/// Returns the word of the page about a kind of fault.
fn word_of(kind: FaultKind) -> &'static str {
    match kind {
        FaultKind::Index => "F1",
        FaultKind::Overflow => "F2",
        FaultKind::ZeroDivisor => "F3",
        FaultKind::OutOfElement => "F4",
        FaultKind::SplitPoint => "F5",
        FaultKind::Raised(_) => "F6",
        FaultKind::PieceSize => "F7",
    }
}
