//! `view` and `view --summary`: the events of a trace, and their numbers; both also with statements.

ghost use Rattle.std.specs.Prelude.{◌≡◌, ◌++◌, codes, map, IfOk, OnOk};
ghost use Rattle.std.specs.Str.Lines.{lines as lines_in};
ghost use Rattle.std.specs.String.{string_bytes};
ghost use Rattle.command_line.specs.Requests.{settings as settings_of};
ghost use Rattle.viewing.specs.Views.{IsSummaryByLine, IsSummaryText, IsTableByLine, TellsTrace, Views};
ghost use Rattle.viewing.specs.Views.{command_by, remark_at, remarked as lines_remarked};

use crate::remarks::{Remarks, steps_by_line};
use crate::traces::{JudgedTrace, Trace, trace_of};
use commands::memory::or_no_memory;
use commands::question::Question;
use commands::showing::answer;
use failures::failure::Failure;
use files::file_source::FileSource;
use std::alloc::{AllocError, Global};
use std::io::Write;
use std::thread::Threads;
use trace_numbers::summary::summarize;
use trace_numbers::text::summary_text;
use trace_text::table;

/// The part of a trace that is shown.
#[derive(Clone, Copy)]
pub enum Look {
    /// The table of its events: `view`.
    Table,
    /// This table with the statements at the events: `view --by-line`.
    TableByLine,
    /// The numbers of its events: `view --summary`.
    Numbers,
    /// These numbers, and the number of steps of each statement: `view --summary --by-line`.
    NumbersByLine,
}

/// Writes this part of a trace. Returns the exit status.
pub fn view<R: Threads + Sync, F: FileSource, O: Write>(
    rt: &R,
    alloc: Global,
    look: Look,
    question: Question<'_>,
    files: &mut F,
    out: &mut O,
) -> Result<u8, Failure>
    ensures done { Views (command_by look) (settings_of question.entry.settings) (F.held files.old)
        question.entry.text.now (O.contents out.old) (O.contents out.new) result }
    ensures keeps { F.held files.new ≡ F.held files.old }
{
    let judged = trace_of(rt, alloc, question, files)?;
    let told = or_no_memory(shown(alloc, look, question.text, &judged))?;
    answer(out, told.as_str())
}

/// Returns the text of this part of a trace of a text's program.
fn shown(alloc: Global, look: Look, text: &str, judged: &JudgedTrace) -> Result<String, AllocError>
    ensures { IfOk result (λ told. TellsTrace (command_by look)
        judged.now.trace.header judged.now.trace.events.items (string_bytes told)) }
{
    match look {
        Look::Table => table::view(alloc, &judged.trace.events),
        Look::TableByLine => table_by_line(alloc, text, judged),
        Look::Numbers => numbers_shown(alloc, &judged.trace),
        Look::NumbersByLine => numbers_by_line(alloc, text, judged),
    }
}

/// Returns the table of events, with the procedure and the statement of each step.
fn table_by_line(alloc: Global, text: &str, judged: &JudgedTrace) -> Result<String, AllocError>
    ensures { IfOk result (λ told. IsTableByLine judged.now.trace.events.items (string_bytes told)) }
{
    let remarks = Remarks::of(alloc, text, judged)?;
    let table = table::view(alloc, &judged.trace.events)?;
    with_remarks(alloc, table.as_str(), &remarks)
}

/// Returns the lines of a text, each with its remark.
fn with_remarks(alloc: Global, text: &str, remarks: &Remarks) -> Result<String, AllocError>
    ensures { IfOk result (λ told. string_bytes told
        ≡ lines_remarked (remark_at remarks.now) 0 (lines_in text.now)) }
{
    let lines = lines_of(alloc, text)?;
    remarked(alloc, &lines, remarks)
}

/// Returns lines, each with its remark.
fn remarked(alloc: Global, lines: &[&str], remarks: &Remarks) -> Result<String, AllocError>
    ensures { IfOk result (λ told. string_bytes told
        ≡ lines_remarked (remark_at remarks.now) 0 (map (λ l. l.now) lines.now)) }
{
    let mut told = String::new(alloc);
    for (number, line) in lines.iter().enumerate() {
        push_line(&mut told, line, remarks.at(number))?;
    }
    Ok(told)
}

/// Adds a line with its remark.
fn push_line(told: &mut String, line: &str, remark: &str) -> Result<(), AllocError>
    ensures { OnOk result (string_bytes told.new
        ≡ string_bytes told.old ++ (line.now ++ (remark.now ++ codes "\n"))) }
{
    told.push_str(line)?;
    told.push_str(remark)?;
    told.push('\n')
}

/// Returns a text followed by another.
fn joined(first: String, second: &str) -> Result<String, AllocError>
    ensures { IfOk result (λ text. string_bytes text ≡ string_bytes first ++ second.now) }
{
    let mut text = first;
    text.push_str(second)?;
    Ok(text)
}

/// Returns the text of the numbers of a trace, and then the number of steps of each statement.
fn numbers_by_line(alloc: Global, text: &str, judged: &JudgedTrace) -> Result<String, AllocError>
    ensures { IfOk result (λ told. IsSummaryByLine judged.now.trace.header.workers
        judged.now.trace.events.items (string_bytes told)) }
{
    let numbers = numbers_shown(alloc, &judged.trace)?;
    let steps = steps_by_line(alloc, text, judged)?;
    joined(numbers, steps.as_str())
}

/// Returns the text of the numbers of a trace.
fn numbers_shown(alloc: Global, trace: &Trace) -> Result<String, AllocError>
    ensures { IfOk result (λ text. IsSummaryText trace.now.header.workers trace.now.events.items
        (string_bytes text)) }
{
    let numbers = summarize(alloc, &trace.events)?;
    summary_text(alloc, &numbers, trace.header.workers)
}

/// Returns the lines of a text.
fn lines_of(alloc: Global, text: &str) -> Result<Vec<&str>, AllocError>
    ensures { IfOk result (λ found. map (λ l. l.now) found.items ≡ lines_in text.now) }
{
    text.lines().collect(alloc)
}
