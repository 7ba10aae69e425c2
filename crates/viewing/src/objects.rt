//! `view --summary --format json`: the numbers of a trace as one object.

ghost use Rattle.std.specs.Prelude.{◌≡◌, IfErr, IfOk};
ghost use Rattle.std.specs.String.{string_bytes};
ghost use Rattle.command_line.specs.Requests.{settings as settings_of};
ghost use Rattle.viewing.specs.Objects.{IsSummaryObject, ObjectOfSummary};
ghost use Rattle.viewing.specs.Views.{TellsNoTrace};

use crate::traces::{Trace, trace_of};
use commands::question::Question;
use failures::failure::Failure;
use files::file_source::FileSource;
use json_answers::object_line::ObjectLine;
use json_answers::summaries::summary_object;
use std::alloc::{AllocError, Global};
use std::thread::Threads;
use trace_numbers::summary::summarize;

/// Returns the object of the numbers of a trace.
pub fn summary_told<R: Threads + Sync, F: FileSource>(
    rt: &R,
    alloc: Global,
    question: Question<'_>,
    files: &mut F,
) -> Result<ObjectLine, Failure>
    ensures object { IfOk result (λ t. ObjectOfSummary (settings_of question.entry.settings)
        (F.held files.old) question.entry.text.now (string_bytes t.line) t.status) }
    ensures why { IfErr result (TellsNoTrace (settings_of question.entry.settings)
        (F.held files.old) question.entry.text.now) }
    ensures keeps { F.held files.new ≡ F.held files.old }
{
    let judged = trace_of(rt, alloc, question, files)?;
    match object_of(alloc, &judged.trace) {
        Ok(line) => Ok(ObjectLine { line, status: 0 }),
        Err(_) => Err(Failure::NoMemory),
    }
}

/// Returns the line of the numbers of a trace.
fn object_of(alloc: Global, trace: &Trace) -> Result<String, AllocError>
    ensures { IfOk result (λ told. IsSummaryObject trace.now.header.workers
        trace.now.events.items (string_bytes told)) }
{
    let numbers = summarize(alloc, &trace.events)?;
    summary_object(alloc, &numbers, trace.header.workers)
}
