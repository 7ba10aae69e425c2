//! `view --upgrade`: a trace in format 2.

ghost use Rattle.std.specs.Prelude.{◌≡◌, IfErr, IfOk};
ghost use Rattle.std.specs.String.{string_bytes};
ghost use Rattle.types.specs.Translation.{input as lists_in};
ghost use Rattle.types.specs.Typed.{code_of};
ghost use Rattle.command_line.specs.Requests.{settings as settings_of};
ghost use Rattle.command_line.specs.declared.request.Command.TheVariants.{Upgrade};
ghost use Rattle.commands.specs.Outcomes.{Fits};
ghost use Rattle.failures.specs.declared.failure.Failure.TheVariants.{NoMemory};
ghost use Rattle.viewing.specs.Files.{WritesTo};
ghost use Rattle.viewing.specs.Views.{AreLegal, IsInFormatTwo, Views, picture_name as name_of_picture};
ghost use Rattle.viewing.specs.Views.{text_in_format_two};

use crate::drawing::picture_name;
use crate::traces::{JudgedTrace, trace_of};
use commands::memory::or_no_memory;
use commands::question::Question;
use commands::showing::answer;
use event_worlds::error::ReplayError;
use failures::failure::Failure;
use files::file_source::{FileSource, write_file};
use std::alloc::Global;
use std::io::Write;
use std::thread::Threads;
use trace::upgrade::upgrade as upgraded;
use trace_text::table;
use trace_text::write::write_lines;

/// Writes a trace in format 2 into the named file, and then its table. Returns the exit status.
pub fn upgrade<R: Threads + Sync, F: FileSource, O: Write>(
    rt: &R,
    alloc: Global,
    question: Question<'_>,
    files: &mut F,
    out: &mut O,
) -> Result<u8, Failure>
    ensures done { Views Upgrade (settings_of question.entry.settings) (F.held files.old)
        question.entry.text.now (O.contents out.old) (O.contents out.new) result }
    ensures trace { let s = settings_of question.entry.settings in WritesTo (name_of_picture s)
        (IsInFormatTwo s (F.held files.old) question.entry.text.now) (F.held files.old) (F.held files.new) result }
{
    let settings = question.settings;
    let judged = trace_of(rt, alloc, question, files)?;
    let lines = lines_of(alloc, &judged)?;
    let table = or_no_memory(table::view(alloc, &judged.trace.events))?;
    write_file(alloc, files, picture_name(settings), lines.as_bytes())?;
    answer(out, table.as_str())
}

/// Returns the lines of a trace in format 2.
fn lines_of(alloc: Global, judged: &JudgedTrace) -> Result<String, Failure>
    requires fits { Fits judged.now.given.accepted.typed judged.now.given.input }
    requires legal { AreLegal (code_of judged.now.given.accepted.typed) (lists_in judged.now.given.input)
        judged.now.trace.header judged.now.trace.events.items }
    ensures lines { IfOk result (λ text. string_bytes text ≡ text_in_format_two
        (code_of judged.now.given.accepted.typed) (lists_in judged.now.given.input)
        judged.now.trace.header judged.now.trace.events.items) }
    ensures why { IfErr result (λ f. f ≡ NoMemory) }
{
    let JudgedTrace { given, trace } = judged;
    match upgraded(
        alloc,
        &given.accepted,
        &given.input,
        &trace.header,
        &trace.events,
    ) {
        Ok((header, events)) => {
            let text = or_no_memory(write_lines(alloc, &header, &events))?;
            Ok(text)
        }
        Err(ReplayError::IllegalAt(_)) => unreachable!(),
        Err(ReplayError::NoMemory) => Err(Failure::NoMemory),
    }
}
