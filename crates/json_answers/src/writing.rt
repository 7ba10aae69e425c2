//! Objects, written to the standard output.

ghost use Rattle.std.specs.Prelude.{◌≡◌, IfErr, IfOk};
ghost use Rattle.std.specs.String.{string_bytes};
ghost use Rattle.printing.specs.Appending.{Writes};
ghost use Rattle.json_answers.specs.Failing.{IsToldAsObject, TellsFailure};

use crate::failed::{ExplainedLine, explained_line, refusal_line};
use crate::object_line::ObjectLine;
use crate::refused_program::RefusedProgram;
use command_line::request::Request;
use failures::failure::Failure;
use files::file_source::FileSource;
use printing::emit::append;
use std::alloc::{AllocError, Global};
use std::io::Write;

/// Writes an answer, flushes the writer, and returns the exit status.
pub fn answer_object<O: Write>(out: &mut O, told: &ObjectLine) -> Result<u8, Failure>
    ensures text { Writes (O.contents out.old) (O.contents out.new) result (string_bytes told.now.line) }
    ensures status { IfOk result (λ status. status ≡ told.now.status) }
    ensures failure { IfErr result (λ failure. failure ≡ Failure.CannotWriteOutput) }
{
    if append(out, told.line.as_bytes()).is_ok() && out.flush().is_ok() {
        Ok(told.status)
    } else {
        Err(Failure::CannotWriteOutput)
    }
}

/// Writes the object of a failure, as far as the writer accepts it, if there is memory for the
/// object.
pub fn tell_refusal<O: Write>(
    alloc: Global,
    refused: RefusedProgram<'_>,
    failure: &Failure,
    out: &mut O,
)
    ensures { IsToldAsObject
        (TellsFailure refused.entry.file.now refused.entry.text.now failure.now)
        (O.contents out.old) (O.contents out.new) }
{
    if let Ok(line) = refusal_line(alloc, refused, failure) {
        let _ = append(out, line.as_bytes());
        let _ = out.flush();
    }
}

/// Writes the object of a failure of a request for the text of a program, as far as the writer
/// accepts it. Returns the explanation in the object, or None if there is no memory for both.
pub fn tell_explained<F: FileSource, O: Write>(
    alloc: Global,
    files: &mut F,
    request: Request<'_>,
    text: &str,
    failure: &Failure,
    out: &mut O,
) -> Option<String>
    ensures told { IsToldAsObject (TellsFailure request.entry.file.now text.now failure.now)
        (O.contents out.old) (O.contents out.new) }
    ensures keeps { F.held files.new ≡ F.held files.old }
{
    match explained_line(alloc, files, request, text, failure) {
        Ok(told) => {
            let ExplainedLine { line, explanation } = told;
            let _ = append(out, line.as_bytes());
            let _ = out.flush();
            Some(explanation)
        }
        Err(AllocError) => None,
    }
}
