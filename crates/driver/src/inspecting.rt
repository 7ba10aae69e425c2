//! `inspect`: the answers of several commands for one program, in one object.

ghost use Rattle.std.specs.Prelude.{◌≡◌, IfOk};
ghost use Rattle.std.specs.String.{string_bytes};
ghost use Rattle.command_line.specs.Requests.{settings as settings_of};
ghost use Rattle.json_answers.specs.Inspected.{ObjectOfInspect};
ghost use Rattle.driver.specs.Objects.{IsDescribed, TellsInspected};

use crate::loaded::Loaded;
use crate::performed::Performed;
use commands::question::Question;
use failures::failure::Failure;
use files::file_source::FileSource;
use json_answers::failed::{ExplainedLine, explained_line};
use json_answers::inspecting::inspected;
use json_answers::object_line::ObjectLine;
use json_answers::running::serial_told;
use json_answers::telling::{check_told, list_told};
use json_answers::writing::{answer_object, tell_explained};
use statement_steps::watch::Unwatched;
use std::alloc::AllocError;
use std::io::Write;
use std::thread::Threads;

/// Writes one object with what `check`, `list` and `serial` write as objects for a text. If there is
/// no memory for it, writes the object of that failure.
pub(crate) fn inspected_told<R: Threads + Sync, F: FileSource, O: Write>(
    rt: &R,
    loaded: Loaded<'_>,
    files: &mut F,
    out: &mut O,
) -> Performed
    ensures { TellsInspected loaded.entry.request.file.now
        (settings_of loaded.entry.request.settings) loaded.entry.text.now
        (F.held files.old) (F.held files.new) (O.contents out.old) (O.contents out.new)
        result.done }
{
    match object_of(rt, loaded, files) {
        Ok(told) => Performed {
            done: answer_object(out, &told),
            explanation: None,
        },
        Err(AllocError) => {
            let Loaded {
                alloc,
                request,
                text,
            } = loaded;
            let failure = Failure::NoMemory;
            let explanation = tell_explained(alloc, files, request, text, &failure, out);
            Performed {
                done: Err(failure),
                explanation,
            }
        }
    }
}

/// Returns the object.
fn object_of<R: Threads + Sync, F: FileSource>(
    rt: &R,
    loaded: Loaded<'_>,
    files: &mut F,
) -> Result<ObjectLine, AllocError>
    ensures object { IfOk result (λ t. ObjectOfInspect loaded.entry.request.file.now
        (settings_of loaded.entry.request.settings) (F.held files.old) loaded.entry.text.now
        (string_bytes t.line) t.status) }
    ensures keeps { F.held files.new ≡ F.held files.old }
{
    let Loaded {
        alloc,
        request,
        text,
    } = loaded;
    let question = Question {
        text,
        settings: request.settings,
    };
    let ran = serial_told(alloc, question, files, &mut Unwatched);
    let check = described(loaded, files, check_told(rt, alloc, text))?;
    let list = described(loaded, files, list_told(alloc, text))?;
    let serial = described(loaded, files, ran)?;
    inspected(alloc, &check, &list, &serial)
}

/// Returns an answer, or the object of the failure why there is none, with its explanation.
fn described<F: FileSource>(
    loaded: Loaded<'_>,
    files: &mut F,
    done: Result<ObjectLine, Failure>,
) -> Result<ObjectLine, AllocError>
    ensures told { IfOk result
        (IsDescribed loaded.entry.request.file.now loaded.entry.text.now done) }
    ensures keeps { F.held files.new ≡ F.held files.old }
{
    let Loaded {
        alloc,
        request,
        text,
    } = loaded;
    match done {
        Ok(told) => Ok(told),
        Err(failure) => {
            let told = explained_line(alloc, files, request, text, &failure)?;
            let ExplainedLine { line, .. } = told;
            Ok(ObjectLine {
                line,
                status: failure.status(),
            })
        }
    }
}
