//! Answers as one object.

ghost use Rattle.std.specs.Prelude.{◌≡◌, IfErr, IfOk};
ghost use Rattle.std.specs.String.{string_bytes};
ghost use Rattle.statement_steps.specs.Watched.{Watches};
ghost use Rattle.command_line.specs.Requests.{asked_of, settings as settings_of};
ghost use Rattle.command_words.specs.Orders.{command_of};
ghost use Rattle.json_answers.specs.Explored.{FailsUnexplored};
ghost use Rattle.json_answers.specs.Objects.{FailsEarly, ObjectOf};
ghost use Rattle.driver.specs.Objects.{FailsEarlyAny, ObjectOfAny};
ghost use Rattle.driver.specs.Acts.{Leaves};
ghost use Rattle.driver.specs.Objects.{ObjectOfSchedules, TellsSchedules, status_in};
ghost use Rattle.driver.specs.Orders.{DoesWithLoaded};
ghost use Rattle.driver.specs.Traced.{TracesRun};
ghost use Rattle.driver.specs.Watching.{WatchesDoing, is_watched};
ghost use Rattle.driver.specs.declared.doing.TextOrder.TheVariants.{Describing};

use crate::loaded::Loaded;
use crate::performed::Performed;
use crate::tracing::{Schedule, run_of};
use command_line::request::Command;
use command_words::order::{Schedules, Subject};
use commands::question::Question;
use failures::failure::Failure;
use files::file_source::FileSource;
use json_answers::all_ends::all_ends_told;
use json_answers::exploring::explored_told;
use json_answers::object_line::ObjectLine;
use json_answers::run_outcomes::outcome_told;
use json_answers::running::{cost_told, serial_told};
use json_answers::shares::shares_told;
use json_answers::telling::{check_told, format_told, list_told, pairs_told};
use json_answers::writing::{answer_object, tell_explained};
use statement_steps::watch::Watch;
use std::alloc::Global;
use std::io::Write;
use std::sync::Wait;
use std::thread::Threads;
use viewing::objects::summary_told;

/// Writes the answer for a text as one object, or the reason why there is none.
pub(crate) fn told<R: Threads + Wait + Sync, F: FileSource, O: Write, W: Watch>(
    rt: &R,
    subject: Subject,
    loaded: Loaded<'_>,
    files: &mut F,
    out: &mut O,
    watch: &mut W,
) -> Performed
    ensures done { DoesWithLoaded (Describing subject) loaded.entry (F.held files.old) (F.held files.new)
        (O.contents out.old) (O.contents out.new) result.done }
    ensures watched { WatchesDoing W.Told (Describing subject) (asked_of loaded.entry.request)
        result.done watch.old watch.new }
{
    let Loaded {
        alloc,
        request,
        text,
    } = loaded;
    let question = Question {
        text,
        settings: request.settings,
    };
    match object_of(rt, alloc, subject, question, files, watch) {
        Ok(told) => Performed {
            done: answer_object(out, &told),
            explanation: None,
        },
        Err(failure) => {
            let explanation = tell_explained(alloc, files, request, text, &failure, out);
            Performed {
                done: Err(failure),
                explanation,
            }
        }
    }
}

/// `explore` with one object: writes what it tells about these schedules, or the reason why there is
/// none.
pub(crate) fn schedules_told<F: FileSource, O: Write>(
    schedules: Schedules,
    loaded: Loaded<'_>,
    files: &mut F,
    out: &mut O,
) -> Performed
    ensures { TellsSchedules schedules loaded.entry.request.file.now
        (settings_of loaded.entry.request.settings) loaded.entry.text.now
        (F.held files.old) (F.held files.new) (O.contents out.old) (O.contents out.new)
        result.done }
{
    let Loaded {
        alloc,
        request,
        text,
    } = loaded;
    let question = Question {
        text,
        settings: request.settings,
    };
    match schedules_object(alloc, schedules, question, files) {
        Ok(told) => Performed {
            done: answer_object(out, &told),
            explanation: None,
        },
        Err(failure) => {
            let explanation = tell_explained(alloc, files, request, text, &failure, out);
            Performed {
                done: Err(failure),
                explanation,
            }
        }
    }
}

/// Returns the object about these schedules.
fn schedules_object<F: FileSource>(
    alloc: Global,
    schedules: Schedules,
    question: Question<'_>,
    files: &mut F,
) -> Result<ObjectLine, Failure>
    ensures object { IfOk result (λ t. ObjectOfSchedules schedules
        (settings_of question.entry.settings) (F.held files.old) question.entry.text.now
        (string_bytes t.line) t.status) }
    ensures why { IfErr result (FailsUnexplored (settings_of question.entry.settings)
        (F.held files.old) question.entry.text.now) }
    ensures keeps { F.held files.new ≡ F.held files.old }
{
    match schedules {
        Schedules::Chosen => explored_told(alloc, question, files),
        Schedules::All(most) => all_ends_told(alloc, question, most, files),
    }
}

/// Returns the object of the answer for a text.
fn object_of<R: Threads + Wait + Sync, F: FileSource, W: Watch>(
    rt: &R,
    alloc: Global,
    subject: Subject,
    question: Question<'_>,
    files: &mut F,
    watch: &mut W,
) -> Result<ObjectLine, Failure>
    ensures object { IfOk result (λ t. ObjectOfAny (command_of subject) (settings_of question.entry.settings)
        (F.held files.old) question.entry.text.now (string_bytes t.line) t.status) }
    ensures why { IfErr result (FailsEarlyAny (command_of subject) (settings_of question.entry.settings)
        (F.held files.old) question.entry.text.now) }
    ensures leaves { Leaves (command_of subject) (settings_of question.entry.settings)
        question.entry.text.now (F.held files.old) (F.held files.new) (status_in result) }
    ensures watched { Watches W.Told (is_watched (command_of subject)
        (settings_of question.entry.settings)) result watch.old watch.new }
{
    match subject {
        Subject::Run => run_told(rt, alloc, question, files),
        Subject::Serial => serial_told(alloc, question, files, watch),
        Subject::Check => check_told(rt, alloc, question.text),
        Subject::Cost => cost_told(alloc, question, files),
        Subject::Pairs => pairs_told(alloc, question.text),
        Subject::Labels => list_told(alloc, question.text),
        Subject::CheckFormat => format_told(alloc, question.text),
        Subject::CostByLabel => shares_told(alloc, question, files),
        Subject::Summary => summary_told(rt, alloc, question, files),
    }
}

/// `run`: returns the outcome of the parallel run, after writing its trace if that is requested.
fn run_told<R: Threads + Wait + Sync, F: FileSource>(
    rt: &R,
    alloc: Global,
    question: Question<'_>,
    files: &mut F,
) -> Result<ObjectLine, Failure>
    ensures object { IfOk result (λ t. ObjectOf Command.Run (settings_of question.entry.settings)
        (F.held files.old) question.entry.text.now (string_bytes t.line) t.status) }
    ensures why { IfErr result (FailsEarly Command.Run (settings_of question.entry.settings)
        (F.held files.old) question.entry.text.now) }
    ensures trace { TracesRun (settings_of question.entry.settings) question.entry.text.now
        (F.held files.old) (F.held files.new) (status_in result) }
{
    let ran = run_of(rt, alloc, Schedule::OnThreads, question, files)?;
    outcome_told(
        alloc,
        question.text,
        &ran.given.accepted.typed().code().arrays,
        &ran.outcome,
    )
}
