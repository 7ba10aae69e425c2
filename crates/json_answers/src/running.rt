//! The commands that run a program on one thread.

ghost use Rattle.std.specs.Prelude.{◌≡◌, IfErr, IfOk};
ghost use Rattle.std.specs.String.{string_bytes};
ghost use Rattle.command_line.specs.Requests.{settings as settings_of};
ghost use Rattle.statement_steps.specs.Watched.{Watches};
ghost use Rattle.json_answers.specs.Objects.{FailsEarly, ObjectOf};

use crate::costs::cost_object;
use crate::object_line::{ObjectLine, told_or_no_memory};
use crate::run_outcomes::outcome_told;
use command_line::request::Command;
use commands::question::Question;
use commands::running::on_one_thread;
use commands::showing::status;
use cost::cost::measure;
use failures::failure::Failure;
use files::file_source::FileSource;
use statement_steps::watch::Watch;
use std::alloc::Global;

/// `serial`: returns the object of the one-thread outcome.
pub fn serial_told<F: FileSource, W: Watch>(
    alloc: Global,
    question: Question<'_>,
    files: &mut F,
    watch: &mut W,
) -> Result<ObjectLine, Failure>
    ensures object { IfOk result (λ t. ObjectOf Command.Serial (settings_of question.entry.settings)
        (F.held files.old) question.entry.text.now (string_bytes t.line) t.status) }
    ensures why { IfErr result (FailsEarly Command.Serial (settings_of question.entry.settings)
        (F.held files.old) question.entry.text.now) }
    ensures keeps { F.held files.new ≡ F.held files.old }
    ensures watched { Watches W.Told question.entry.settings.progress result watch.old watch.new }
{
    let given = question.given(alloc, files)?;
    match on_one_thread(alloc, &given.typed, &given.input, question.settings, watch) {
        Ok(outcome) => outcome_told(alloc, question.text, &given.typed.code().arrays, &outcome),
        Err(_) => Err(Failure::NoMemory),
    }
}

/// `cost`: returns the object of the cost of the one-thread run, or of its outcome if it has faults
/// or was stopped.
pub fn cost_told<F: FileSource>(
    alloc: Global,
    question: Question<'_>,
    files: &mut F,
) -> Result<ObjectLine, Failure>
    ensures object { IfOk result (λ t. ObjectOf Command.Cost (settings_of question.entry.settings)
        (F.held files.old) question.entry.text.now (string_bytes t.line) t.status) }
    ensures why { IfErr result (FailsEarly Command.Cost (settings_of question.entry.settings)
        (F.held files.old) question.entry.text.now) }
    ensures keeps { F.held files.new ≡ F.held files.old }
{
    let given = question.given(alloc, files)?;
    let Ok(costed) = measure(alloc, &given.typed, &given.input, question.settings.budget) else {
        return Err(Failure::NoMemory);
    };
    if status(&costed.outcome) == 0 {
        told_or_no_memory(cost_object(alloc, &costed.cost), 0)
    } else {
        outcome_told(
            alloc,
            question.text,
            &given.typed.code().arrays,
            &costed.outcome,
        )
    }
}
