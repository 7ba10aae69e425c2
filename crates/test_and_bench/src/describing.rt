//! `bench --format json`: how long a program runs serially and in parallel, as one object.

ghost use Rattle.std.specs.Prelude.{◌≡◌, IfErr, IfOk};
ghost use Rattle.std.specs.String.{string_bytes};
ghost use Rattle.command_line.specs.Requests.{settings as settings_of};
ghost use Rattle.json_answers.specs.Objects.{FailsEarly};
ghost use Rattle.json_answers.specs.Pieces.{line};
ghost use Rattle.test_and_bench.specs.TimesObject.{ObjectOfTimes, times_json};

use crate::clock::Stopwatch;
use crate::runs::Runs;
use crate::times::Timed;
use crate::times_object::times_object;
use crate::timing::{Job, Timing, measured};
use command_line::request::Command;
use commands::question::Question;
use commands::showing::status;
use cost::cost::Cost;
use failures::failure::Failure;
use files::file_source::FileSource;
use json_answers::object_line::ObjectLine;
use json_answers::run_outcomes::outcome_told;
use std::alloc::{AllocError, Global};
use std::sync::Wait;
use std::thread::Threads;

/// Runs a program as `bench` does. Returns the object of how long the runs took and of what one of
/// them costs, or that of the outcome if the run has faults or is stopped.
pub fn times_told<R: Threads + Wait + Sync, F: FileSource, W: Runs, C: Stopwatch>(
    rt: &R,
    timing: Timing<'_, W, C>,
    question: Question<'_>,
    files: &mut F,
) -> Result<ObjectLine, Failure>
    ensures object { IfOk result (λ t. ObjectOfTimes (settings_of question.entry.settings)
        (F.held files.old) question.entry.text.now (string_bytes t.line) t.status) }
    ensures why { IfErr result (FailsEarly Command.Run (settings_of question.entry.settings)
        (F.held files.old) question.entry.text.now) }
    ensures keeps { F.held files.new ≡ F.held files.old }
{
    let Timing { alloc, runs, clock } = timing;
    let given = question.begun(rt, alloc, files)?;
    let costed = measured(alloc, &given.accepted, &given.input, question.settings)?;
    if status(&costed.outcome) == 0 {
        let job = Job {
            alloc,
            accepted: &given.accepted,
            input: &given.input,
            settings: question.settings,
        };
        let timed = job.timed(rt, runs, clock)?;
        described(alloc, &timed, &costed.cost)
    } else {
        let arrays = &given.accepted.typed().code().arrays;
        outcome_told(alloc, question.text, arrays, &costed.outcome)
    }
}

/// Returns the object of durations and a cost.
fn described(alloc: Global, timed: &Timed, cost: &Cost) -> Result<ObjectLine, Failure>
    ensures object { IfOk result
        (λ t. (string_bytes t.line ≡ line (times_json timed.now cost.now)) × (t.status ≡ 0)) }
    ensures why { IfErr result (λ f. f ≡ Failure.NoMemory) }
{
    match times_object(alloc, timed, cost) {
        Ok(line) => Ok(ObjectLine { line, status: 0 }),
        Err(AllocError) => Err(Failure::NoMemory),
    }
}
