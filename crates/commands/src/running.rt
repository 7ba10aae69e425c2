//! The commands that run a program, except `run`.

ghost use Rattle.std.specs.Prelude.{◌≡◌, IfOk};
ghost use Rattle.command_line.specs.Requests.{settings as settings_of};
ghost use Rattle.statement_steps.specs.Watched.{Watches};
ghost use Rattle.commands.specs.Answers.{Does};
ghost use Rattle.commands.specs.Outcomes.{Fits, IsOutcomeOf};

use crate::exploring::explored_by;
use crate::memory::or_no_memory;
use crate::question::Question;
use crate::showing::{show, show_open};
use command_line::request::{Command, RunOptions};
use failures::failure::Failure;
use files::file_source::FileSource;
use serial_run::{serial, serial_watched};
use statement_steps::watch::Watch;
use std::alloc::{AllocError, Global};
use std::io::Write;
use std::thread::Threads;
use step_trees::explore::Explored;
use types::input::Input;
use types::outcome::Outcome;
use types::typed::Typed;

/// `serial`: runs the program on one thread, and writes its outcome. Returns the exit status.
pub fn run_serially<F: FileSource, O: Write, W: Watch>(
    alloc: Global,
    question: Question<'_>,
    files: &mut F,
    out: &mut O,
    watch: &mut W,
) -> Result<u8, Failure>
    ensures done { Does Command.Serial (settings_of question.entry.settings) (F.held files.old)
        question.entry.text.now (O.contents out.old) (O.contents out.new) result }
    ensures keeps { F.held files.new ≡ F.held files.old }
    ensures watched { Watches W.Told question.entry.settings.progress result watch.old watch.new }
{
    let settings = question.settings;
    let given = question.given(alloc, files)?;
    let run = on_one_thread(alloc, &given.typed, &given.input, settings, watch);
    let outcome = or_no_memory(run)?;
    show(out, &given.typed.code().arrays, &outcome, settings.arrays)
}

/// Runs the program on one thread. If requested, notifies `watch` of the progress, and at the end.
pub fn on_one_thread<W: Watch>(
    alloc: Global,
    typed: &Typed,
    input: &Input,
    settings: RunOptions<'_>,
    watch: &mut W,
) -> Result<Outcome, AllocError>
    requires { Fits typed.now input.now }
    ensures outcome { IfOk result (IsOutcomeOf typed.now input.now settings.entry.budget) }
    ensures watched { Watches W.Told settings.entry.progress result watch.old watch.new }
{
    if settings.progress {
        serial_watched(alloc, typed, input, settings.budget, watch)
    } else {
        serial(alloc, typed, input, settings.budget)
    }
}

/// `explore`: runs the program by choices, and writes the result. Returns the exit status.
pub fn run_by_choices<R: Threads + Sync, F: FileSource, O: Write>(
    rt: &R,
    alloc: Global,
    question: Question<'_>,
    files: &mut F,
    out: &mut O,
) -> Result<u8, Failure>
    ensures done { Does Command.Explore (settings_of question.entry.settings) (F.held files.old)
        question.entry.text.now (O.contents out.old) (O.contents out.new) result }
    ensures keeps { F.held files.new ≡ F.held files.old }
{
    let given = question.begun(rt, alloc, files)?;
    let choices = question.settings.choices;
    let explored = explored_by(alloc, files, &given.accepted, &given.input, choices)?;
    match explored {
        Explored::Ended(outcome) => {
            let arrays = &given.accepted.typed().code().arrays;
            show(out, arrays, &outcome, question.settings.arrays)
        }
        Explored::Open { leaves } => show_open(out, leaves),
        Explored::NoSuchChoice(choice) => Err(Failure::NoLeaf(choice)),
    }
}
