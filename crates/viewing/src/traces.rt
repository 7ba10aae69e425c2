//! The trace in a file.

ghost use Rattle.std.specs.Prelude.{◌≡◌, IfErr, IfOk, OnOk};
ghost use Rattle.types.specs.Translation.{input as lists_in};
ghost use Rattle.types.specs.Typed.{code_of};
ghost use Rattle.command_line.specs.Requests.{settings as settings_of};
ghost use Rattle.commands.specs.Outcomes.{Fits};
ghost use Rattle.viewing.specs.Views.{AreLegal, HoldsTrace, IsJudged, TellsIllegal, TellsNoLines};
ghost use Rattle.viewing.specs.Views.{TellsNoTrace, trace_name as name_of_trace};

use command_line::request::RunOptions;
use commands::question::{Begun, Question};
use event_worlds::error::ReplayError;
use event_worlds::job::WeightedJob;
use event_worlds::laws::replays_refuse_the_first;
use event_worlds::replay::replay;
use events::event::Event;
use failures::failure::Failure;
use files::file_source::{FileSource, read_file};
use race_checker::accepted::Accepted;
use std::alloc::Global;
use std::thread::Threads;
use trace_text::header::Header;
use trace_text::read::read_lines;
use types::input::Input;

/// The settings of a run, and its events.
#[derive(Drop)]
pub struct Trace {
    pub header: Header,
    pub events: Vec<Event>,
}

/// A trace, with the program and the input of its run.
#[derive(Drop)]
pub struct JudgedTrace {
    pub given: Begun,
    pub trace: Trace,
}

/// Returns the requested trace, if it is one of the text's program on the input.
pub fn trace_of<R: Threads + Sync, F: FileSource>(
    rt: &R,
    alloc: Global,
    question: Question<'_>,
    files: &mut F,
) -> Result<JudgedTrace, Failure>
    ensures judged { IfOk result (IsJudged (settings_of question.entry.settings) (F.held files.old)
        question.entry.text.now) }
    ensures fits { IfOk result (λ t. Fits t.given.accepted.typed t.given.input) }
    ensures why { IfErr result (TellsNoTrace (settings_of question.entry.settings) (F.held files.old)
        question.entry.text.now) }
    ensures keeps { F.held files.new ≡ F.held files.old }
{
    let given = question.begun(rt, alloc, files)?;
    let trace = trace_in(alloc, files, trace_name(question.settings))?;
    judge(alloc, &given.accepted, &given.input, &trace)?;
    Ok(JudgedTrace { given, trace })
}

/// Returns the name of the trace's file.
pub fn trace_name<'w>(settings: RunOptions<'w>) -> &'w str
    ensures { result.now ≡ name_of_trace (settings_of settings.entry) }
{
    match settings.trace {
        Some(name) => name,
        None => "-",
    }
}

/// Returns the trace in the file with this name.
fn trace_in<F: FileSource>(alloc: Global, files: &mut F, name: &str) -> Result<Trace, Failure>
    ensures holds { IfOk result (λ t. HoldsTrace (F.held files.old) name.now t.header t.events.items) }
    ensures why { IfErr result (TellsNoLines (F.held files.old) name.now) }
    ensures keeps { F.held files.new ≡ F.held files.old }
{
    let bytes = read_file(alloc, files, name)?;
    let Ok(text) = std::str::from_utf8(&bytes) else {
        return Err(Failure::not_utf8(alloc, name));
    };
    match read_lines(alloc, text) {
        Ok((header, events)) => Ok(Trace { header, events }),
        Err(error) => Err(Failure::Trace(error)),
    }
}

/// Checks whether the events of a trace are legal in a program's run on an input.
fn judge(alloc: Global, accepted: &Accepted, input: &Input, trace: &Trace) -> Result<(), Failure>
    requires { Fits accepted.now.typed input.now }
    ensures legal { OnOk result
        (AreLegal (code_of accepted.now.typed) (lists_in input.now)
        trace.now.header trace.now.events.items) }
    ensures why { IfErr result
        (TellsIllegal (code_of accepted.now.typed) (lists_in input.now)
        trace.now.header trace.now.events.items) }
{
    replays_refuse_the_first();
    let Header { budget, w0, .. } = trace.header;
    let Some(job) = WeightedJob::new(alloc, accepted, input, budget, w0) else {
        unreachable!()
    };
    match replay(job, &trace.events) {
        Ok(_world) => Ok(()),
        Err(ReplayError::IllegalAt(number)) => Err(Failure::Illegal(number)),
        Err(ReplayError::NoMemory) => Err(Failure::NoMemory),
    }
}
