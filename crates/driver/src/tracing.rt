//! Runs of tasks, on threads or drawn from a seed. Their trace is written if a file is named for it.

ghost use Rattle.std.specs.Prelude.{◌≡◌, ◌<◌, IfErr, IfOk, map};
ghost use Rattle.std.specs.String.{string_bytes};
ghost use Rattle.types.specs.Translation.{input as lists_in};
ghost use Rattle.types.specs.Typed.{code_of};
ghost use Rattle.events.specs.Events.{event as event_of};
ghost use Rattle.command_line.specs.Requests.{settings as settings_of};
ghost use Rattle.commands.specs.Answers.{IsTraced};
ghost use Rattle.commands.specs.Outcomes.{Fits, IsOutcomeOf};
ghost use Rattle.json_answers.specs.Objects.{FailsEarly};
ghost use Rattle.driver.specs.Traced.{AreOfRun, IsRunOf, IsTraceOf, TellsNoOutcome, TellsNoRun};
ghost use Rattle.driver.specs.Traced.{TracesBegun, TracesRun};

use command_line::request::{Command, RunOptions, Spread};
use commands::question::{Begun, Question};
use event_worlds::error::ReplayError;
use event_worlds::job::WeightedJob;
use event_worlds::walk::{Walk, random_walk};
use event_worlds::world::World;
use events::event::Event;
use failures::failure::Failure;
use files::file_source::{FileSource, write_file};
use finish_scope::run_error::RunError;
use std::alloc::Global;
use std::sync::Wait;
use std::thread::Threads;
use trace::log::Log;
use trace::upgrade::upgrade;
use trace_text::write::write_lines;
use types::outcome::Outcome;
use workers::gate::NoGate;
use workers::run::run;
use workers::settings::{Settings as RunSettings, header_of};

/// A program that was run in parallel, and its outcome.
#[derive(Drop)]
pub struct Ran {
    pub given: Begun,
    pub outcome: Outcome,
}

/// What decides which event of a run comes next.
#[derive(Clone, Copy, PartialEq, Eq, Debug)]
pub enum Schedule {
    /// Worker threads, each at its own speed.
    OnThreads,
    /// `walk`: a generator with this seed. No thread is started.
    Drawn(u64),
}

/// Runs the program of a text as tasks, on the input that was given.
pub fn run_of<R: Threads + Wait + Sync, F: FileSource>(
    rt: &R,
    alloc: Global,
    schedule: Schedule,
    question: Question<'_>,
    files: &mut F,
) -> Result<Ran, Failure>
    ensures ran { IfOk result (IsRunOf (settings_of question.entry.settings) (F.held files.old)
        question.entry.text.now) }
    ensures why { IfErr result (FailsEarly Command.Run (settings_of question.entry.settings)
        (F.held files.old) question.entry.text.now) }
    ensures trace { TracesRun (settings_of question.entry.settings) question.entry.text.now
        (F.held files.old) (F.held files.new) result }
{
    let given = question.begun(rt, alloc, files)?;
    let outcome = outcome_of(rt, alloc, schedule, question.settings, &given, files)?;
    Ok(Ran { given, outcome })
}

/// Returns the outcome of a run. If a file is named for its trace, the trace is written before the
/// outcome is returned.
fn outcome_of<R: Threads + Wait + Sync, F: FileSource>(
    rt: &R,
    alloc: Global,
    schedule: Schedule,
    settings: RunOptions<'_>,
    given: &Begun,
    files: &mut F,
) -> Result<Outcome, Failure>
    requires { Fits given.now.accepted.typed given.now.input }
    ensures outcome { IfOk result
        (IsOutcomeOf given.now.accepted.typed given.now.input settings.entry.budget) }
    ensures why { IfErr result (TellsNoRun (settings_of settings.entry)) }
    ensures trace { TracesBegun (settings_of settings.entry) given.now
        (F.held files.old) (F.held files.new) result }
{
    match settings.trace {
        None => untold(rt, alloc, schedule, settings, given),
        Some(name) => {
            let (outcome, trace) = told(rt, alloc, schedule, settings, given)?;
            write_file(alloc, files, name, trace.as_bytes())?;
            Ok(outcome)
        }
    }
}

/// Returns the outcome of a run whose trace isn't asked for.
fn untold<R: Threads + Wait + Sync>(
    rt: &R,
    alloc: Global,
    schedule: Schedule,
    settings: RunOptions<'_>,
    given: &Begun,
) -> Result<Outcome, Failure>
    requires { Fits given.now.accepted.typed given.now.input }
    ensures outcome { IfOk result
        (IsOutcomeOf given.now.accepted.typed given.now.input settings.entry.budget) }
    ensures why { IfErr result (TellsNoOutcome (settings_of settings.entry)) }
{
    match schedule {
        Schedule::OnThreads => untraced(rt, alloc, settings, given),
        Schedule::Drawn(seed) => match drawn(alloc, settings, given, seed) {
            Ok(run) => Ok(run.outcome),
            Err(failure) => Err(failure),
        },
    }
}

/// Returns the outcome of a run, and the lines of its trace.
fn told<R: Threads + Wait + Sync>(
    rt: &R,
    alloc: Global,
    schedule: Schedule,
    settings: RunOptions<'_>,
    given: &Begun,
) -> Result<(Outcome, String), Failure>
    requires fits { Fits given.now.accepted.typed given.now.input }
    requires traced { IsTraced (settings_of settings) }
    ensures outcome { IfOk result
        (λ r. IsOutcomeOf given.now.accepted.typed given.now.input settings.entry.budget r.0) }
    ensures trace { IfOk result (λ r. IsTraceOf (code_of given.now.accepted.typed)
        (lists_in given.now.input) (settings_of settings.entry) (string_bytes r.1)) }
    ensures why { IfErr result (TellsNoOutcome (settings_of settings.entry)) }
{
    match schedule {
        Schedule::OnThreads => traced(rt, alloc, settings, given),
        Schedule::Drawn(seed) => drawn_and_told(alloc, settings, given, seed),
    }
}

// ---- on threads

/// Returns the outcome of a parallel run that isn't recorded.
fn untraced<R: Threads + Wait + Sync>(
    rt: &R,
    alloc: Global,
    settings: RunOptions<'_>,
    given: &Begun,
) -> Result<Outcome, Failure>
    requires { Fits given.now.accepted.typed given.now.input }
    ensures outcome { IfOk result
        (IsOutcomeOf given.now.accepted.typed given.now.input settings.entry.budget) }
    ensures why { IfErr result (TellsNoOutcome (settings_of settings.entry)) }
{
    let on = run_settings(settings);
    match run(rt, alloc, &given.accepted, &given.input, on, &NoGate, None) {
        Ok((finished, _)) => Ok(finished.outcome),
        Err(error) => Err(Failure::Run(error)),
    }
}

/// Returns the outcome of a parallel run, and the lines of its trace.
fn traced<R: Threads + Wait + Sync>(
    rt: &R,
    alloc: Global,
    settings: RunOptions<'_>,
    given: &Begun,
) -> Result<(Outcome, String), Failure>
    requires fits { Fits given.now.accepted.typed given.now.input }
    requires traced { IsTraced (settings_of settings) }
    ensures outcome { IfOk result
        (λ r. IsOutcomeOf given.now.accepted.typed given.now.input settings.entry.budget r.0) }
    ensures trace { IfOk result (λ r. IsTraceOf (code_of given.now.accepted.typed)
        (lists_in given.now.input) (settings_of settings.entry) (string_bytes r.1)) }
    ensures why { IfErr result (TellsNoOutcome (settings_of settings.entry)) }
{
    let on = run_settings(settings);
    let header = header_of(on);
    let accepted = &given.accepted;
    let input = &given.input;
    let Ok(log) = Log::new(alloc, &header, accepted, input) else {
        return Err(Failure::Run(RunError::OutOfMemory));
    };
    let (finished, log) = match run(rt, alloc, accepted, input, on, &NoGate, Some(log)) {
        Ok(ran) => ran,
        Err(error) => return Err(Failure::Run(error)),
    };
    let Some(log) = log else { unreachable!() };
    match write_lines(alloc, &header, log.events()) {
        Ok(lines) => Ok((finished.outcome, lines)),
        Err(_) => Err(Failure::NoMemory),
    }
}

// ---- drawn from a seed

/// A run whose events were drawn from a seed.
#[derive(Drop)]
struct DrawnRun {
    outcome: Outcome,
    events: Vec<Event>,
}

/// Returns the outcome of a run whose events are drawn from a seed, and the lines of its trace.
fn drawn_and_told(
    alloc: Global,
    settings: RunOptions<'_>,
    given: &Begun,
    seed: u64,
) -> Result<(Outcome, String), Failure>
    requires { Fits given.now.accepted.typed given.now.input }
    ensures outcome { IfOk result
        (λ r. IsOutcomeOf given.now.accepted.typed given.now.input settings.entry.budget r.0) }
    ensures trace { IfOk result (λ r. IsTraceOf (code_of given.now.accepted.typed)
        (lists_in given.now.input) (settings_of settings.entry) (string_bytes r.1)) }
    ensures why { IfErr result (TellsNoOutcome (settings_of settings.entry)) }
{
    let DrawnRun { outcome, events } = drawn(alloc, settings, given, seed)?;
    match lines_of(alloc, settings, given, &events) {
        Ok(lines) => Ok((outcome, lines)),
        Err(failure) => Err(failure),
    }
}

/// Draws a run from a seed, event by event.
fn drawn(
    alloc: Global,
    settings: RunOptions<'_>,
    given: &Begun,
    seed: u64,
) -> Result<DrawnRun, Failure>
    requires { Fits given.now.accepted.typed given.now.input }
    ensures outcome { IfOk result
        (λ d. IsOutcomeOf given.now.accepted.typed given.now.input settings.entry.budget d.outcome) }
    ensures events { IfOk result (λ d. AreOfRun (code_of given.now.accepted.typed)
        (lists_in given.now.input) (settings_of settings.entry) (map event_of d.events.items)) }
    ensures why { IfErr result (TellsNoOutcome (settings_of settings.entry)) }
{
    let on = run_settings(settings);
    let header = header_of(on);
    let Some(job) = WeightedJob::new(alloc, &given.accepted, &given.input, on.budget, on.w0) else {
        unreachable!()
    };
    let Ok(walk) = random_walk(job, header.workers, seed, usize::MAX) else {
        return Err(Failure::NoMemory);
    };
    let Walk { events, world } = walk;
    let World { told, .. } = world;
    // Without an outcome, a task needs weight from a scope that has issued it 2^31 times.
    match told {
        Some(outcome) => Ok(DrawnRun { outcome, events }),
        None => Err(Failure::NoMemory),
    }
}

/// Returns the lines of the trace of a run whose events were drawn. Each resume gets the number of
/// faults that its finish has gathered.
fn lines_of(
    alloc: Global,
    settings: RunOptions<'_>,
    given: &Begun,
    events: &[Event],
) -> Result<String, Failure>
    requires fits { Fits given.now.accepted.typed given.now.input }
    requires events { AreOfRun (code_of given.now.accepted.typed) (lists_in given.now.input)
        (settings_of settings) (map event_of events.now) }
    ensures trace { IfOk result (λ lines. IsTraceOf (code_of given.now.accepted.typed)
        (lists_in given.now.input) (settings_of settings.entry) (string_bytes lines)) }
    ensures why { IfErr result (TellsNoOutcome (settings_of settings.entry)) }
{
    let header = header_of(run_settings(settings));
    match upgrade(alloc, &given.accepted, &given.input, &header, events) {
        Ok((header, events)) => match write_lines(alloc, &header, &events) {
            Ok(lines) => Ok(lines),
            Err(_) => Err(Failure::NoMemory),
        },
        Err(ReplayError::IllegalAt(_)) => unreachable!(),
        Err(ReplayError::NoMemory) => Err(Failure::NoMemory),
    }
}

/// Returns the limits of a run and its number of workers, as requested.
pub(crate) fn run_settings(settings: RunOptions<'_>) -> RunSettings
    ensures budget { result.budget ≡ settings.entry.budget }
    ensures tasks { result.tasks ≡ settings.entry.spread.tasks }
    ensures w0 { result.w0 ≡ settings.entry.spread.w0 }
    ensures workers { result.workers ≡ settings.entry.spread.workers }
{
    let Spread { tasks, w0, workers } = settings.spread;
    match RunSettings::new(settings.budget, tasks, w0, workers) {
        Some(on) => on,
        None => unreachable!(),
    }
}
