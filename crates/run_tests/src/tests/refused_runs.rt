//! Runs that run out of memory or of threads, and their traces. As in `refused_calls`, such a call
//! may only report that, and the same call has the right answer once there is memory.

ghost use Rattle.std.specs.Prelude.{◌≡◌, [], IfSome};
ghost use Rattle.types.specs.Contents.{FitsArrays};
ghost use Rattle.types.specs.Translation.{input as lists_in};
ghost use Rattle.types.specs.Typed.{code_of};
ghost use Rattle.event_worlds.specs.Jobs.{IsWeightedJob};
ghost use Rattle.trace.specs.Logs.{job_of};

use crate::tests::refused_calls::{CALLS, accepted_again, report};
use crate::tests::worlds::HALVES;
use crate::tests::{FAULTS, TWO_ARRAYS};
use event_worlds::error::{EventError, ReplayError};
use event_worlds::job::WeightedJob;
use event_worlds::replay::replay;
use events::event::Event;
use race_checker::accepted::Accepted;
use serial_run::serial;
use std::alloc::Global;
use std::io::Eprint;
use std::process::Abort;
use std::sync::Wait;
use std::thread::Threads;
use step_trees::explore::{Explored, explore, explore_random};
use trace::log::Log;
use trace_text::error::TraceError;
use trace_text::header::Header;
use trace_text::read::read_lines;
use trace_text::write::{fits, write_lines};
use types::budget::Budget;
use types::input::Input;
use types::outcome::Outcome;
use workers::error::RunError;
use workers::gate::NoGate;
use workers::run::run;
use workers::settings::{Settings, header_of};

/// The weight that a scope issues at a time: some scopes issue more.
const W0: u64 = 2;

/// Returns zeros for all elements, or None if memory runs out each time.
fn zeros(rt: &impl Eprint, alloc: Global, program: &Accepted) -> Option<Input>
    ensures { IfSome result (λ i. FitsArrays (code_of program.now.typed).arrays (lists_in i)) }
{
    for _ in 0..CALLS {
        match Input::zeros(alloc, program.typed()) {
            Ok(input) => return Some(input),
            Err(_) => report(rt, "zeros"),
        }
    }
    None
}

/// Runs a program on one thread.
fn on_one_thread(rt: &impl Eprint, alloc: Global, of: (&Accepted, &Input)) -> Option<Outcome>
    requires { FitsArrays (code_of of.0.now.typed).arrays (lists_in of.1.now) }
{
    for _ in 0..CALLS {
        match serial(alloc, of.0.typed(), of.1, Budget::usual()) {
            Ok(outcome) => return Some(outcome),
            Err(_) => report(rt, "serial"),
        }
    }
    None
}

/// Runs a program by choices: the given ones, or random ones.
fn by_choices(
    rt: &impl Eprint,
    alloc: Global,
    of: (&Accepted, &Input),
    choices: Option<&[u32]>,
) -> Option<Explored>
    requires { FitsArrays (code_of of.0.now.typed).arrays (lists_in of.1.now) }
{
    for _ in 0..CALLS {
        let explored = match choices {
            Some(choices) => explore(alloc, of.0, of.1, choices),
            None => explore_random(alloc, of.0, of.1, 1),
        };
        match explored {
            Ok(explored) => return Some(explored),
            Err(_) => report(rt, "explore"),
        }
    }
    None
}

/// Reports that a run ended without memory or threads. It may have no other error.
fn report_run(rt: &(impl Abort + Eprint), error: &RunError) {
    match error {
        RunError::OutOfMemory | RunError::RefusedPush(_) | RunError::RefusedThread(_) => {
            report(rt, "run");
        }
        _ => panic!(rt; "{}", error.code()),
    }
}

/// Runs a program in parallel.
fn in_parallel<R: Abort + Eprint + Threads + Wait + Sync>(
    rt: &R,
    alloc: Global,
    of: (&Accepted, &Input),
    settings: Settings,
) -> Option<Outcome>
    requires { FitsArrays (code_of of.0.now.typed).arrays (lists_in of.1.now) }
{
    for _ in 0..CALLS {
        match run(rt, alloc, of.0, of.1, settings, &NoGate, None) {
            Ok((finished, _)) => return Some(finished.outcome),
            Err(error) => report_run(rt, &error),
        }
    }
    None
}

/// Returns an empty log.
fn empty_log<'p>(
    rt: &impl Eprint,
    alloc: Global,
    program: &'p Accepted,
    input: &'p Input,
    header: &Header,
) -> Option<Log<'p>>
    requires { FitsArrays (code_of program.now.typed).arrays (lists_in input.now) }
    ensures begun { IfSome result (λ l. l.events ≡ []) }
    ensures job { IfSome result (λ l. l.world.job
        ≡ job_of alloc program.entry input.entry header.now.budget header.now.w0) }
{
    for _ in 0..CALLS {
        match Log::new(alloc, header, program, input) {
            Ok(log) => return Some(log),
            Err(_) => report(rt, "Log::new"),
        }
    }
    None
}

/// Runs a program in parallel, with a log.
fn with_log<'p, R: Abort + Eprint + Threads + Wait + Sync>(
    rt: &R,
    alloc: Global,
    of: (&'p Accepted, &'p Input),
    settings: Settings,
) -> Option<(Outcome, Log<'p>)>
    requires { FitsArrays (code_of of.0.now.typed).arrays (lists_in of.1.now) }
{
    let (program, input) = of;
    for _ in 0..CALLS {
        let log = empty_log(rt, alloc, program, input, &header_of(settings))?;
        match run(rt, alloc, program, input, settings, &NoGate, Some(log)) {
            Ok((finished, log)) => return Some((finished.outcome, log.expect(rt, "the log"))),
            Err(error) => report_run(rt, &error),
        }
    }
    None
}

/// Writes the lines of a trace.
fn written(rt: &impl Eprint, alloc: Global, header: &Header, events: &[Event]) -> Option<String> {
    if !fits(header, events) {
        return None;
    }
    for _ in 0..CALLS {
        match write_lines(alloc, header, events) {
            Ok(text) => return Some(text),
            Err(_) => report(rt, "write_lines"),
        }
    }
    None
}

/// Reads the lines of a trace.
fn read(rt: &(impl Abort + Eprint), alloc: Global, text: &str) -> Option<Vec<Event>> {
    for _ in 0..CALLS {
        match read_lines(alloc, text) {
            Ok((_, events)) => return Some(events),
            Err(TraceError::NoMemory) => report(rt, "read_lines"),
            Err(error) => panic!(rt; "{error}"),
        }
    }
    None
}

/// Returns whether events lead to an outcome.
fn lead_to(
    rt: &(impl Abort + Eprint),
    job: WeightedJob<'_>,
    events: &[Event],
    outcome: &Outcome,
) -> Option<bool>
    requires { IsWeightedJob job }
{
    for _ in 0..CALLS {
        match replay(job, events) {
            Ok(world) => return Some(world.outcome() == Some(outcome)),
            Err(ReplayError::NoMemory) => report(rt, "replay"),
            Err(ReplayError::IllegalAt(number)) => panic!(rt; "event {number} isn't legal"),
        }
    }
    None
}

/// Returns a copy of an event.
fn copied(event: &Event) -> Option<Event> {
    for _ in 0..CALLS {
        if let Ok(event) = event.clone() {
            return Some(event);
        }
    }
    None
}

/// Records an event. A log that runs out of memory keeps what it had.
fn record(rt: &(impl Abort + Eprint), log: &mut Log<'_>, event: &Event) -> Option<()> {
    let number = log.events().len();
    for _ in 0..CALLS {
        match log.record(copied(event)?) {
            Ok(()) => return Some(()),
            Err(EventError::NoMemory) => report(rt, "record"),
            Err(EventError::Illegal) => panic!(rt; "event {number} isn't legal"),
        }
        assert!(rt; log.events().len() == number, "a log with another event");
    }
    None
}

/// Returns whether a log with these events leads to an outcome, if they are recorded one by one.
fn recorded_lead_to(
    rt: &(impl Abort + Eprint),
    mut log: Log<'_>,
    events: &[Event],
    outcome: &Outcome,
) -> Option<bool> {
    for event in events {
        record(rt, &mut log, event)?;
    }
    Some(log.world().outcome() == Some(outcome) && log.events() == events)
}

/// Compares all ways to run a program. Returns None if some call never found memory.
fn ways_agree<R: Abort + Eprint + Threads + Wait + Sync>(
    rt: &R,
    alloc: Global,
    text: &str,
    choices: Option<&[u32]>,
) -> Option<()> {
    let program = accepted_again(rt, alloc, text)?;
    let input = zeros(rt, alloc, &program)?;
    let outcome = on_one_thread(rt, alloc, (&program, &input))?;
    match by_choices(rt, alloc, (&program, &input), choices)? {
        Explored::Ended(explored) => assert!(rt; explored == outcome, "choices end otherwise"),
        Explored::Open { .. } | Explored::NoSuchChoice(_) => panic!(rt; "choices don't end"),
    }
    for workers in [1, 2, 8] {
        let settings = Settings::new(Budget::usual(), 64, W0, workers).expect(rt, "settings");
        let ran = in_parallel(rt, alloc, (&program, &input), settings)?;
        assert!(rt; ran == outcome, "{workers} workers end otherwise");
    }
    Some(())
}

#[test]
fn runs_end_alike_once_there_is_memory(rt: HostRuntime) {
    let alloc = rt.alloc();
    let choices: &[u32] = &[0, 0, 0, 0, 0];
    let _ = ways_agree(&rt, alloc, TWO_ARRAYS, Some(choices));
    for text in [FAULTS, HALVES] {
        let _ = ways_agree(&rt, alloc, text, None);
    }
}

/// Writes the trace of a run, reads it, replays it and records it. Returns None if some call never
/// found memory.
fn traces_agree<R: Abort + Eprint + Threads + Wait + Sync>(
    rt: &R,
    alloc: Global,
    text: &str,
    workers: u64,
) -> Option<()> {
    let program = accepted_again(rt, alloc, text)?;
    let input = zeros(rt, alloc, &program)?;
    let settings = Settings::new(Budget::usual(), 64, W0, workers).expect(rt, "settings");
    let header = header_of(settings);
    let (outcome, log) = with_log(rt, alloc, (&program, &input), settings)?;
    let lines = written(rt, alloc, &header, log.events())?;
    let events = read(rt, alloc, lines.as_str())?;
    assert!(rt;
        events.as_slice() == log.events(),
        "the trace is read otherwise"
    );
    let job = WeightedJob::new(alloc, &program, &input, Budget::usual(), W0);
    let leads = lead_to(rt, job.expect(rt, "a weight"), &events, &outcome)?;
    assert!(rt; leads, "the trace leads to another end");
    let empty = empty_log(rt, alloc, &program, &input, &header)?;
    let leads = recorded_lead_to(rt, empty, &events, &outcome)?;
    assert!(rt; leads, "the recorded events lead to another end");
    Some(())
}

#[test]
fn traces_are_written_and_read_once_there_is_memory(rt: HostRuntime) {
    let alloc = rt.alloc();
    for (text, workers) in [(TWO_ARRAYS, 1), (FAULTS, 2)] {
        let _ = traces_agree(&rt, alloc, text, workers);
    }
}
