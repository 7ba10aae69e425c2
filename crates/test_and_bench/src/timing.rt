//! `bench`: how long a program runs serially and in parallel.

ghost use Rattle.std.specs.Prelude.{◌≡◌, ◌≤◌, ◌++◌, codes, IfErr, IfOk, OnOk};
ghost use Rattle.std.specs.String.{string_bytes};
ghost use Rattle.types.specs.Translation.{budget as budget_of, input as lists_in};
ghost use Rattle.types.specs.Typed.{code_of};
ghost use Rattle.cost.specs.Costs.{cost_of, tally_of};
ghost use Rattle.trace_numbers.specs.Text.{line, parallelism};
ghost use Rattle.command_line.specs.Requests.{settings as settings_of};
ghost use Rattle.commands.specs.Outcomes.{Fits, IsOutcomeOf};
ghost use Rattle.test_and_bench.specs.Runs.{TellsNoRun};
ghost use Rattle.test_and_bench.specs.Times.{AreAllOfFive, AreOfFive, DoesBench, IsMadeAbove, counts, speeds};
ghost use Rattle.test_and_bench.specs.Times.{times_line as line_of_times, times_line_if, times_text};
ghost use Rattle.std.specs.Fmt.{decimal};
ghost use Rattle.test_and_bench.specs.declared.times.Timed.{Timed as TimedOf};

use crate::clock::Stopwatch;
use crate::runs::{Runs, on_workers};
use crate::times::{Timed, Times};
use command_line::request::RunOptions;
use commands::question::Question;
use commands::showing::{answer, show, status};
use cost::cost::{Cost, Costed, measure};
use cost::text::push_grain;
use failures::failure::Failure;
use files::file_source::FileSource;
use race_checker::accepted::Accepted;
use serial_run::serial;
use std::alloc::{AllocError, Global};
use std::io::Write;
use std::sync::Wait;
use std::thread::Threads;
use trace_numbers::text::push_parallelism;
use types::input::Input;

/// What is needed to measure durations.
#[derive(Drop)]
pub struct Timing<'t, W, C> {
    pub alloc: Global,
    /// Runs programs in parallel.
    pub runs: &'t W,
    pub clock: &'t mut C,
}

/// Runs a program five times serially, and five times each in parallel on 1, on 2 and on all
/// workers. Writes how long the runs took, how much faster all workers are and can be, how many
/// tasks there were, and how many places are copied for them. If the run has faults or is stopped,
/// writes its outcome instead. Returns the exit status.
pub fn bench<R: Threads + Wait + Sync, F: FileSource, O: Write, W: Runs, C: Stopwatch>(
    rt: &R,
    timing: Timing<'_, W, C>,
    question: Question<'_>,
    files: &mut F,
    out: &mut O,
) -> Result<u8, Failure>
    ensures done { DoesBench (settings_of question.entry.settings) (F.held files.old)
        question.entry.text.now (O.contents out.old) (O.contents out.new) result }
    ensures keeps { F.held files.new ≡ F.held files.old }
{
    let Timing { alloc, runs, clock } = timing;
    let given = question.begun(rt, alloc, files)?;
    let costed = measured(alloc, &given.accepted, &given.input, question.settings)?;
    if status(&costed.outcome) == 0 {
        let job = Job {
            alloc,
            accepted: &given.accepted,
            input: &given.input,
            settings: question.settings,
        };
        let told = job.told(rt, runs, clock, &costed.cost)?;
        answer(out, told.as_str())
    } else {
        let arrays = &given.accepted.typed().code().arrays;
        show(out, arrays, &costed.outcome, false)
    }
}

/// Returns the outcome and the cost of the run.
pub fn measured(
    alloc: Global,
    accepted: &Accepted,
    input: &Input,
    settings: RunOptions<'_>,
) -> Result<Costed, Failure>
    requires { Fits accepted.now.typed input.now }
    ensures outcome { IfOk result
        (λ c. IsOutcomeOf accepted.now.typed input.now settings.entry.budget c.outcome) }
    ensures cost { IfOk result (λ c. c.cost ≡ cost_of (tally_of
        (code_of accepted.now.typed) (lists_in input.now) (budget_of settings.entry.budget))) }
    ensures why { IfErr result (λ f. f ≡ Failure.NoMemory) }
{
    match measure(alloc, accepted.typed(), input, settings.budget) {
        Ok(costed) => Ok(costed),
        Err(_) => Err(Failure::NoMemory),
    }
}

/// What is run.
#[derive(Clone, Copy)]
pub struct Job<'j> {
    pub alloc: Global,
    pub accepted: &'j Accepted,
    pub input: &'j Input,
    pub settings: RunOptions<'j>,
}

impl Job<'_> {
    /// Returns how long its runs take, one line each, and what one of them costs.
    fn told<R: Threads + Wait + Sync, W: Runs, C: Stopwatch>(
        &self,
        rt: &R,
        runs: &W,
        clock: &mut C,
        cost: &Cost,
    ) -> Result<String, Failure>
        requires { Fits self.now.accepted.now.typed self.now.input.now }
        ensures text { IfOk result
            (λ text. (t : TimedOf) × AreAllOfFive self.now.settings.spread.workers t
            × (string_bytes text ≡ times_text t cost.now)) }
        ensures why { IfErr result (TellsNoRun (settings_of self.now.settings)) }
    {
        let timed = self.timed(rt, runs, clock)?;
        match text_of(self.alloc, &timed, cost) {
            Ok(text) => Ok(text),
            Err(AllocError) => Err(Failure::NoMemory),
        }
    }

    /// Returns how long its runs take.
    pub fn timed<R: Threads + Wait + Sync, W: Runs, C: Stopwatch>(
        &self,
        rt: &R,
        runs: &W,
        clock: &mut C,
    ) -> Result<Timed, Failure>
        requires { Fits self.now.accepted.now.typed self.now.input.now }
        ensures five { IfOk result (AreAllOfFive self.now.settings.spread.workers) }
        ensures why { IfErr result (TellsNoRun (settings_of self.now.settings)) }
    {
        let serial = self.on_one_thread(clock)?;
        let on_one = self.as_tasks(rt, runs, clock, 1)?;
        let workers = self.settings.spread.workers;
        let on_two = self.above(rt, runs, clock, 2, 2)?;
        let on_all = self.above(rt, runs, clock, workers, 1)?;
        Ok(Timed {
            workers,
            serial,
            on_one,
            on_two,
            on_all,
        })
    }

    /// Returns the durations of five serial runs.
    fn on_one_thread<C: Stopwatch>(&self, clock: &mut C) -> Result<Times, Failure>
        requires { Fits self.now.accepted.now.typed self.now.input.now }
        ensures five { IfOk result AreOfFive }
        ensures why { IfErr result (λ f. f ≡ Failure.NoMemory) }
    {
        Ok(Times::of([
            self.once_on_one_thread(clock)?,
            self.once_on_one_thread(clock)?,
            self.once_on_one_thread(clock)?,
            self.once_on_one_thread(clock)?,
            self.once_on_one_thread(clock)?,
        ]))
    }

    /// Returns the duration of one serial run.
    fn once_on_one_thread<C: Stopwatch>(&self, clock: &mut C) -> Result<u64, Failure>
        requires { Fits self.now.accepted.now.typed self.now.input.now }
        ensures why { IfErr result (λ f. f ≡ Failure.NoMemory) }
    {
        let begun = clock.micros();
        match serial(
            self.alloc,
            self.accepted.typed(),
            self.input,
            self.settings.budget,
        ) {
            Ok(_outcome) => Ok(clock.micros().saturating_sub(begun)),
            Err(AllocError) => Err(Failure::NoMemory),
        }
    }

    /// Returns the durations of five parallel runs on this many workers, if there are more workers
    /// than others.
    fn above<R: Threads + Wait + Sync, W: Runs, C: Stopwatch>(
        &self,
        rt: &R,
        runs: &W,
        clock: &mut C,
        workers: u64,
        others: u64,
    ) -> Result<Option<Times>, Failure>
        requires fits { Fits self.now.accepted.now.typed self.now.input.now }
        requires workers { (1 ≤ workers) × (workers ≤ 64) }
        ensures made { IfOk result (IsMadeAbove others self.now.settings.spread.workers) }
        ensures why { IfErr result (TellsNoRun (settings_of self.now.settings)) }
    {
        if self.settings.spread.workers > others {
            Ok(Some(self.as_tasks(rt, runs, clock, workers)?))
        } else {
            Ok(None)
        }
    }

    /// Returns the durations of five parallel runs on this many workers.
    fn as_tasks<R: Threads + Wait + Sync, W: Runs, C: Stopwatch>(
        &self,
        rt: &R,
        runs: &W,
        clock: &mut C,
        workers: u64,
    ) -> Result<Times, Failure>
        requires fits { Fits self.now.accepted.now.typed self.now.input.now }
        requires workers { (1 ≤ workers) × (workers ≤ 64) }
        ensures five { IfOk result AreOfFive }
        ensures why { IfErr result (TellsNoRun (settings_of self.now.settings)) }
    {
        Ok(Times::of([
            self.once_as_tasks(rt, runs, clock, workers)?,
            self.once_as_tasks(rt, runs, clock, workers)?,
            self.once_as_tasks(rt, runs, clock, workers)?,
            self.once_as_tasks(rt, runs, clock, workers)?,
            self.once_as_tasks(rt, runs, clock, workers)?,
        ]))
    }

    /// Returns the duration of one parallel run.
    fn once_as_tasks<R: Threads + Wait + Sync, W: Runs, C: Stopwatch>(
        &self,
        rt: &R,
        runs: &W,
        clock: &mut C,
        workers: u64,
    ) -> Result<u64, Failure>
        requires fits { Fits self.now.accepted.now.typed self.now.input.now }
        requires workers { (1 ≤ workers) × (workers ≤ 64) }
        ensures why { IfErr result (TellsNoRun (settings_of self.now.settings)) }
    {
        let settings = on_workers(self.settings, workers);
        let begun = clock.micros();
        match runs.outcome(rt, self.alloc, self.accepted, self.input, settings) {
            Ok(_outcome) => Ok(clock.micros().saturating_sub(begun)),
            Err(failure) => Err(failure),
        }
    }
}

/// Adds the line of a run.
fn push_times(text: &mut String, run: &str, times: Times) -> Result<(), AllocError>
    ensures { OnOk result (string_bytes text.new
        ≡ string_bytes text.old ++ line_of_times run.now times) }
{
    let least = times.least;
    let median = times.median;
    write!(text, "{run}: min {least} us, median {median} us\n")
}

/// Adds the line of a run, if it is made.
fn push_if(text: &mut String, run: &str, times: Option<Times>) -> Result<(), AllocError>
    ensures { OnOk result (string_bytes text.new
        ≡ string_bytes text.old ++ times_line_if run.now times) }
{
    match times {
        Some(times) => push_times(text, run, times),
        None => Ok(()),
    }
}

/// Adds the line of the runs on all workers, if they are made.
fn push_all(text: &mut String, timed: &Timed) -> Result<(), AllocError>
    ensures { OnOk result (string_bytes text.new ≡ string_bytes text.old
        ++ times_line_if (codes "run, " ++ (decimal timed.now.workers ++ codes " workers"))
        timed.now.on_all) }
{
    let Some(times) = timed.on_all else {
        return Ok(());
    };
    let workers = timed.workers;
    let (least, median) = (times.least, times.median);
    write!(
        text,
        "run, {workers} workers: min {least} us, median {median} us\n"
    )
}

/// Adds how many times as fast the program is on all workers, and what work and span allow.
fn push_speeds(text: &mut String, timed: &Timed, cost: &Cost) -> Result<(), AllocError>
    ensures { OnOk result (string_bytes text.new
        ≡ string_bytes text.old ++ speeds timed.now cost.now) }
{
    let parallel = timed.on_all.unwrap_or(timed.on_one);
    let (serial, parallel) = (timed.serial.median, parallel.median);
    push_rate(text, "speed-up", serial as usize, parallel as usize)?;
    push_rate(text, "work / span", cost.work, cost.span)
}

/// Adds a line with a label and the quotient of two numbers, or `-` if the second is 0.
fn push_rate(text: &mut String, label: &str, first: usize, second: usize) -> Result<(), AllocError>
    ensures { OnOk result (string_bytes text.new
        ≡ string_bytes text.old ++ line label.now (parallelism first second)) }
{
    write!(text, "{label}: ")?;
    push_parallelism(text, first, second)
}

/// Adds how many tasks there were, and how many places are copied for them.
fn push_counts(text: &mut String, cost: &Cost) -> Result<(), AllocError>
    ensures { OnOk result (string_bytes text.new ≡ string_bytes text.old ++ counts cost.now) }
{
    let tasks = cost.tasks;
    let copied = cost.copied;
    write!(text, "tasks: {tasks}\ncopied places: {copied}\n")
}

/// Returns a line for each of the durations, followed by the speed-up, those counts, and how many
/// steps a task takes.
fn text_of(alloc: Global, timed: &Timed, cost: &Cost) -> Result<String, AllocError>
    ensures { IfOk result (λ text. string_bytes text ≡ times_text timed.now cost.now) }
{
    let mut text = String::new(alloc);
    push_times(&mut text, "serial", timed.serial)?;
    push_times(&mut text, "run, 1 worker", timed.on_one)?;
    push_if(&mut text, "run, 2 workers", timed.on_two)?;
    push_all(&mut text, timed)?;
    push_speeds(&mut text, timed, cost)?;
    push_counts(&mut text, cost)?;
    push_grain(&mut text, cost)?;
    Ok(text)
}
