//! Whether a program prints its expected output, however it is run.

ghost use Rattle.std.specs.Prelude.{◌≡◌, ◌≤◌, IfErr, IfOk, option_map};
ghost use Rattle.types.specs.Translation.{outcome as outcome_in};
ghost use Rattle.command_line.specs.Requests.{settings as settings_of};
ghost use Rattle.commands.specs.Outcomes.{Fits};
ghost use Rattle.test_and_bench.specs.Runs.{TellsNoRun};
ghost use Rattle.test_and_bench.specs.Trials.{differs_in, differs_with, text_with, told_in};

use crate::differences::difference;
use crate::runs::{Runs, on_workers};
use command_line::request::RunOptions;
use failures::failure::Failure;
use printing::emit::emit;
use race_checker::accepted::Accepted;
use serial_run::serial;
use std::alloc::{AllocError, Global};
use std::sync::Wait;
use std::thread::Threads;
use types::input::Input;
use types::outcome::Outcome;

/// A program on an input, its settings, and its expected output.
#[derive(Clone, Copy)]
pub struct Case<'c> {
    pub alloc: Global,
    pub accepted: &'c Accepted,
    pub input: &'c Input,
    pub settings: RunOptions<'c>,
    pub wanted: &'c [u8],
}

impl Case<'_> {
    /// Returns how its output differs from the expected output, or None if it doesn't: serially, and
    /// in parallel on 1 and on all workers.
    pub fn difference<R: Threads + Wait + Sync, W: Runs>(
        &self,
        rt: &R,
        runs: &W,
    ) -> Result<Option<Vec<u8>>, Failure>
        requires { Fits self.now.accepted.now.typed self.now.input.now }
        ensures how { IfOk result (λ how. option_map (λ v. v.items) how ≡ differs_in self.now) }
        ensures why { IfErr result (TellsNoRun (settings_of self.now.settings)) }
    {
        let serially = self.difference_on_one_thread()?;
        if serially.is_some() {
            return Ok(serially);
        }
        let on_one_worker = self.difference_as_tasks(rt, runs, 1)?;
        if on_one_worker.is_some() {
            return Ok(on_one_worker);
        }
        self.difference_as_tasks(rt, runs, self.settings.spread.workers)
    }

    /// Returns what it prints, by a serial run. It is also run in parallel, on 1 and on all workers,
    /// because such a run can fail; if it doesn't, it prints the same.
    pub fn told<R: Threads + Wait + Sync, W: Runs>(
        &self,
        rt: &R,
        runs: &W,
    ) -> Result<Vec<u8>, Failure>
        requires { Fits self.now.accepted.now.typed self.now.input.now }
        ensures told { IfOk result (λ v. v.items ≡ told_in self.now) }
        ensures why { IfErr result (TellsNoRun (settings_of self.now.settings)) }
    {
        let told = self.told_on_one_thread()?;
        let again = Case {
            wanted: &told,
            ..*self
        };
        let _same = again.difference(rt, runs)?;
        Ok(told)
    }

    /// Returns what a serial run prints.
    fn told_on_one_thread(&self) -> Result<Vec<u8>, Failure>
        requires { Fits self.now.accepted.now.typed self.now.input.now }
        ensures told { IfOk result (λ v. v.items ≡ told_in self.now) }
        ensures why { IfErr result (λ f. f ≡ Failure.NoMemory) }
    {
        match serial(
            self.alloc,
            self.accepted.typed(),
            self.input,
            self.settings.budget,
        ) {
            Ok(outcome) => self.text_of(&outcome),
            Err(_) => Err(Failure::NoMemory),
        }
    }

    /// Returns that for a run on one thread.
    fn difference_on_one_thread(&self) -> Result<Option<Vec<u8>>, Failure>
        requires { Fits self.now.accepted.now.typed self.now.input.now }
        ensures how { IfOk result (λ how. option_map (λ v. v.items) how ≡ differs_in self.now) }
        ensures why { IfErr result (λ f. f ≡ Failure.NoMemory) }
    {
        match serial(
            self.alloc,
            self.accepted.typed(),
            self.input,
            self.settings.budget,
        ) {
            Ok(outcome) => self.difference_of(&outcome),
            Err(_) => Err(Failure::NoMemory),
        }
    }

    /// Returns that for a parallel run on this many workers.
    fn difference_as_tasks<R: Threads + Wait + Sync, W: Runs>(
        &self,
        rt: &R,
        runs: &W,
        workers: u64,
    ) -> Result<Option<Vec<u8>>, Failure>
        requires fits { Fits self.now.accepted.now.typed self.now.input.now }
        requires workers { (1 ≤ workers) × (workers ≤ 64) }
        ensures how { IfOk result (λ how. option_map (λ v. v.items) how ≡ differs_in self.now) }
        ensures why { IfErr result (TellsNoRun (settings_of self.now.settings)) }
    {
        let settings = on_workers(self.settings, workers);
        match runs.outcome(rt, self.alloc, self.accepted, self.input, settings) {
            Ok(outcome) => self.difference_of(&outcome),
            Err(failure) => Err(failure),
        }
    }

    /// Returns that for the text of an outcome of the program.
    fn difference_of(&self, outcome: &Outcome) -> Result<Option<Vec<u8>>, Failure>
        ensures how { IfOk result (λ how. option_map (λ v. v.items) how
            ≡ differs_with self.now (outcome_in outcome.now)) }
        ensures why { IfErr result (λ f. f ≡ Failure.NoMemory) }
    {
        let told = self.text_of(outcome)?;
        match difference(self.alloc, &told, self.wanted) {
            Ok(how) => Ok(how),
            Err(AllocError) => Err(Failure::NoMemory),
        }
    }

    /// Returns the text of an outcome of the program.
    fn text_of(&self, outcome: &Outcome) -> Result<Vec<u8>, Failure>
        ensures text { IfOk result (λ v. v.items ≡ text_with self.now (outcome_in outcome.now)) }
        ensures why { IfErr result (λ f. f ≡ Failure.NoMemory) }
    {
        let mut told = Vec::new(self.alloc);
        let arrays = &self.accepted.typed().code().arrays;
        match emit(&mut told, outcome, arrays, false) {
            Ok(()) => Ok(told),
            Err(_) => Err(Failure::NoMemory),
        }
    }
}
