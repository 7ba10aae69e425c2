//! A way to run a program in parallel.

ghost use denote.Param.Send.{IsSync};
ghost use Rattle.std.specs.Prelude.{◌≡◌, ◌≤◌, IfErr, IfOk};
ghost use Rattle.command_line.specs.Requests.{settings as settings_of};
ghost use Rattle.commands.specs.Outcomes.{Fits, IsOutcomeOf};
ghost use Rattle.test_and_bench.specs.Runs.{TellsNoRun};

use command_line::request::{RunOptions, Spread};
use failures::failure::Failure;
use race_checker::accepted::Accepted;
use std::alloc::Global;
use std::sync::Wait;
use std::thread::Threads;
use types::input::Input;
use types::outcome::Outcome;

/// Runs programs in parallel. The threads that they run on aren't known here: `driver` has the
/// implementation that starts threads.
pub trait Runs {
    /// Returns the outcome of a program on an input, under these settings.
    fn outcome<R: Threads + Wait + Sync>(
        &self,
        rt: &R,
        alloc: Global,
        accepted: &Accepted,
        input: &Input,
        settings: RunOptions<'_>,
    ) -> Result<Outcome, Failure>
        requires shared { IsSync R.row }
        requires fits { Fits accepted.now.typed input.now }
        ensures outcome { IfOk result
            (IsOutcomeOf accepted.now.typed input.now settings.entry.budget) }
        ensures why { IfErr result (TellsNoRun (settings_of settings.entry)) };
}

/// Returns these settings with another number of workers.
pub fn on_workers<'w>(settings: RunOptions<'w>, workers: u64) -> RunOptions<'w>
    requires { (1 ≤ workers) × (workers ≤ 64) }
    ensures budget { (settings_of result).budget ≡ (settings_of settings.entry).budget }
    ensures tasks { (settings_of result).spread.tasks ≡ (settings_of settings.entry).spread.tasks }
    ensures workers { (settings_of result).spread.workers ≡ workers }
{
    let Spread { tasks, w0, .. } = settings.spread;
    match Spread::new(tasks, w0, workers) {
        Some(spread) => RunOptions { spread, ..settings },
        None => unreachable!(),
    }
}
