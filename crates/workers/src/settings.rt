//! Limits of a run, and its number of workers.

ghost use Rattle.std.specs.Prelude.{◌≡◌, ◌<◌, ◌≤◌, ◌⊎◌, ◌↔◌, IsNone, IfSome};
ghost use Rattle.trace_text.specs.declared.format.Format.TheVariants.{Two};

use events::worker_id::{MOST_WEIGHT, MOST_WORKERS};
use trace_text::format::Format;
use trace_text::header::Header;
use types::budget::{Budget, MOST_TASKS};

/// The limits of a run, and its number of workers.
#[derive(Clone, Copy, PartialEq, Eq, Debug)]
pub struct Settings {
    pub budget: Budget,
    /// The maximum number of tasks, including the root, 1 to 1,048,576.
    pub tasks: u64,
    /// The amount of weight that a scope issues at a time, 1 to 4,294,967,296.
    pub w0: u64,
    /// The number of workers, 1 to 64. The calling thread is the first of them.
    pub workers: u64,
    ghost tasks_in_range: { (1 ≤ tasks) × (tasks ≤ 1048576) },
    ghost w0_in_range: { (1 ≤ w0) × (w0 ≤ 4294967296) },
    ghost workers_in_range: { (1 ≤ workers) × (workers ≤ 64) },
}

impl Settings {
    /// Returns settings with these numbers, or None if one of them is out of range.
    pub fn new(budget: Budget, tasks: u64, w0: u64, workers: u64) -> Option<Settings>
        ensures none { IsNone result ↔ ((tasks < 1) ⊎ (1048576 < tasks) ⊎ (w0 < 1)
            ⊎ (4294967296 < w0) ⊎ (workers < 1) ⊎ (64 < workers)) }
        ensures budget { IfSome result (λ s. s.budget ≡ budget) }
        ensures tasks { IfSome result (λ s. s.tasks ≡ tasks) }
        ensures w0 { IfSome result (λ s. s.w0 ≡ w0) }
        ensures workers { IfSome result (λ s. s.workers ≡ workers) }
    {
        if tasks < 1 || tasks > MOST_TASKS || w0 < 1 || w0 > MOST_WEIGHT {
            return None;
        }
        if workers < 1 || workers > MOST_WORKERS as u64 {
            return None;
        }
        Some(Settings {
            budget,
            tasks,
            w0,
            workers,
        })
    }

    /// Returns the default settings: 65,536 tasks, a weight of 1,048,576, 4 workers.
    pub fn usual(budget: Budget) -> Settings
        ensures budget { result.budget ≡ budget }
        ensures tasks { result.tasks ≡ 65536 }
        ensures w0 { result.w0 ≡ 1048576 }
        ensures workers { result.workers ≡ 4 }
    {
        Settings {
            budget,
            tasks: 65_536,
            w0: 1_048_576,
            workers: 4,
        }
    }
}

/// Returns the header of a trace for a run with these settings.
pub fn header_of(settings: Settings) -> Header
    ensures format { result.format ≡ Two }
    ensures budget { result.budget ≡ settings.budget }
    ensures w0 { result.w0 ≡ settings.w0 }
    ensures workers { result.workers ≡ settings.workers }
{
    let workers = settings.workers as u32;
    match Header::new(Format::Two, settings.budget, settings.w0, workers) {
        Some(header) => header,
        None => unreachable!(),
    }
}
