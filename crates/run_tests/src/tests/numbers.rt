//! Numbers of runs: steps and span are the known ones, on any number of workers.

use crate::tests::logged_runs::logged;
use crate::tests::worlds::{HALVES, NESTED};
use crate::tests::{FAULTS, accepted, compare};
use event_worlds::job::WeightedJob;
use event_worlds::walk::random_walk;
use race_checker::accepted::Accepted;
use std::alloc::Global;
use std::process::Abort;
use std::sync::Wait;
use std::thread::Threads;
use trace_numbers::summary::{TraceSummary, summarize};
use trace_numbers::text::summary_text;
use types::budget::Budget;
use types::input::Input;
use workers::gate::NoGate;
use workers::settings::Settings;

/// Doubles each element, half by half.
pub const DOUBLING: &str = "proc twice(mut s: int) {
  if len(s) <= 1 {
    if len(s) == 1 { s[0] = s[0] * 2; }
  } else {
    split s at len(s) / 2 as l, r { async { twice(l); } twice(r); }
  }
}
main { array a: int[8]; finish { twice(a); } }";

/// Its numbers if one worker does everything.
const DONE_BY_ONE: &str = "tasks: 8
steps: 61
span: 17
parallelism: 3.58
steals: 0
replenishments: 0
deepest nest: 3
most live tasks: 4
steps of worker 0: 61
";

/// A task whose child may finish after it, and a statement after a finish within a finish.
pub const OUTLIVED: &str = "main { finish { async { async { skip; skip; skip; } } skip; } skip; }";

/// Programs, and the first lines of the numbers of their runs.
const ROWS: [(&str, &str); 4] = [
    ("main { }", "tasks: 1\nsteps: 0\nspan: 0\nparallelism: -\n"),
    (
        "main { finish { async { skip; } skip; } skip; }",
        "tasks: 2\nsteps: 5\nspan: 4\nparallelism: 1.25\n",
    ),
    (OUTLIVED, "tasks: 3\nsteps: 8\nspan: 7\nparallelism: 1.14\n"),
    (
        DOUBLING,
        "tasks: 8\nsteps: 61\nspan: 17\nparallelism: 3.58\n",
    ),
];

/// Programs whose runs all end within 60 steps per task.
const ENDING: [&str; 4] = [DOUBLING, FAULTS, HALVES, NESTED];

/// Returns the numbers of a run on zeros.
fn told(
    rt: &(impl Abort + Threads + Wait + Sync),
    alloc: Global,
    text: &str,
    workers: u32,
) -> String {
    let program = accepted(rt, alloc, text);
    let input = Input::zeros(alloc, program.typed()).expect(rt, "memory");
    let settings = Settings::new(Budget::usual(), 64, 8, u64::from(workers)).expect(rt, "settings");
    let (_, log) = logged(rt, alloc, (&program, &input), settings, &NoGate);
    let summary = summarize(alloc, log.events()).expect(rt, "memory");
    summary_text(alloc, &summary, workers).expect(rt, "memory")
}

#[test]
fn steps_and_span_are_those_of_the_program(rt: HostRuntime) {
    let alloc = rt.alloc();
    for (text, want) in ROWS {
        for workers in [1u32, 2, 8, 64] {
            let told = told(&rt, alloc, text, workers);
            let first = told.as_str().get(..want.len()).unwrap_or("");
            compare(&rt, alloc, text, first, want);
        }
    }
}

#[test]
fn one_worker_does_all(rt: HostRuntime) {
    let alloc = rt.alloc();
    let told = told(&rt, alloc, DOUBLING, 1);
    compare(&rt, alloc, DOUBLING, told.as_str(), DONE_BY_ONE);
}

/// Returns the numbers of a random list of events that a run on zeros can have, drawn with a seed.
pub fn walked(
    rt: &impl Abort,
    alloc: Global,
    program: &Accepted,
    budget: Budget,
    seed: u32,
) -> TraceSummary {
    let input = Input::zeros(alloc, program.typed()).expect(rt, "memory");
    let job = WeightedJob::new(alloc, program, &input, budget, u64::from(seed % 9 + 1));
    let job = job.expect(rt, "a weight");
    let workers = seed % 64 + 1;
    let walk = random_walk(job, workers, u64::from(seed), 1_000_000).expect(rt, "memory");
    summarize(alloc, &walk.events).expect(rt, "memory")
}

#[test]
fn walks_come_to_one_work_and_one_span(rt: HostRuntime) {
    let alloc = rt.alloc();
    let budget = Budget::new(60, 100).expect(&rt, "a budget");
    let settings = Settings::new(budget, 64, 8, 1).expect(&rt, "settings");
    for text in ENDING {
        let program = accepted(&rt, alloc, text);
        let input = Input::zeros(alloc, program.typed()).expect(&rt, "memory");
        let (_, log) = logged(&rt, alloc, (&program, &input), settings, &NoGate);
        let want = summarize(alloc, log.events()).expect(&rt, "memory");
        for seed in 0..50u32 {
            let told = walked(&rt, alloc, &program, budget, seed);
            assert!(rt; told.steps == want.steps, "work of {text}, walk {seed}");
            assert!(rt; told.span == want.span, "span of {text}, walk {seed}");
        }
    }
}
