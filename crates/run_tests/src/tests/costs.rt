//! Costs of runs: numbers that are known from what the programs do, and those of the same programs'
//! traces.

use crate::tests::numbers::{DOUBLING, OUTLIVED, walked};
use crate::tests::{accepted, compare};
use cost::cost::{Costed, measure};
use cost::text::cost_text;
use race_checker::accepted::Accepted;
use std::alloc::Global;
use std::process::Abort;
use types::budget::Budget;
use types::input::Input;
use types::outcome::Outcome;

/// The tasks of an inner finish are waited for there, and the one of the outer finish at its end.
const NESTED: &str = "main {
  finish {
    async { skip; skip; skip; skip; }
    finish { async { skip; skip; } skip; }
    skip;
  }
}";

/// Iterations of a loop, one after the other, and a task for each, all in parallel.
const TURNS: &str = "main {
  var i = 0;
  while i < 3 { async { skip; } i = i + 1; }
}";

/// Programs, and the costs of their runs on zeros.
const ROWS: [(&str, &str); 6] = [
    (
        "main { }",
        "work: 0\nspan: 0\nparallelism: -\ntasks: 1\ndeepest nest: 0\nfinishes: 1\ncopied places: 0\nsteps per task: 0.00\ntasks under 1000 steps: 1\n",
    ),
    (
        "main { finish { async { skip; } skip; } skip; }",
        "work: 5\nspan: 4\nparallelism: 1.25\ntasks: 2\ndeepest nest: 1\nfinishes: 2\ncopied places: 0\nsteps per task: 2.50\ntasks under 1000 steps: 2\n",
    ),
    (
        OUTLIVED,
        "work: 8\nspan: 7\nparallelism: 1.14\ntasks: 3\ndeepest nest: 2\nfinishes: 2\ncopied places: 0\nsteps per task: 2.66\ntasks under 1000 steps: 3\n",
    ),
    (
        NESTED,
        "work: 12\nspan: 7\nparallelism: 1.71\ntasks: 3\ndeepest nest: 1\nfinishes: 3\ncopied places: 0\nsteps per task: 4.00\ntasks under 1000 steps: 3\n",
    ),
    (
        TURNS,
        "work: 14\nspan: 11\nparallelism: 1.27\ntasks: 4\ndeepest nest: 1\nfinishes: 1\ncopied places: 0\nsteps per task: 3.50\ntasks under 1000 steps: 4\n",
    ),
    (
        DOUBLING,
        "work: 61\nspan: 17\nparallelism: 3.58\ntasks: 8\ndeepest nest: 3\nfinishes: 2\ncopied places: 24\nsteps per task: 7.62\ntasks under 1000 steps: 8\n",
    ),
];

/// Runs a program on zeros.
fn run(rt: &impl Abort, alloc: Global, program: &Accepted, budget: Budget) -> Costed {
    let input = Input::zeros(alloc, program.typed()).expect(rt, "memory");
    measure(alloc, program.typed(), &input, budget).expect(rt, "memory")
}

#[test]
fn runs_cost_what_their_steps_say(rt: HostRuntime) {
    let alloc = rt.alloc();
    for (text, want) in ROWS {
        let costed = run(&rt, alloc, &accepted(&rt, alloc, text), Budget::usual());
        let told = cost_text(alloc, &costed.cost).expect(&rt, "memory");
        compare(&rt, alloc, text, told, want);
    }
}

#[test]
fn every_order_of_events_has_the_same_numbers(rt: HostRuntime) {
    let alloc = rt.alloc();
    for (text, _) in ROWS {
        let program = accepted(&rt, alloc, text);
        let cost = run(&rt, alloc, &program, Budget::usual()).cost;
        for seed in 0..20u32 {
            let walked = walked(&rt, alloc, &program, Budget::usual(), seed);
            assert!(&rt; walked.steps == cost.work, "work of {text}, walk {seed}");
            assert!(&rt; walked.span == cost.span, "span of {text}, walk {seed}");
            assert!(&rt; walked.tasks == cost.tasks, "tasks of {text}, walk {seed}");
            assert!(&rt;
                walked.deepest_nest == cost.deepest_nest,
                "nest of {text}, walk {seed}"
            );
        }
    }
}

#[test]
fn a_stopped_run_costs_what_it_did(rt: HostRuntime) {
    let alloc = rt.alloc();
    let endless = accepted(
        &rt,
        alloc,
        "main { finish { async { while true { skip; } } print 1; } }",
    );
    let budget = Budget::new(10, 1).expect(&rt, "a budget");
    let costed = run(&rt, alloc, &endless, budget);
    assert!(&rt; matches!(costed.outcome, Outcome::Stopped), "it stops");
    assert!(&rt;
        costed.cost.work == 12 && costed.cost.span == 12,
        "it costs 12 steps"
    );
}
