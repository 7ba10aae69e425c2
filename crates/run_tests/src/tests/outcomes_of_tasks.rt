//! Outcomes of parallel runs: the same as on one thread, on any number of workers.

use crate::tests::{FAULTS, TWO_ARRAYS, accepted, compare, one_thread_outcome};
use types::budget::Budget;
use types::input::Input;
use workers::gate::NoGate;
use workers::run::run;
use workers::settings::Settings;

const READERS: &str = "main { array a: byte[2]; a[1] = 4;
  finish { async { print a[1]; } async { print a[1]; } print a[1]; } a[0] = 5; print a[0], a[1]; }";

const OWNER: &str = "main { array a: int[1]; array b: int[1];
  async { finish { async { a[0] = 1; } } print a[0]; async { b[0] = 2; } } print 9; }";

/// Doubles each element, half by half, each left half in a task.
const DOUBLING: &str = "proc twice(mut s: int) {
  if len(s) <= 1 {
    if len(s) == 1 { s[0] = s[0] * 2; }
  } else {
    split s at len(s) / 2 as l, r {
      async { twice(l); }
      twice(r);
    }
  }
}
main { array a: int[1024]; finish { twice(a); } }";

/// More tasks in one scope than its first weight can be divided among.
const MANY: &str = "main { var k = 0;
  finish { while k < 80 { async { print k; async { print k + 100; } } k = k + 1; } } print k; }";

/// A program, the steps and the nest of its budget, and its outcome on zeros; empty if that is
/// long.
const ROWS: &[(&str, u64, u64, &str)] = &[
    (
        "main { }",
        1_000_000,
        100,
        "Ended { arrays: [], lines: [], faults: [] }",
    ),
    (
        TWO_ARRAYS,
        1_000_000,
        100,
        "Ended { arrays: [[7], [8]], lines: [[7, 8]], faults: [] }",
    ),
    (
        "main { finish { async { async { print 1; } print 2; } } print 3; }",
        1_000_000,
        100,
        "Ended { arrays: [], lines: [[1], [2], [3]], faults: [] }",
    ),
    (
        READERS,
        1_000_000,
        100,
        "Ended { arrays: [[5, 4]], lines: [[4], [4], [4], [5, 4]], faults: [] }",
    ),
    (
        OWNER,
        1_000_000,
        100,
        "Ended { arrays: [[1], [2]], lines: [[1], [9]], faults: [] }",
    ),
    (
        FAULTS,
        1_000_000,
        100,
        "Ended { arrays: [[1], [2]], lines: [], faults: [Fault { path: Path { turns: [ChildNumber { number: 1 }] }, label: 4, kind: Raised(4) }, Fault { path: Path { turns: [ChildNumber { number: 2 }, ChildNumber { number: 1 }] }, label: 9, kind: Raised(5) }] }",
    ),
    (DOUBLING, 1_000_000, 100, ""),
    (MANY, 1_000_000, 100, ""),
    // ---- a budget that is met, or exceeded by one
    (
        TWO_ARRAYS,
        4,
        1,
        "Ended { arrays: [[7], [8]], lines: [[7, 8]], faults: [] }",
    ),
    (TWO_ARRAYS, 3, 1, "Stopped"),
    (TWO_ARRAYS, 4, 0, "Stopped"),
    (
        "main { async { skip; } }",
        1,
        1,
        "Ended { arrays: [], lines: [], faults: [] }",
    ),
    (
        "main { finish { async { skip; skip; } } }",
        2,
        1,
        "Ended { arrays: [], lines: [], faults: [] }",
    ),
    (
        "main { finish { async { skip; skip; skip; } } }",
        2,
        1,
        "Stopped",
    ),
];

#[test]
fn tasks_on_threads_leave_what_one_thread_does(rt: HostRuntime) {
    let alloc = rt.alloc();
    for (text, steps, nest, want) in ROWS {
        let budget = Budget::new(*steps, *nest).expect(&rt, "a budget");
        let program = accepted(&rt, alloc, text);
        let input = Input::zeros(alloc, program.typed()).expect(&rt, "memory");
        let one_thread = one_thread_outcome(&rt, alloc, &program, budget);
        if !want.is_empty() {
            compare(&rt, alloc, *text, one_thread.as_str(), want);
        }
        for (workers, w0) in [(1, 1), (2, 4_294_967_296), (8, 2)] {
            let settings = Settings::new(budget, 1_048_576, w0, workers).expect(&rt, "settings");
            let told = run(&rt, alloc, &program, &input, settings, &NoGate, None);
            let (finished, _) = told.expect(&rt, "an outcome");
            let outcome = finished.outcome;
            compare(
                &rt,
                alloc,
                format_args!("{workers} workers, weight {w0}, of {text}"),
                format_args!("{outcome:?}"),
                one_thread.as_str(),
            );
        }
    }
}
