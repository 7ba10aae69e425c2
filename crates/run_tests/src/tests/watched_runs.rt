//! Runs with a watch.

use crate::tests::{accepted, compare};
use serial_run::serial_watched;
use statement_steps::watch::Watch;
use types::budget::Budget;
use types::input::Input;

/// A watch that stores its notifications.
#[derive(Drop)]
struct Seen {
    steps: Vec<u64>,
}

impl Watch for Seen {
    ghost Told = { λ _ _ _. Unit {0} };

    fn look(&mut self, steps: u64) {
        let _ = self.steps.push(steps);
    }

    ghost told_nothing = { λ _. tt };

    ghost told_more = { λ _ _ _ _ _ _ _. tt };
}

/// A loop with two steps per iteration.
const COUNTING: &str = "main { var i = 0; while i < 1000000 { i = i + 1; } }";

/// A loop with a finish and an async in each iteration.
const FINISHING: &str =
    "main { var i = 0; while i < 40000 { finish { async { skip; } } i = i + 1; } }";

/// The watch is notified at the end, and after every 16 turns of the machine if 65,536 steps were
/// taken since the last time. A loop with two steps per iteration is left at the end of an
/// iteration, after 65,537 steps, and continues with one more step. In the other program five steps
/// take four turns of the machine: the finish starts, the async starts, its body ends, and the
/// finish ends.
/// body ends, and the finish ends.
const ROWS: &[(&str, &str)] = &[
    (COUNTING, "[1048608, 2000002]"),
    (FINISHING, "[65540, 131080, 196620, 200002]"),
    ("main { print 1; }", "[1]"),
];

#[test]
fn a_watched_run_tells_its_steps(rt: HostRuntime) {
    let alloc = rt.alloc();
    let budget = Budget {
        steps: 4_000_000,
        nest: 100,
    };
    for (text, want) in ROWS {
        let program = accepted(&rt, alloc, text);
        let input = Input::zeros(alloc, program.typed()).expect(&rt, "memory");
        let mut seen = Seen {
            steps: Vec::new(alloc),
        };
        let outcome = serial_watched(alloc, program.typed(), &input, budget, &mut seen);
        assert!(rt; outcome.is_ok());
        compare(&rt, alloc, *text, format_args!("{:?}", seen.steps), want);
    }
}
