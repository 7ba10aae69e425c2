//! Results of runs over one shared store, by given choices.

use crate::tests::{TWO_ARRAYS, accepted, compare};
use step_trees::explore::explore;
use types::input::Input;

const THREE_FAULTS: &str =
    "main { finish { async { fault 1; } async { fault 2; } fault 3; } print 9; }";

const SCALAR: &str = "main { var x = 0; finish { x = 1; } print x; }";

const SEVEN_EIGHT: &str = "Ended(Ended { arrays: [[7], [8]], lines: [[7, 8]], faults: [] })";

/// A program, choices, and the result.
const ROWS: &[(&str, &[u32], &str)] = &[
    (TWO_ARRAYS, &[0, 0, 0, 0, 0], SEVEN_EIGHT),
    (TWO_ARRAYS, &[0, 0, 1, 0, 0], SEVEN_EIGHT),
    (TWO_ARRAYS, &[], "Open { leaves: 1 }"),
    (TWO_ARRAYS, &[0, 0], "Open { leaves: 2 }"),
    (TWO_ARRAYS, &[0, 0, 2], "NoSuchChoice(2)"),
    (TWO_ARRAYS, &[0, 0, 0, 0, 0, 0], "NoSuchChoice(5)"),
    (
        THREE_FAULTS,
        &[0, 0, 1, 2, 1, 0],
        "Ended(Ended { arrays: [], lines: [], faults: [Fault { path: Path { turns: [ChildNumber { number: 1 }] }, label: 3, kind: Raised(1) }, Fault { path: Path { turns: [ChildNumber { number: 2 }] }, label: 5, kind: Raised(2) }, Fault { path: Path { turns: [] }, label: 6, kind: Raised(3) }] })",
    ),
    (
        SCALAR,
        &[0, 0, 0, 0],
        "Ended(Ended { arrays: [], lines: [[1]], faults: [] })",
    ),
];

#[test]
fn choices_lead_where_they_say(rt: HostRuntime) {
    let alloc = rt.alloc();
    for (text, choices, want) in ROWS {
        let program = accepted(&rt, alloc, text);
        let input = Input::zeros(alloc, program.typed()).expect(&rt, "memory");
        let explored = explore(alloc, &program, &input, choices).expect(&rt, "memory");
        compare(&rt, alloc, *text, format_args!("{explored:?}"), want);
    }
}
