//! The statements that tasks run by flat code.

use crate::tests::{accepted, compare};
use plain_code::pieces::ProgramCode;
use std::alloc::Global;
use std::process::Abort;

/// A loop in an async.
const IN_ASYNC: &str = "main { var i = 0;
  while i < 3 { async { var j = 0; while j < 2 { j = j + 1; } } i = i + 1; } }";

/// A call of a procedure that spawns no task, and one of a procedure that does.
const CALLS: &str = "proc f(mut s: int) { s[0] = 1; }
  proc g(mut s: int) { finish { async { s[0] = 2; } } }
  main { array a: int[1]; f(a); g(a); }";

/// Procedures that call one another, of which one spawns tasks.
const RING: &str = "proc f(mut s: int) { g(s); }
  proc g(mut s: int) { f(s); finish { async { s[0] = 1; } } }
  main { array a: int[1]; f(a); }";

/// A loop in one branch, and a finish in the other.
const BESIDE: &str = "main { var i = 0;
  if i < 1 { while i < 3 { i = i + 1; } } else { finish { skip; } } }";

/// Programs, and the labels of the statements that have separate code.
const ROWS: &[(&str, &str)] = &[
    (
        "main { var i = 0; while i < 3 { i = i + 1; } print i; }",
        "[2]",
    ),
    (
        "main { var i = 0; if i < 1 { while i < 3 { i = i + 1; } } }",
        "[2]",
    ),
    ("main { var i = 0; if i < 1 { skip; } i = 1; }", "[]"),
    (IN_ASYNC, "[5]"),
    (CALLS, "[5]"),
    (RING, "[]"),
    (BESIDE, "[3]"),
];

#[test]
fn loops_and_calls_without_tasks_have_code(rt: HostRuntime) {
    let alloc = rt.alloc();
    for (text, want) in ROWS {
        let program = accepted(&rt, alloc, text);
        let code = ProgramCode::of(alloc, program.typed()).expect(&rt, "memory");
        let labels = labels_of(&rt, alloc, &code);
        compare(&rt, alloc, *text, format_args!("{labels:?}"), want);
    }
}

/// Returns the labels, up to 9, of the statements that have code.
fn labels_of(rt: &impl Abort, alloc: Global, code: &ProgramCode<'_>) -> Vec<u32> {
    let mut labels = Vec::new(alloc);
    for label in 0..10 {
        if code.piece(label).is_some() {
            labels.push(label).expect(rt, "memory");
        }
    }
    labels
}
