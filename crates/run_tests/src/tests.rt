//! Rows for what isn't specified of runs: a table for each area, with the calls that its rows need.

mod costs;
mod drawn;
mod held_scopes;
mod logged_runs;
mod numbers;
mod outcomes_of_tasks;
mod pieces;
mod progress_lines;
mod refused_calls;
mod refused_runs;
mod runs_by_choices;
mod settled_results;
mod threads;
mod trace_texts;
mod watched_runs;
mod worlds;

use race_checker::accepted::Accepted;
use race_checker::check::check;
use std::alloc::Global;
use std::fmt::Display;
use std::process::Abort;
use std::thread::Threads;
use syntax::parse;
use types::budget::Budget;
use types::check::type_check;
use types::child_number::ChildNumber;
use types::input::Input;
use types::path::Path;

const TWO_ARRAYS: &str = "main {
  array a: int[1];
  array b: int[1];
  finish {
    async { a[0] = 7; }
    b[0] = 8;
  }
  print a[0], b[0];
}";

/// A child of the root ends with a fault, and so does a child of the other child, in a finish.
const FAULTS: &str = "main { array a: int[1]; array b: int[1];
  finish { async { a[0] = 1; fault 4; } async { finish { async { b[0] = 2; fault 5; } } print 1; } }
  print 2; }";

/// Compares the result for a row with the expected one.
fn compare<N: Display + Drop, D: Display + Drop>(
    rt: &impl Abort,
    alloc: Global,
    row: N,
    said: D,
    want: &str,
) {
    let said = format!(in alloc; "{said}").expect(rt, "memory");
    assert!(rt;
        said.as_str() == want,
        "at {row}\nsaid: {said}\nwant: {want}"
    );
}

/// Returns a path.
fn path(rt: &impl Abort, alloc: Global, turns: &[u32]) -> Path {
    let mut path = Path::root(alloc);
    for turn in turns {
        let number = ChildNumber::new(*turn).expect(rt, "a child's number");
        path.turns.push(number).expect(rt, "memory");
    }
    path
}

/// Returns a program without a race.
fn accepted(rt: &(impl Abort + Threads + Sync), alloc: Global, text: &str) -> Accepted {
    let program = parse(alloc, text).expect(rt, "a text of the language");
    let typed = type_check(alloc, program).expect(rt, "a program");
    match check(rt, alloc, typed) {
        Ok(accepted) => accepted,
        Err(_) => panic!(rt; "a race in {text}"),
    }
}

/// Returns the text of the one-thread outcome of a program on zeros.
fn one_thread_outcome(
    rt: &impl Abort,
    alloc: Global,
    program: &Accepted,
    budget: Budget,
) -> String {
    let input = Input::zeros(alloc, program.typed()).expect(rt, "memory");
    let outcome = serial_run::serial(alloc, program.typed(), &input, budget).expect(rt, "memory");
    format!(in alloc; "{outcome:?}").expect(rt, "memory")
}
