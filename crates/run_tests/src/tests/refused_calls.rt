//! Calls that run out of memory. Such a call may only report that, and the same call has the right
//! answer once there is memory. Here nothing is refused: `tests/refused_memory.sh` runs these tests
//! and refuses each of their requests in turn.

use crate::tests::TWO_ARRAYS;
use effects::summaries::{Summaries, summarize};
use parallel_relation::pairs::{Pairs, may_run_together};
use race_checker::accepted::Accepted;
use race_checker::check::{Refused, check};
use std::alloc::Global;
use std::io::Eprint;
use std::process::Abort;
use std::thread::Threads;
use syntax::error::SyntaxError;
use syntax::parse;
use syntax_tree::tree::Program;
use types::check::type_check;
use types::error::TypeError;
use types::typed::Typed;

/// The number of times that a call is made that runs out of memory.
pub(crate) const CALLS: u32 = 3;

/// The labels of the statements that write the two arrays: the only ones that may run together.
const WRITES: (u32, u32) = (3, 4);

/// A task reads an element that its parent writes.
const RACE: &str = "main { array a: int[1]; array b: int[1];
  finish { async { b[0] = a[0]; } a[0] = 1; } print b[0]; }";

/// The labels of the read and of the write.
const RACES: (u32, u32) = (3, 4);

/// Reports that a call ran out of memory.
pub(crate) fn report(rt: &impl Eprint, call: &str) {
    let _ = eprintln!(rt; "out of memory: {call}");
}

/// Parses a text, or returns None if memory runs out each time.
fn parsed(rt: &(impl Abort + Eprint), alloc: Global, text: &str) -> Option<Program> {
    for _ in 0..CALLS {
        match parse(alloc, text) {
            Ok(program) => return Some(program),
            Err(SyntaxError::OutOfMemory) => report(rt, "parse"),
            Err(error) => panic!(rt; "{error} in {text}"),
        }
    }
    None
}

/// Checks the types of a text.
fn typed(rt: &(impl Abort + Eprint), alloc: Global, text: &str) -> Option<Typed> {
    for _ in 0..CALLS {
        let program = parsed(rt, alloc, text)?;
        match type_check(alloc, program) {
            Ok(typed) => return Some(typed),
            Err(TypeError::OutOfMemory) => report(rt, "type_check"),
            Err(error) => panic!(rt; "{error} in {text}"),
        }
    }
    None
}

/// Checks a text that has no race.
pub(crate) fn accepted_again<R: Abort + Eprint + Threads + Sync>(
    rt: &R,
    alloc: Global,
    text: &str,
) -> Option<Accepted> {
    for _ in 0..CALLS {
        let typed = typed(rt, alloc, text)?;
        match check(rt, alloc, typed) {
            Ok(accepted) => return Some(accepted),
            Err(Refused::OutOfMemory) => report(rt, "check"),
            Err(Refused::Race { .. }) => panic!(rt; "a race in {text}"),
        }
    }
    None
}

/// Returns the pairs of labels that may run together.
fn pairs(rt: &impl Eprint, alloc: Global, typed: &Typed) -> Option<Pairs> {
    for _ in 0..CALLS {
        match summarize(alloc, typed) {
            Ok(summaries) => match may_run_together(alloc, typed, &summaries) {
                Ok(pairs) => return Some(pairs),
                Err(_) => report(rt, "may_run_together"),
            },
            Err(_) => report(rt, "summarize"),
        }
    }
    None
}

#[test]
fn pairs_are_found_again(rt: HostRuntime) {
    let alloc = rt.alloc();
    let Some(typed) = typed(&rt, alloc, TWO_ARRAYS) else {
        return;
    };
    let Some(pairs) = pairs(&rt, alloc, &typed) else {
        return;
    };
    for one in 1..6 {
        for other in one..6 {
            let may = pairs.has(one, other);
            assert!(rt; may == ((one, other) == WRITES), "{one} and {other}: {may}");
        }
    }
}

#[test]
fn a_race_is_found_again(rt: HostRuntime) {
    let alloc = rt.alloc();
    for _ in 0..CALLS {
        let Some(typed) = typed(&rt, alloc, RACE) else {
            return;
        };
        match check(&rt, alloc, typed) {
            Ok(_) => panic!(&rt; "no race in {RACE}"),
            Err(Refused::OutOfMemory) => report(&rt, "check"),
            Err(Refused::Race { race, .. }) => {
                let labels = (race.first.label, race.second.label);
                assert!(rt; labels == RACES, "a race of {labels:?}");
                return;
            }
        }
    }
}
