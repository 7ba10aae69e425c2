//! Rows for what isn't specified of the libraries below the runs: a table for each area, with the
//! calls that its rows need.

mod completed_words;
mod copied_places;
mod drawn_numbers;
mod effects_of_programs;
mod failed_calls;
mod held_blocks;
mod held_places;
mod inputs;
mod layouts;
mod meetings_of_programs;
mod objects;
mod outputs;
mod read_texts;
mod scope_weights;
mod section_trees;
mod typing_rules;
mod written_files;

use std::alloc::Global;
use std::fmt::Display;
use std::process::Abort;
use syntax::parse;
use types::check::type_check;
use types::typed::Typed;

/// The result for a row without an error.
const RIGHT: &str = "right";

/// Compares the result for a row with the expected one.
fn compare<D: Display + Drop>(rt: &impl Abort, alloc: Global, row: &str, said: D, want: &str) {
    let said = format!(in alloc; "{said}").expect(rt, "memory");
    assert!(rt;
        said.as_str() == want,
        "at {row}\nsaid: {said}\nwant: {want}"
    );
}

/// Compares an error, or that there is none, with what the row expects.
fn compare_refusal<T: Drop, E: Display + Drop>(
    rt: &impl Abort,
    alloc: Global,
    row: &str,
    had: Result<T, E>,
    want: &str,
) {
    match had {
        Ok(_) => compare(rt, alloc, row, RIGHT, want),
        Err(error) => compare(rt, alloc, row, error, want),
    }
}

/// Returns a program of the language.
fn typed(rt: &impl Abort, alloc: Global, text: &str) -> Typed {
    let program = parse(alloc, text).expect(rt, "a text of the language");
    type_check(alloc, program).expect(rt, "a program")
}

/// Returns these numbers as lists.
fn lists_of(rt: &impl Abort, alloc: Global, rows: &[&[i64]]) -> Vec<Vec<i64>> {
    let mut lists = Vec::new(alloc);
    for row in rows {
        let list = Vec::from_slice(alloc, row).expect(rt, "memory");
        lists.push(list).expect(rt, "memory");
    }
    lists
}
