//! Initial contents of arrays, from lists and from JSON; budgets, and names of scopes.

use crate::tests::{compare, lists_of, typed};
use std::alloc::Global;
use std::process::Abort;
use types::budget::Budget;
use types::child_number::ChildNumber;
use types::input::Input;
use types::input_error::InputError;
use types::path::Path;
use types::scope_id::ScopeId;

const NO_ARRAYS: &str = "main { }";

const BYTE: &str = "main { array a: byte[1]; }";

const BYTES: &str = "main { array a: byte[2]; }";

const INT: &str = "main { array a: int[1]; }";

const TWO: &str = "main { array b: byte[1]; array a: int[2]; }";

/// Compares the lists of an input, or the error, with the expected text.
fn compare_lists(
    rt: &impl Abort,
    alloc: Global,
    row: &str,
    input: Result<Input, InputError>,
    want: &str,
) {
    match input {
        Ok(input) => compare(rt, alloc, row, format_args!("{:?}", input.arrays), want),
        Err(error) => compare(rt, alloc, row, error, want),
    }
}

/// A program, a list for each array, and the input or its error.
const LISTS: &[(&str, &[&[i64]], &str)] = &[
    (NO_ARRAYS, &[], "[]"),
    (NO_ARRAYS, &[&[]], "N4"),
    (BYTE, &[&[255]], "[[255]]"),
    (BYTE, &[&[0]], "[[0]]"),
    (BYTE, &[&[256]], "N5 a"),
    (BYTE, &[&[-1]], "N5 a"),
    (BYTE, &[&[1, 2]], "N4 a"),
    (BYTE, &[&[1, 256]], "N4 a"),
    (BYTE, &[&[]], "N4 a"),
    (BYTE, &[], "N4"),
    (BYTE, &[&[1], &[2]], "N4"),
    (INT, &[&[256]], "[[256]]"),
    (
        INT,
        &[&[-9_223_372_036_854_775_807]],
        "[[-9223372036854775807]]",
    ),
    // ---- the first wrong array counts
    (TWO, &[&[1], &[2, -3]], "[[1], [2, -3]]"),
    (TWO, &[&[256], &[2]], "N5 b"),
    (TWO, &[&[1], &[2]], "N4 a"),
    (TWO, &[&[256]], "N4"),
];

#[test]
fn inputs_of_lists(rt: HostRuntime) {
    let alloc = rt.alloc();
    for (text, rows, want) in LISTS {
        let typed = typed(&rt, alloc, text);
        let plain = Input {
            arrays: lists_of(&rt, alloc, rows),
        };
        let fits = plain.fits(&typed);
        let input = Input::new(alloc, &typed, plain.arrays);
        assert!(rt; fits == input.is_ok(), "{rows:?} in {text}");
        compare_lists(&rt, alloc, text, input, want);
    }
}

/// A program, a JSON text, and the input or its error.
const TEXTS: &[(&str, &str, &str)] = &[
    (BYTES, "{}", "[[0, 0]]"),
    (BYTES, "{\"a\":[1,255]}", "[[1, 255]]"),
    (BYTES, " { \"a\" : [ 7 , 0 ] } ", "[[7, 0]]"),
    (NO_ARRAYS, "{}", "[]"),
    // ---- no JSON, or not an object
    (BYTE, "{", "N1"),
    (BYTE, "", "N1"),
    (BYTE, "{\"a\":[01]}", "N1"),
    (BYTE, "[]", "N2"),
    (BYTE, "[[1]]", "N2"),
    (BYTE, "1", "N2"),
    // ---- members that name no array: the first name in order
    (BYTE, "{\"z\":[]}", "N3 z"),
    (BYTE, "{\"z\":[],\"b\":1}", "N3 b"),
    (BYTE, "{\"a\":[256],\"b\":1}", "N3 b"),
    (NO_ARRAYS, "{\"a\":[]}", "N3 a"),
    // ---- not a list, or one of another length
    (BYTE, "{\"a\":[1,2]}", "N4 a"),
    (BYTE, "{\"a\":[]}", "N4 a"),
    (BYTE, "{\"a\":1}", "N4 a"),
    (BYTE, "{\"a\":null}", "N4 a"),
    (BYTE, "{\"a\":{}}", "N4 a"),
    (BYTE, "{\"a\":[1,256]}", "N4 a"),
    // ---- elements
    (BYTE, "{\"a\":[256]}", "N5 a"),
    (BYTE, "{\"a\":[-1]}", "N5 a"),
    (BYTE, "{\"a\":[1.0]}", "N5 a"),
    (BYTE, "{\"a\":[1e2]}", "N5 a"),
    (BYTE, "{\"a\":[[1]]}", "N5 a"),
    (BYTE, "{\"a\":[\"1\"]}", "N5 a"),
    (INT, "{\"a\":[256]}", "[[256]]"),
    (INT, "{\"a\":[1.0]}", "N5 a"),
    (
        INT,
        "{\"a\":[9223372036854775807]}",
        "[[9223372036854775807]]",
    ),
    (
        INT,
        "{\"a\":[-9223372036854775808]}",
        "[[-9223372036854775808]]",
    ),
    (INT, "{\"a\":[9223372036854775808]}", "N5 a"),
    (INT, "{\"a\":[-9223372036854775809]}", "N5 a"),
    // ---- arrays in the order of their declaration, not of their names
    (TWO, "{\"a\":[2,3]}", "[[0], [2, 3]]"),
    (TWO, "{\"a\":[2,3],\"b\":[1]}", "[[1], [2, 3]]"),
    (TWO, "{\"a\":[1],\"b\":[256]}", "N5 b"),
    (TWO, "{\"a\":[1],\"b\":[1]}", "N4 a"),
];

#[test]
fn inputs_of_json(rt: HostRuntime) {
    let alloc = rt.alloc();
    for (text, json, want) in TEXTS {
        let typed = typed(&rt, alloc, text);
        let input = Input::from_json(alloc, &typed, json);
        compare_lists(&rt, alloc, json, input, want);
    }
}

/// Steps and nest of valid budgets.
const BUDGETS: &[(u64, u64)] = &[(1, 0), (1_000_000_000, 1_000)];

/// Steps and nest of invalid budgets.
const NO_BUDGETS: &[(u64, u64)] = &[
    (0, 0),
    (1_000_000_001, 1_000),
    (1, 1_001),
    (4_294_967_297, 1),
    (1, 4_294_967_296),
];

/// Returns whether a budget has these numbers.
fn has_numbers(budget: Budget, steps: u64, nest: u64) -> bool {
    u64::from(budget.steps) == steps && u64::from(budget.nest) == nest
}

#[test]
fn budgets_are_within_their_limits(rt: HostRuntime) {
    for (steps, nest) in BUDGETS {
        let budget = Budget::new(*steps, *nest).expect(&rt, "a budget");
        assert!(rt;
            has_numbers(budget, *steps, *nest),
            "{steps} steps, nest {nest}"
        );
    }
    for (steps, nest) in NO_BUDGETS {
        assert!(rt;
            Budget::new(*steps, *nest).is_none(),
            "{steps} steps, nest {nest}"
        );
    }
}

#[test]
fn a_scope_has_its_owners_path_and_a_number(rt: HostRuntime) {
    let alloc = rt.alloc();
    let owner = Path::root(alloc)
        .child(ChildNumber::after(0))
        .expect(&rt, "memory");
    compare(&rt, alloc, "a scope", ScopeId { owner, number: 2 }, "0.1#2");
}
