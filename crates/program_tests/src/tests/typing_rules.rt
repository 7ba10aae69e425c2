//! The typing rules, each with programs that keep it and programs that break only it.
//!
//! The expected result of a program that breaks no rule is that it is right. For a program that
//! breaks a rule it is the rule's code, and the label if it is broken in a statement.

use crate::tests::{RIGHT, compare, compare_refusal};
use std::alloc::Global;
use std::process::Abort;
use syntax::parse;
use types::check::type_check;

/// A program, and the expected result.
type Verdict = (&'static str, &'static str);

/// Y1: names and procedures that aren't in scope.
const SCOPE: &[Verdict] = &[
    ("main { var x = 1; print x; }", RIGHT),
    ("main { array a: int[1]; print a[0], len(a); }", RIGHT),
    ("proc f(n: int) { print n; } main { f(1); }", RIGHT),
    ("main { g(); } proc g() { }", "S2 at 1:15"),
    ("proc f() { g(); } proc g() { f(); } main { g(); }", RIGHT),
    (
        "main { array a: int[2]; split a at 1 as l, r { l[0] = len(r); a[1] = 2; } }",
        RIGHT,
    ),
    ("main { print x; }", "Y1 at label 1"),
    ("main { x = 1; }", "Y1 at label 1"),
    ("main { var x = x; }", "Y1 at label 1"),
    ("main { skip; a[0] = 1; }", "Y1 at label 2"),
    ("main { array a: int[1]; f(a); }", "Y1 at label 1"),
    ("main { f(); }", "Y1 at label 1"),
    ("proc f(mut s: int) { } main { f(a); }", "Y1 at label 1"),
    (
        "main { array a: int[2]; parts a by 1 as p, i { p[0] = i; a[0] = len(p); i = 2; } }",
        RIGHT,
    ),
    ("main { split a at 0 as l, r { } }", "Y1 at label 1"),
    ("main { parts a by 1 as p, i { } }", "Y1 at label 1"),
    (
        "main { array a: int[1]; parts a by i as p, i { } }",
        "Y1 at label 1",
    ),
    (
        "main { array a: int[1]; parts a by len(p) as p, i { } }",
        "Y1 at label 1",
    ),
    (
        "main { array a: int[1]; parts a by 1 as p, i { } print i; }",
        "Y1 at label 2",
    ),
    (
        "main { array a: int[1]; parts a by 1 as p, i { } p[0] = 1; }",
        "Y1 at label 2",
    ),
    ("main { print len(a); }", "Y1 at label 1"),
    ("proc f(n: int) { } main { print n; }", "Y1 at label 1"),
    ("main { array a: int[1]; } ", RIGHT),
    (
        "proc f() { a[0] = 1; } main { array a: int[1]; f(); }",
        "Y1 at label 1",
    ),
    // ---- a name ends with its block
    ("main { if true { var x = 1; } print x; }", "Y1 at label 3"),
    (
        "main { if true { } else { var x = 1; } print x; }",
        "Y1 at label 3",
    ),
    (
        "main { if true { var x = 1; } else { print x; } }",
        "Y1 at label 3",
    ),
    (
        "main { while false { var x = 1; } print x; }",
        "Y1 at label 3",
    ),
    ("main { async { var x = 1; } print x; }", "Y1 at label 3"),
    ("main { finish { var x = 1; } print x; }", "Y1 at label 3"),
    (
        "main { array a: int[1]; split a at 0 as l, r { } l[0] = 1; }",
        "Y1 at label 2",
    ),
    (
        "main { array a: int[1]; split a at 0 as l, r { } r[0] = 1; }",
        "Y1 at label 2",
    ),
];

/// Y2: names that are declared while they are in scope.
const DECLARED: &[Verdict] = &[
    ("main { if true { var x = 1; } var x = 2; }", RIGHT),
    ("main { if true { var x = 1; } else { var x = 2; } }", RIGHT),
    (
        "main { while false { var x = 1; } finish { var x = 2; } async { var x = 3; } }",
        RIGHT,
    ),
    (
        "proc f(n: int) { } proc g(n: int) { } main { var n = 1; }",
        RIGHT,
    ),
    ("proc f() { } main { var f = 1; f(); }", RIGHT),
    (
        "main { array a: int[1]; split a at 0 as l, r { } split a at 0 as l, r { } }",
        RIGHT,
    ),
    ("main { var x = 1; var x = 2; }", "Y2 at label 2"),
    ("main { array a: int[1]; array a: byte[1]; }", "Y2"),
    ("main { array a: int[1]; var a = 1; }", "Y2 at label 1"),
    ("proc f(n: int, n: int) { } main { }", "Y2"),
    ("proc f(mut n: int, n: int) { } main { }", "Y2"),
    ("proc f() { } proc f() { } main { }", "Y2"),
    ("proc f(n: int) { var n = 1; } main { }", "Y2 at label 1"),
    (
        "main { array a: int[1]; parts a by 1 as p, p { } }",
        "Y2 at label 1",
    ),
    (
        "main { array a: int[1]; parts a by 1 as a, i { } }",
        "Y2 at label 1",
    ),
    (
        "main { array a: int[1]; var i = 0; parts a by 1 as p, i { } }",
        "Y2 at label 2",
    ),
    (
        "main { array a: int[1]; split a at 0 as l, l { } }",
        "Y2 at label 1",
    ),
    (
        "main { array a: int[1]; split a at 0 as a, r { } }",
        "Y2 at label 1",
    ),
    // ---- in each kind of block
    (
        "main { var x = 1; if true { var x = 2; } }",
        "Y2 at label 3",
    ),
    (
        "main { var x = 1; if true { } else { var x = 2; } }",
        "Y2 at label 3",
    ),
    (
        "main { var x = 1; while false { var x = 2; } }",
        "Y2 at label 3",
    ),
    ("main { var x = 1; async { var x = 2; } }", "Y2 at label 3"),
    ("main { var x = 1; finish { var x = 2; } }", "Y2 at label 3"),
    (
        "main { array a: int[1]; split a at 0 as l, r { var l = 2; } }",
        "Y2 at label 2",
    ),
];

/// Y3: numbers, booleans and sections where another kind is expected.
const KINDS: &[Verdict] = &[
    ("main { if 1 < 2 and not true or false { } }", RIGHT),
    ("main { var x = (1 + 2) * -3; print x % 2; }", RIGHT),
    ("main { while not (1 == 2) { fault 1; } }", RIGHT),
    ("main { array a: int[2]; a[a[0]] = len(a) - 1; }", RIGHT),
    ("proc f(n: int) { } main { f(1 + 2); }", RIGHT),
    ("main { var x = true; }", "Y3 at label 1"),
    ("main { var x = 1 < 2; }", "Y3 at label 1"),
    ("main { print not true; }", "Y3 at label 1"),
    ("main { if 1 { } }", "Y3 at label 1"),
    ("main { while 1 + 2 { } }", "Y3 at label 1"),
    ("main { if true == false { } }", "Y3 at label 1"),
    ("main { if 1 and true { } }", "Y3 at label 1"),
    ("main { if not 1 { } }", "Y3 at label 1"),
    ("main { array a: int[1]; print a; }", "Y3 at label 1"),
    ("main { array a: int[1]; a = 1; }", "Y3 at label 1"),
    ("main { var x = 1; x[0] = 1; }", "Y3 at label 2"),
    ("main { var x = 1; print len(x); }", "Y3 at label 2"),
    (
        "main { var x = 1; parts x by 1 as p, i { } }",
        "Y3 at label 2",
    ),
    (
        "main { array a: int[1]; parts a by true as p, i { } }",
        "Y3 at label 1",
    ),
    (
        "main { var x = 1; split x at 0 as l, r { } }",
        "Y3 at label 2",
    ),
    ("main { array a: int[1]; a[true] = 1; }", "Y3 at label 1"),
    ("main { fault false; }", "Y3 at label 1"),
    ("proc f(n: int) { } main { f(true); }", "Y3 at label 1"),
];

/// Y4: calls whose arguments don't match the parameters.
const ARGUMENTS: &[Verdict] = &[
    ("proc f() { } main { f(); }", RIGHT),
    ("proc f(n: int, m: int) { } main { f(1, 2); }", RIGHT),
    (
        "proc f(mut s: int, read t: byte) { } main { array a: int[1]; array b: byte[1]; f(a, b); }",
        RIGHT,
    ),
    (
        "proc f(read s: int) { } main { array a: int[1]; split a at 0 as l, r { f(l); f(r); } }",
        RIGHT,
    ),
    ("proc f() { } main { f(1); }", "Y4 at label 1"),
    ("proc f(n: int) { } main { f(); }", "Y4 at label 1"),
    ("proc f(n: int) { } main { f(1, 2); }", "Y4 at label 1"),
    ("proc f(read s: int) { } main { f(1); }", "Y4 at label 1"),
    (
        "proc f(read s: int) { } main { array a: byte[1]; f(a); }",
        "Y4 at label 1",
    ),
    (
        "proc f(mut s: byte) { } main { array a: int[1]; f(a); }",
        "Y4 at label 1",
    ),
    (
        "proc f(read s: int) { } main { array a: int[1]; f(a[0]); }",
        "Y4 at label 1",
    ),
    (
        "proc f(read s: int) { } main { array a: int[1]; f((a)); }",
        "Y4 at label 1",
    ),
    (
        "proc f(read s: int) { } main { var x = 1; f(x); }",
        "Y4 at label 2",
    ),
];

/// Y5: scalars that are assigned in an async body outside of which they are declared.
const ASSIGNED: &[Verdict] = &[
    ("main { async { var x = 1; x = 2; } }", RIGHT),
    ("main { var x = 1; async { print x; } x = 2; }", RIGHT),
    ("main { var x = 1; finish { x = 2; } }", RIGHT),
    (
        "main { async { var x = 1; if true { x = 2; } while false { x = 3; } finish { x = 4; } } }",
        RIGHT,
    ),
    ("proc f(n: int) { n = 2; } main { async { f(1); } }", RIGHT),
    ("main { var x = 1; async { x = 2; } }", "Y5 at label 3"),
    (
        "main { async { var x = 1; async { x = 2; } } }",
        "Y5 at label 4",
    ),
    (
        "main { var x = 1; async { finish { x = 2; } } }",
        "Y5 at label 4",
    ),
    (
        "main { var x = 1; async { if true { x = 2; } } }",
        "Y5 at label 4",
    ),
    (
        "main { var x = 1; async { while false { x = 2; } } }",
        "Y5 at label 4",
    ),
    (
        "proc f(n: int) { async { n = 2; } } main { }",
        "Y5 at label 2",
    ),
    (
        "main { var x = 1; finish { async { x = 2; } } }",
        "Y5 at label 4",
    ),
    (
        "main { array a: int[1]; parts a by 1 as p, i { async { i = 1; } } }",
        "Y5 at label 3",
    ),
    (
        "main { array a: int[1]; var x = 1; async { split a at 0 as l, r { x = 2; } } }",
        "Y5 at label 4",
    ),
];

/// Y6: `read` sections, or sides of them, that are written or passed as `mut`.
const WRITTEN: &[Verdict] = &[
    ("proc f(mut s: int) { s[0] = 1; } main { }", RIGHT),
    ("proc f(read s: int) { print s[0]; } main { }", RIGHT),
    (
        "proc f(mut s: int) { split s at 0 as l, r { r[0] = 1; } } main { }",
        RIGHT,
    ),
    (
        "proc f(read s: int) { f(s); } main { array a: int[1]; f(a); }",
        RIGHT,
    ),
    (
        "proc f(read s: int) { s[0] = 1; } main { }",
        "Y6 at label 1",
    ),
    (
        "proc f(read s: int) { parts s by 1 as p, i { p[0] = 1; } } main { }",
        "Y6 at label 2",
    ),
    (
        "proc f(read s: int) { split s at 0 as l, r { l[0] = 1; } } main { }",
        "Y6 at label 2",
    ),
    (
        "proc f(read s: int) { split s at 0 as l, r { r[0] = 1; } } main { }",
        "Y6 at label 2",
    ),
    (
        "proc f(read s: int) { async { s[0] = 1; } } main { }",
        "Y6 at label 2",
    ),
    (
        "proc g(mut t: int) { } proc f(read s: int) { g(s); } main { }",
        "Y6 at label 1",
    ),
    (
        "proc g(mut t: int) { } proc f(read s: int) { split s at 0 as l, r { g(r); } } main { }",
        "Y6 at label 2",
    ),
];

/// Y7: `mut` arguments that overlap another section argument. The procedure has one statement.
const OVERLAP: &[Verdict] = &[
    (
        "proc f(read s: int, read t: int) { skip; } main { array a: int[2]; f(a, a); }",
        RIGHT,
    ),
    (
        "proc f(mut s: int, read t: int) { skip; } main { array a: int[2]; array b: int[2]; f(a, b); }",
        RIGHT,
    ),
    (
        "proc f(mut s: int, read t: int) { s[0] = t[0]; }
        main { array a: int[2]; split a at 1 as l, r { f(l, r); } }",
        RIGHT,
    ),
    (
        "proc f(mut s: int, mut t: int) { f(t, s); } main { }",
        RIGHT,
    ),
    (
        "proc f(mut s: int, read t: int) { s[0] = t[0]; } main { array a: int[2]; f(a, a); }",
        "Y7 at label 2",
    ),
    (
        "proc f(read s: int, mut t: int) { skip; } main { array a: int[2]; f(a, a); }",
        "Y7 at label 2",
    ),
    (
        "proc f(mut s: int, read t: int) { skip; }
        main { array a: int[2]; split a at 1 as l, r { f(a, r); } }",
        "Y7 at label 3",
    ),
    (
        "proc f(mut s: int, read t: int) { skip; }
        main { array a: int[2]; split a at 1 as l, r { f(l, l); } }",
        "Y7 at label 3",
    ),
    (
        "proc f(mut s: int, read t: int) { skip; } main { array a: int[2];
        split a at 1 as l, r { split a at 1 as m, n { f(l, n); } } }",
        "Y7 at label 4",
    ),
    (
        "proc f(mut s: int, read t: int) { skip; }
        main { array a: int[2]; parts a by 1 as p, i { f(p, a); } }",
        "Y7 at label 3",
    ),
    (
        "proc f(mut s: int, read t: int) { skip; } main { array a: int[2];
        split a at 1 as l, r { parts a by 1 as p, i { f(l, p); } } }",
        "Y7 at label 4",
    ),
    (
        "proc f(mut s: int, read t: int) { skip; } main { array a: int[2];
        split a at 1 as l, r { parts l by 1 as p, i { f(p, r); } } }",
        RIGHT,
    ),
];

/// Y8: programs without `main`.
const MAIN: &[Verdict] = &[
    ("main { }", RIGHT),
    ("// nothing\nmain { }", RIGHT),
    ("proc f() { } main { }", RIGHT),
    ("main { skip; }", RIGHT),
    ("", "Y8"),
    ("// nothing", "Y8"),
    ("proc f() { }", "Y8"),
    ("proc f() { f(); } proc g() { }", "Y8"),
];

/// Compares the result for a text with the expected one: where it is wrong, or which rule its
/// program breaks.
fn compare_told(rt: &impl Abort, alloc: Global, row: &str, text: &str, want: &str) {
    match parse(alloc, text) {
        Ok(program) => compare_refusal(rt, alloc, row, type_check(alloc, program), want),
        Err(error) => compare(rt, alloc, row, error, want),
    }
}

#[test]
fn a_program_keeps_the_rules_or_is_told_which_it_breaks(rt: HostRuntime) {
    let rules = [
        SCOPE, DECLARED, KINDS, ARGUMENTS, ASSIGNED, WRITTEN, OVERLAP, MAIN,
    ];
    for rows in rules {
        for (text, want) in rows {
            compare_told(&rt, rt.alloc(), text, text, want);
        }
    }
}

/// Y9: a text with a part repeated `count` times, in which `#` is the number of the repetition.
#[derive(Clone, Copy)]
struct Many {
    head: &'static str,
    count: u32,
    before: &'static str,
    behind: &'static str,
    tail: &'static str,
    want: &'static str,
}

/// Each limit, met once, and exceeded by one.
const LIMITS: &[Many] = &[
    Many {
        head: "main { ",
        count: 32,
        before: "array a",
        behind: ": int[1]; ",
        tail: "}",
        want: RIGHT,
    },
    Many {
        head: "main { ",
        count: 33,
        before: "array a",
        behind: ": int[1]; ",
        tail: "}",
        want: "Y9",
    },
    Many {
        head: "",
        count: 256,
        before: "proc f",
        behind: "() { } ",
        tail: "main { }",
        want: RIGHT,
    },
    Many {
        head: "",
        count: 257,
        before: "proc f",
        behind: "() { } ",
        tail: "main { }",
        want: "Y9",
    },
    Many {
        head: "proc f(p: int",
        count: 15,
        before: ", p",
        behind: ": int",
        tail: ") { } main { }",
        want: RIGHT,
    },
    Many {
        head: "proc f(p: int",
        count: 16,
        before: ", p",
        behind: ": int",
        tail: ") { } main { }",
        want: "Y9",
    },
    Many {
        head: "main { ",
        count: 65_535,
        before: "print ",
        behind: "; ",
        tail: "}",
        want: RIGHT,
    },
    Many {
        head: "main { ",
        count: 65_536,
        before: "print ",
        behind: "; ",
        tail: "}",
        want: "Y9",
    },
    Many {
        head: "main { array a",
        count: 1,
        before: "",
        behind: ": int[4194304]; ",
        tail: "}",
        want: RIGHT,
    },
    Many {
        head: "main { array a",
        count: 1,
        before: "",
        behind: ": int[4194305]; ",
        tail: "}",
        want: "Y9",
    },
];

/// Returns the text of a row.
fn text_of(rt: &impl Abort, alloc: Global, row: &Many) -> String {
    let mut text = String::from_str(alloc, row.head).expect(rt, "memory");
    for number in 0..row.count {
        let written = write!(text, "{}{number}{}", row.before, row.behind);
        written.expect(rt, "memory");
    }
    text.push_str(row.tail).expect(rt, "memory");
    text
}

#[test]
fn each_limit_is_met_and_passed_by_one(rt: HostRuntime) {
    let alloc = rt.alloc();
    for row in LIMITS {
        let text = text_of(&rt, alloc, row);
        compare_told(&rt, alloc, row.before, text.as_str(), row.want);
    }
}
