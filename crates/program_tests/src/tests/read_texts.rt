//! Texts, parsed by `parse`: which are programs, where the others are wrong, and which are
//! canonical.

use crate::tests::{RIGHT, compare, compare_refusal};
use std::alloc::Global;
use std::process::Abort;
use syntax::{format, parse};
use syntax_tree::tree::{Program, Stmt};

/// A text, and the result of `parse`.
const VERDICTS: &[(&str, &str)] = &[
    ("", RIGHT),
    ("main { }", RIGHT),
    ("main { print 1 ! 2; }", "S1 at 1:16"),
    ("main { by }", "S2 at 1:8"),
    ("main { skip }", "S2 at 1:13"),
    ("main { print 9223372036854775808; }", "S3 at 1:14"),
    ("main { print 9223372036854775807; }", RIGHT),
    ("main { print 007; }", RIGHT),
    ("main {\n\tskip;\r\n // \u{e9}\u{1f600}!\n  }}", "S2 at 4:4"),
    ("main { // the end", "S2 at 1:18"),
    ("main {\n", "S2 at 2:1"),
    ("main { } // the end", RIGHT),
    (
        "proc f(mut s: int, read t: byte, n: int) { } proc g() { f(a, b, 1); }",
        RIGHT,
    ),
    ("proc f(mut s: int,) { }", "S2 at 1:19"),
    ("main { a[0] = -1 * 2 + b[a] % (3 - len(a)); }", RIGHT),
    (
        "main { if not a < 1 and b == 2 or true { skip; } else { } }",
        RIGHT,
    ),
    (
        "main { while x <= 1 { split s at k as l, r { async { } } } finish { } }",
        RIGHT,
    ),
    ("main { if a < b < c { } }", "S2 at 1:17"),
    (
        "main { print 1, x != 2; fault 3; var x = 1; x = x + 1; f(); }",
        RIGHT,
    ),
    ("main { array a: int[8]; array b: byte[2]; }", RIGHT),
    ("main { skip; array a: int[8]; }", "S2 at 1:14"),
    ("main { } main { }", "S2 at 1:10"),
    ("skip;", "S2 at 1:1"),
    // ---- each production, cut short or wrong
    ("main { var x; }", "S2 at 1:13"),
    ("main { x; }", "S2 at 1:9"),
    ("main { x[1]; }", "S2 at 1:12"),
    ("main { f(1,); }", "S2 at 1:12"),
    ("main { print; }", "S2 at 1:13"),
    ("main { if { } }", "S2 at 1:11"),
    ("main { while 1 }", "S2 at 1:16"),
    ("main { split s as l, r { } }", "S2 at 1:16"),
    ("main { split s at 1 as l { } }", "S2 at 1:26"),
    ("main { parts s by k as p, i { async { } } }", RIGHT),
    ("main { parts s as p, i { } }", "S2 at 1:16"),
    ("main { parts s at 1 as p, i { } }", "S2 at 1:16"),
    ("main { parts s by 1 as p { } }", "S2 at 1:26"),
    ("main { parts s by 1 as p, i; }", "S2 at 1:28"),
    ("main { async skip; }", "S2 at 1:14"),
    ("main { else { } }", "S2 at 1:8"),
    ("main { x = - - 1; }", "S2 at 1:14"),
    ("main { x = not not y; }", "S2 at 1:16"),
    ("main { x = len(1); }", "S2 at 1:16"),
    ("main { x = a[]; }", "S2 at 1:14"),
    ("main { array a: int; }", "S2 at 1:20"),
    ("main { array a: bool[1]; }", "S2 at 1:17"),
    ("proc f(a) { }", "S2 at 1:9"),
    ("proc f(mut a: int) skip;", "S2 at 1:20"),
    ("main { x = 1 < 2 < 3; }", "S2 at 1:18"),
    ("main { x = rescue; }", "S2 at 1:12"),
    ("main { parts = 1; }", "S2 at 1:14"),
    ("main { x = parts; }", "S2 at 1:12"),
    ("main { by = 1; }", "S2 at 1:8"),
    // ---- which error comes first
    ("main { x = 1 &&", "S1 at 1:14"),
    ("main } } } { ( !", "S1 at 1:16"),
    ("main { x = 99999999999999999999999999; ! }", "S3 at 1:12"),
];

#[test]
fn texts_are_read_or_told_where_they_go_wrong(rt: HostRuntime) {
    let alloc = rt.alloc();
    for (text, want) in VERDICTS {
        compare_refusal(&rt, alloc, text, parse(alloc, text), want);
    }
}

/// The number of bytes of a comment, and the result for it as a text.
const LENGTHS: &[(usize, &str)] = &[(1_048_576, RIGHT), (1_048_577, "S5")];

#[test]
fn the_longest_text_is_read_and_a_longer_one_is_not(rt: HostRuntime) {
    let alloc = rt.alloc();
    for (bytes, want) in LENGTHS {
        let text = "/".repeat(alloc, *bytes).expect(&rt, "memory");
        let read = parse(alloc, text.as_str());
        compare_refusal(&rt, alloc, "a long comment", read, want);
    }
}

/// A text whose `main` starts with a `fault`, and whether its value is a lone atom.
const FAULTS: &[(&str, bool)] = &[
    ("main { fault 1; }", true),
    ("main { fault a[1 + 1]; }", true),
    ("main { fault (1 + 1); }", true),
    ("main { fault -1; }", false),
    ("main { fault not a; }", false),
    ("main { fault a * 1; }", false),
    ("main { fault a - 1; }", false),
    ("main { fault a < 1; }", false),
    ("main { fault a and b; }", false),
    ("main { fault a or b; }", false),
];

/// Returns whether the value of the `fault` with which `main` starts is a lone atom.
fn is_lone_atom(program: &Program) -> Option<bool> {
    match program.main.as_ref()?.body.first()? {
        Stmt::Fault { value } => Some(value.as_atom().is_some()),
        _ => None,
    }
}

#[test]
fn lone_atoms(rt: HostRuntime) {
    for (text, want) in FAULTS {
        let program = parse(rt.alloc(), text).expect(&rt, "a text of the language");
        assert!(rt; is_lone_atom(&program) == Some(*want), "at {text}");
    }
}

/// Texts that are their programs' canonical texts.
const CANONICAL: &[&str] = &[
    "",
    "main {
}
",
    "main {
  skip;
  var x = 1 + 2 * -3 % 4 / 5 - x;
  x = a[b[0]];
  fault 7;
}
",
    "main {
  split s at k as l, r {
    l[0] = 1 <= 2;
  }
  g();
}
",
    "main {
  parts s by len(s) / 2 as p, i {
    p[0] = i;
  }
}
",
    "main {
  if x > 1 {
  }
  if x >= 1 {
  } else {
    skip;
  }
  if x != 1 {
  }
}
",
];

#[test]
fn canonical_text_is_a_fixed_point(rt: HostRuntime) {
    let alloc = rt.alloc();
    for text in CANONICAL {
        let program = parse(alloc, text).expect(&rt, "a text of the language");
        let said = format(alloc, &program).expect(&rt, "memory");
        compare(&rt, alloc, "a canonical text", said, text);
    }
}
