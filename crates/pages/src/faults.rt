//! Pages about faults and stopped runs.

use crate::page::{Page, page};

/// Returns these pages.
pub(crate) fn pages() -> &'static [Page] {
    PAGES
}

/// `F1` to `F7`, and `stopped`
const PAGES: &[Page] = &[
    page! {
        name: "F1",
        about: "index out of bounds",
        rule: "Indices run from 0 to the section's length minus 1. In a part of a section they start from 0 again.",
        program: ["main {", "  array a: int[1];", "  a[1] = 7;", "}"],
        tells: "serial program.afx" => "fault 0 at 1: F1",
        mend: "Keep the index below `len(a)`, and pass along the offset of the part: see `afx explain turned_names`.",
    },
    page! {
        name: "F2",
        about: "arithmetic overflow",
        rule: "Results that don't fit in 64 bits are faults; they never wrap around.",
        program: ["main {", "  print 9223372036854775807 + 1;", "}"],
        tells: "serial program.afx" => "fault 0 at 1: F2",
        mend: "Keep intermediate results small, as in `x = (x * 31 + a[i]) % 65521;`.",
    },
    page! {
        name: "F3",
        about: "division by zero",
        rule: "The right operand of `/` or `%` was 0.",
        program: ["main {", "  print 1 / 0;", "}"],
        tells: "serial program.afx" => "fault 0 at 1: F3",
        mend: "Test it first: `if n != 0 { print 1 / n; }`.",
    },
    page! {
        name: "F4",
        about: "value out of range for the element type",
        rule: "An element of a `byte` array holds 0 to 255. Larger values are never truncated.",
        program: ["main {", "  array a: byte[1];", "  a[0] = 256;", "}"],
        tells: "serial program.afx" => "fault 0 at 1: F4",
        mend: "Declare the array as `int`, or reduce the value first, as in `256 % 256`.",
    },
    page! {
        name: "F5",
        about: "split point out of range",
        rule: "The split point must be from 0 to the length of the section.",
        program: [
            "main {",
            "  array a: int[1];",
            "  split a at 2 as l, r {",
            "    skip;",
            "  }",
            "}",
        ],
        tells: "serial program.afx" => "fault 0 at 1: F5",
        mend: "Split at `len(a) / 2`, or test the length first.",
    },
    page! {
        name: "F6",
        about: "a `fault` statement",
        rule: "The number after the code is the value of the expression. A fault ends its task's statements up to the end of the
nearest finish in that task; other tasks continue.",
        program: ["main {", "  fault 7;", "}"],
        tells: "serial program.afx" => "fault 0 at 1: F6 7",
        mend: "The program raised it. The line gives the path of the task and the label of the statement.",
    },
    page! {
        name: "F7",
        about: "pieces of less than one element",
        rule: "The size of the pieces of a `parts` must be at least 1, even if the section has no elements.",
        program: [
            "main {",
            "  array a: int[2];",
            "  parts a by 0 as p, i {",
            "    p[0] = i;",
            "  }",
            "}",
        ],
        tells: "serial program.afx" => "fault 0 at 1: F7",
        mend: "Use a size of 1 or more. Nothing is run if the section has no elements.",
    },
    page! {
        name: "stopped",
        about: "step or nesting limit exceeded",
        rule: "A task needed more steps than `--steps` allows (default: 1,000,000), or asyncs were nested deeper than `--nest` allows
(default: 100). Nothing else is printed. The exit status is 3.",
        program: ["main {", "  while true {", "    skip;", "  }", "}"],
        tells: "serial program.afx --steps 1000" => "stopped",
        mend: "Raise the limit, as in `--steps 100000000`, or look for an infinite loop. `serial --progress` reports the steps.",
    },
];
