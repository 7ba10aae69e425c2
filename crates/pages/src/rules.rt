//! Pages about the rules of programs, and their limits.

use crate::page::{Page, page};

/// Returns these pages.
pub(crate) fn pages() -> &'static [Page] {
    PAGES
}

/// `Y1` to `Y10`
const PAGES: &[Page] = &[
    page! {
        name: "Y1",
        about: "name not in scope",
        rule: "Every name must be in scope where it is used. A variable is in scope from the end of its `var` statement to the end of
its block. Sides of a split, and the piece and the turn of a `parts`, are in scope in its block, and an array in `main`.",
        program: ["main {", "  print x;", "}"],
        tells: "check program.afx" => "Y1 at label 1",
        mend: "Declare it first, as in `var x = 0;`. Pass what a procedure needs from `main` as a parameter.",
    },
    page! {
        name: "Y2",
        about: "name declared twice",
        rule: "Names can't be shadowed, and two procedures can't have the same name. The message has a label if a statement declares
the name; arrays, parameters and procedures have no label.",
        program: ["main {", "  var x = 1;", "  var x = 2;", "}"],
        tells: "check program.afx" => "Y2 at label 2",
        mend: "Use another name, or assign instead: `x = 2;`. After the block the name can be used again.",
    },
    page! {
        name: "Y3",
        about: "wrong kind: number, boolean or section",
        rule: "Booleans are allowed only in conditions and as operands of `and`, `or` and `not`. A section isn't a value, but its
elements are, as in `a[0]`. A variable isn't a section.",
        program: ["main {", "  print 1 < 2;", "}"],
        tells: "check program.afx" => "Y3 at label 1",
        mend: "Use `if`: `if 1 < 2 { print 1; } else { print 0; }`.",
    },
    page! {
        name: "Y4",
        about: "wrong arguments in a call",
        rule: "A call has one argument for each parameter. For a section parameter, the argument is the name of a section with the
same element type.",
        program: ["proc f(read s: int) {", "}", "main {", "  array a: byte[1];", "  f(a);", "}"],
        tells: "check program.afx" => "Y4 at label 1",
        mend: "Compare the call with the parameter list. To pass part of a section, name it with `split` first.",
    },
    page! {
        name: "Y5",
        about: "assignment to a variable of the parent task",
        rule: "A task starts with copies of its parent's variables. It can read them but not assign to them.",
        program: ["main {", "  var x = 1;", "  async {", "    x = 2;", "  }", "}"],
        tells: "check program.afx" => "Y5 at label 3",
        mend: "Let the task write into a section of its own and read it after the finish: see `afx explain answers`.",
    },
    page! {
        name: "Y6",
        about: "write to a `read` section",
        rule: "A `read` parameter, or a part of one, can be neither written nor passed as `mut`.",
        program: ["proc f(read s: int) {", "  s[0] = 1;", "}", "main {", "}"],
        tells: "check program.afx" => "Y6 at label 1",
        mend: "Mark the parameter `mut`.",
    },
    page! {
        name: "Y7",
        about: "`mut` argument overlaps another argument",
        rule: "A section passed as `mut` must not overlap another section in the same call. The two sides of one split don't overlap.
A section overlaps its own parts, and sides of two different splits of one section count as overlapping.",
        program: [
            "proc f(mut s: int, read t: int) {",
            "}",
            "main {",
            "  array a: int[2];",
            "  f(a, a);",
            "}",
        ],
        tells: "check program.afx" => "Y7 at label 1",
        mend: "Pass the two sides of one split: `split a at 1 as l, r { f(l, r); }`.",
    },
    page! {
        name: "Y8",
        about: "missing `main`",
        rule: "A program without `main` has nothing to run.",
        program: ["proc f() {", "}"],
        tells: "check program.afx" => "Y8",
        mend: "Write `main { .. }` after the procedures.",
    },
    page! {
        name: "Y9",
        about: "limit exceeded",
        rule: "A program has at most 256 procedures in addition to `main`, 16 parameters for each procedure, 32 arrays, 4,194,304 elements in
all arrays together, and 65,535 statements.",
        program: ["main {", "  array a: int[4194305];", "}"],
        tells: "check program.afx" => "Y9",
        mend: "Use smaller arrays, or use one array for several and name its parts with `split`.",
    },
    page! {
        name: "Y10",
        about: "out of memory while checking the rules",
        rule: "The program may be correct. The exit status is 4.",
        mend: "Try again with more memory available.",
    },
];
