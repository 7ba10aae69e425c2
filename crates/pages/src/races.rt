//! Pages about races.

use crate::page::{Page, page};

/// Returns these pages.
pub(crate) fn pages() -> &'static [Page] {
    PAGES
}

/// `C1` and `C2`
const PAGES: &[Page] = &[
    page! {
        name: "C1",
        others: ["race"],
        about: "data race",
        rule: "Two statements may run in parallel and access overlapping sections, and at least one of them writes. The message names
the procedure and, for each access, its label, `read` or `write`, and its section. `afx list FILE` prints the labels.
The check compares whole sections and ignores indices. It reports the least race; `afx check --all FILE` lists all.",
        program: [
            "main {",
            "  array a: int[1];",
            "  async {",
            "    a[0] = 7;",
            "  }",
            "  print a[0];",
            "}",
        ],
        tells: "check program.afx" => "C1 race in main: 2 write a, 3 read a",
        mend: "Put the async that starts first, or the call that starts it, inside a finish: `finish { async { a[0] = 7; } }`.
Or give each task its own part of the array: see `afx explain parallel_loop`.",
    },
    page! {
        name: "C2",
        about: "out of memory during the race check",
        rule: "It isn't known whether the program has a race. The exit status is 4.",
        mend: "Try again with more memory available.",
    },
];
