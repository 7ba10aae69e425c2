//! Pages about syntax errors.

use crate::page::{Page, page};

/// Returns these pages.
pub(crate) fn pages() -> &'static [Page] {
    PAGES
}

/// `S1` to `S6`
const PAGES: &[Page] = &[
    page! {
        name: "S1",
        about: "unexpected character",
        rule: "Outside comments, a program consists of names, numbers, reserved words and marks. A non-ASCII letter, a quote or a
`!` without `=` starts none of these. The position is that of the character.",
        program: ["main {", "  print 1 ! 2;", "}"],
        tells: "check program.afx" => "S1 at 2:11",
        mend: "Write the intended mark, such as `1 != 2` in a condition, or turn the text into a comment with `//`.",
    },
    page! {
        name: "S2",
        about: "unexpected token, or unexpected end of file",
        rule: "The position is that of the first token that can't continue any program, or just past the last character if the
program is incomplete. A reserved word can't be used as a name: see `afx explain words`.",
        program: ["main {", "  skip", "}"],
        tells: "check program.afx" => "S2 at 3:1",
        mend: "The mistake may be before that position: here, `;` is missing after `skip`.",
    },
    page! {
        name: "S3",
        about: "number too large",
        rule: "The largest literal is 9,223,372,036,854,775,807. The position is that of the first digit.",
        program: ["main {", "  print 9223372036854775808;", "}"],
        tells: "check program.afx" => "S3 at 2:9",
        mend: "Values are signed 64-bit integers. Write the smallest one as `-9223372036854775807 - 1`.",
    },
    page! {
        name: "S4",
        about: "brackets nested more than 100 deep",
        rule: "`(`, `{` and `[` count until they are closed. The position is that of the 101st open bracket.",
        program: [
            "main {",
            "  print",
            "  ((((((((((((((((((((",
            "  ((((((((((((((((((((",
            "  ((((((((((((((((((((",
            "  ((((((((((((((((((((",
            "  ((((((((((((((((((((",
            "  0;",
            "}",
        ],
        tells: "check program.afx" => "S4 at 7:22",
        mend: "Store parts of the expression in variables, and move inner blocks into procedures.",
    },
    page! {
        name: "S5",
        about: "program larger than 1,048,576 bytes",
        rule: "A larger file is rejected without a position.",
        mend: "Move data into arrays and load them with `--input FILE`.",
    },
    page! {
        name: "S6",
        about: "out of memory while parsing",
        rule: "The program may be correct. The exit status is 4.",
        mend: "Try again with more memory available.",
    },
];
