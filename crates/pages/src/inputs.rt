//! Pages about invalid inputs.

use crate::page::{Page, page};

/// Returns these pages.
pub(crate) fn pages() -> &'static [Page] {
    PAGES
}

/// `N1` to `N6`
const PAGES: &[Page] = &[
    page! {
        name: "N1",
        about: "input is not valid JSON",
        rule: "`--input FILE` names a JSON file.",
        program: ["main {", "  array a: int[1];", "  print a[0];", "}"],
        input: "{",
        tells: "run program.afx --input input.json" => "N1",
        mend: "Write an object with a list for each array: `{\"a\": [7]}`.",
    },
    page! {
        name: "N2",
        about: "input is not a JSON object",
        rule: "The input is an object with one member for each array that doesn't start with zeros.",
        program: ["main {", "  array a: int[1];", "  print a[0];", "}"],
        input: "[7]",
        tells: "run program.afx --input input.json" => "N2",
        mend: "Name the array: `{\"a\": [7]}`.",
    },
    page! {
        name: "N3",
        about: "unknown array in the input",
        rule: "Each member must be named after an array of `main`. If several are not, the message names the first in byte order.",
        program: ["main {", "  array a: int[1];", "  print a[0];", "}"],
        input: "{\"z\": [7]}",
        tells: "run program.afx --input input.json" => "N3 z",
        mend: "Rename the member, or declare the array.",
    },
    page! {
        name: "N4",
        about: "not a list, or a list of the wrong length",
        rule: "The value must be a list with exactly as many elements as the array.",
        program: ["main {", "  array a: int[1];", "  print a[0];", "}"],
        input: "{\"a\": [7, 8]}",
        tells: "run program.afx --input input.json" => "N4 a",
        mend: "Make the lengths equal. The array's length is in its declaration, such as `array a: int[2];`.",
    },
    page! {
        name: "N5",
        about: "element out of range",
        rule: "An element must be an integer that fits in 64 bits, written without a decimal point or exponent. For a `byte` array it
must be 0 to 255.",
        program: ["main {", "  array a: byte[1];", "  print a[0];", "}"],
        input: "{\"a\": [256]}",
        tells: "run program.afx --input input.json" => "N5 a",
        mend: "Declare the array as `int`, or change the number.",
    },
    page! {
        name: "N6",
        about: "out of memory while reading the input",
        rule: "The input may be correct. The exit status is 4.",
        mend: "Try again with more memory available.",
    },
];
