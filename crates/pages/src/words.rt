//! The page of the reserved words.

use crate::page::{Page, page};

/// Returns these pages.
pub(crate) fn pages() -> &'static [Page] {
    PAGES
}

/// `words`
const PAGES: &[Page] = &[page! {
        name: "words",
        about: "reserved words, which can't be used as names",
        rule: "and array as async at by byte else false fault finish if int len main mut
not or parts print proc read rescue skip split true var while",
        program: ["main {", "  var at = 1;", "}"],
        tells: "check program.afx" => "S2 at 2:7",
        mend: "Use another name, such as `place`.",
    }];
