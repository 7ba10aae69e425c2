//! `check --warn`: the warnings about an accepted program.

use crate::programs::typed_of;
use std::alloc::{AllocError, Global};
use warnings::telling::warnings_text;

/// Returns the text of the warnings about the program of a text, in the file with this name. It is
/// empty if there are none, or if the text has no program.
pub fn warnings_about(alloc: Global, file: &str, text: &str) -> Result<String, AllocError> {
    let Ok(typed) = typed_of(alloc, text) else {
        return Ok(String::new(alloc));
    };
    warnings_text(alloc, text, &typed, file)
}
