//! The arguments of a command.

use std::alloc::{AllocError, Global};

/// Returns the arguments after `$ afx`. Quotes around an argument are removed, so `""` is the empty
/// one.
pub fn words_of(alloc: Global, command: &str) -> Result<Vec<String>, AllocError> {
    let mut words = Vec::new(alloc);
    for word in command.split(' ').skip(2) {
        words.push(String::from_str(alloc, word.trim_matches('"'))?)?;
    }
    Ok(words)
}
