//! The first lines of explanations.

use excerpts::heading::Heading;
use pages::find::{page_of, tables};

/// Returns the first line of an explanation: of what has this page, in a file.
pub fn heading_of<'h>(file: &'h str, word: &'h str) -> Heading<'h> {
    let about = match page_of(&tables(), word) {
        Some(page) => page.about,
        None => "",
    };
    Heading { file, word, about }
}
