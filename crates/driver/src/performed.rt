//! What was done with the text of a program.

use failures::failure::Failure;

/// The status of an answer, or why there is none. A failure whose object was written has its
/// explanation with it, so that it isn't explained again.
#[derive(Drop)]
pub struct Performed {
    pub done: Result<u8, Failure>,
    pub explanation: Option<String>,
}
