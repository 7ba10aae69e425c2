//! The text of a program, and how it is explained.

use crate::more::More;
use excerpts::paint::Paint;

/// The text of a program, what follows an answer or a failure, and whether that is colored.
#[derive(Drop)]
pub struct ProgramSource {
    pub text: String,
    pub more: More,
    pub paint: Paint,
}
