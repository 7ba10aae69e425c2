//! A program that a command refused, or failed for.

/// The file and the text of a program, and the explanation of a failure.
#[derive(Clone, Copy)]
pub struct RefusedProgram<'r> {
    pub file: &'r str,
    /// The text; empty if the file has none.
    pub text: &'r str,
    /// The explanation; empty if there is none.
    pub explanation: &'r str,
}
