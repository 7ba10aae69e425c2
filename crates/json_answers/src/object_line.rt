//! An object, and the exit status that goes with it.

ghost use Rattle.std.specs.Prelude.{◌≡◌, IfOk, IfErr, Ok};

use failures::failure::Failure;
use std::alloc::AllocError;

/// The line of an object, with its line feed, and the exit status of the command.
#[derive(Drop)]
pub struct ObjectLine {
    pub line: String,
    pub status: u8,
}

/// Returns a line and its status, or out of memory.
pub(crate) fn told_or_no_memory(
    line: Result<String, AllocError>,
    status: u8,
) -> Result<ObjectLine, Failure>
    ensures line { IfOk result (λ t. line ≡ Ok t.line) }
    ensures status { IfOk result (λ t. t.status ≡ status) }
    ensures why { IfErr result (λ f. f ≡ Failure.NoMemory) }
{
    match line {
        Ok(line) => Ok(ObjectLine { line, status }),
        Err(_) => Err(Failure::NoMemory),
    }
}
