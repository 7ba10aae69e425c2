//! Flushing an answer.

ghost use Rattle.driver.specs.Acts.{IsHandedOn};

use failures::failure::Failure;
use std::io::Write;

/// Flushes the writer of an answer, if there is an answer.
pub(crate) fn handed_on<O: Write>(out: &mut O, done: Result<u8, Failure>) -> Result<u8, Failure>
    ensures { IsHandedOn done (O.contents out.old) (O.contents out.new) result }
{
    match done {
        Ok(status) => match out.flush() {
            Ok(()) => Ok(status),
            Err(_) => Err(Failure::CannotWriteOutput),
        },
        Err(failure) => Err(failure),
    }
}
