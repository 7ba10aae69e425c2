//! Out of memory, in place of a library's error.

ghost use Rattle.std.specs.Prelude.{◌≡◌, IfErr, IfOk, Ok};

use failures::failure::Failure;

/// Returns the value, or out of memory in place of any error.
pub fn or_no_memory<T: Drop, E: Drop>(made: Result<T, E>) -> Result<T, Failure>
    ensures value { IfOk result (λ value. made ≡ Ok value) }
    ensures why { IfErr result (λ failure. failure ≡ Failure.NoMemory) }
{
    match made {
        Ok(value) => Ok(value),
        Err(_) => Err(Failure::NoMemory),
    }
}
