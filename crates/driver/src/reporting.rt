//! The report of a result on the standard error.

ghost use Rattle.driver.specs.Acts.{IsSaid, Reports, in_short};

use crate::answered::Answered;
use crate::more::More;
use crate::refusal::Refusal;
use std::io::Write;

/// Writes the explanation of an answer, or of a failure, to the standard error. `more` is
/// what there should be.
pub fn report<E: Write>(done: Result<Answered, Refusal>, more: More, err: &mut E) -> u8
    requires said { IsSaid more done }
    ensures { Reports more (E.contents err.old) (E.contents err.new) (in_short done) result }
{
    match done {
        Ok(answered) => answered.follow(err),
        Err(refusal) => refusal.tell(err),
    }
}
