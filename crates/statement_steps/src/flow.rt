//! Whether a task continues.

use types::fault::Fault;

/// What a task does next.
#[derive(Clone, Copy, PartialEq, Eq, Debug)]
pub enum Flow {
    /// The next statement.
    On,
    /// Nothing, up to the end of its finish, because of a fault.
    Faulted,
    /// Nothing any more, because a task exceeded its budget.
    Stopped,
}

impl Flow {
    ghost use Rattle.std.specs.Prelude.{◌≡◌, drop, map};
    ghost use Rattle.types.specs.Meaning.{after_async, after_finish};
    ghost use Rattle.types.specs.Translation.{fault as fault_of};
    ghost use Rattle.statement_steps.specs.Standing.{flow as flow_of};

    /// Returns the flow after an async. A fault ends only the body of the async.
    #[inline(always)]
    pub fn behind_async(self) -> Flow
        ensures { flow_of result ≡ after_async (flow_of self) }
    {
        match self {
            Flow::Stopped => Flow::Stopped,
            Flow::On | Flow::Faulted => Flow::On,
        }
    }

    /// Returns the flow after a finish. `before` faults occurred before the finish; further faults
    /// end it abruptly.
    #[tactic(auto, using(crate::proofs::Finishes::gathered_on, crate::proofs::Finishes::gathered_faulted, crate::proofs::Finishes::none_on, crate::proofs::Finishes::none_faulted))]
    #[inline(always)]
    pub fn behind_finish(self, before: usize, faults: &[Fault]) -> Flow
        ensures { flow_of result ≡ after_finish (flow_of self) (drop before (map fault_of faults.now)) }
    {
        match self {
            Flow::Stopped => Flow::Stopped,
            Flow::On | Flow::Faulted => {
                if before < faults.len() {
                    Flow::Faulted
                } else {
                    Flow::On
                }
            }
        }
    }
}
