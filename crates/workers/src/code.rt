//! The flat code of the program of a run.

ghost use Rattle.workers.specs.Own.{HasCode};

use finish_scope::running::Running;
use plain_code::pieces::ProgramCode;
use std::marker::{Model, PhantomData};

/// The flat code of the run's program, with which tasks run up to the next turn that others see.
#[derive(Drop)]
pub struct OwnCode<'p, J: Running> {
    code: ProgramCode<'p>,
    of: PhantomData<J>,
}

impl<'p, J: Running> Model for OwnCode<'p, J> {
    ghost use Rattle.std.specs.Prelude.{ℕ};
    ghost use Rattle.workers.specs.Own.{HasCode};

    ghost Value = { ℕ };

    ghost view = { λ c. 0 };

    ghost invariant = { λ c. HasCode J.job c.code };
}

impl<'p, J: Running> OwnCode<'p, J> {
    pub fn new(code: ProgramCode<'p>) -> OwnCode<'p, J>
        requires { HasCode J.job code }
    {
        OwnCode {
            code,
            of: PhantomData,
        }
    }

    /// Returns the code itself.
    pub fn lend(&self) -> &ProgramCode<'p>
        ensures { HasCode J.job result.now }
    {
        &self.code
    }
}
