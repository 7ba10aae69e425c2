//! Programs without a race.

ghost use Rattle.std.specs.Prelude.{◌≡◌};
ghost use Rattle.types.specs.Typed.{code_of};
ghost use Rattle.effects.specs.Summarized.{AreSummaries};
ghost use Rattle.race_checker.specs.Clash.{IsAccepted};

use effects::summaries::Summaries;
use types::typed::Typed;

/// A program in which no two accesses clash, with the summaries of its procedures. Only `check`
/// creates it.
#[derive(Drop)]
pub struct Accepted {
    pub(crate) typed: Typed,
    pub(crate) summaries: Summaries,
    ghost no_clash: { IsAccepted (code_of typed) },
    ghost exact: { ∥ AreSummaries (code_of typed) summaries ∥₁ },
}

impl Accepted {
    /// Returns the program.
    pub fn typed(&self) -> &Typed
        ensures field { result.now ≡ self.now.typed }
        ensures no_clash { IsAccepted (code_of result.now) }
    {
        &self.typed
    }

    /// Returns what its procedures do and leave pending.
    pub fn summaries(&self) -> &Summaries
        ensures field { result.now ≡ self.now.summaries }
        ensures exact { AreSummaries (code_of self.now.typed) result.now }
    {
        &self.summaries
    }
}
