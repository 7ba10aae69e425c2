//! Observers of a run's progress.

/// An observer that is called now and then with the progress of a run.
pub trait Watch {
    ghost use Rattle.std.specs.Prelude.{ℕ, List, [], ◌∷◌, ◌++◌};

    /// Calls with these counts, in order, change the first state into the second.
    ghost Told: { List ℕ → Self → Self → Type 0 };

    /// Receives the number of steps that all tasks together have executed.
    fn look(&mut self, steps: u64)
        ensures { Told (steps ∷ []) self.old self.new };

    ghost told_nothing: { (w : Self) → Told [] w w };

    ghost told_more: { (counts : List ℕ) (count : ℕ) (a b c : Self) → Told counts a b → Told (count ∷ []) b c
        → Told (counts ++ count ∷ []) a c };
}

/// An observer that does nothing.
#[derive(Drop)]
pub struct Unwatched;

impl Watch for Unwatched {
    ghost Told = { λ _ _ _. Unit {0} };

    fn look(&mut self, _steps: u64) {}

    ghost told_nothing = { λ _. tt };

    ghost told_more = { λ _ _ _ _ _ _ _. tt };
}
