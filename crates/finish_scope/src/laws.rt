//! A theorem about scopes, as the contract of a function that does nothing.

ghost use Rattle.std.specs.Prelude.{◌<◌, ◌≤◌, ℕ};
ghost use Rattle.finish_scope.specs.Scopes.{HasPassed, Standing, out_of};

/// A scope that has passed takes no weight any more, whichever weight it is given.
pub fn passed_scopes_take_no_weight()
    ensures { (s : Standing) (weight : ℕ) → HasPassed s → 1 ≤ weight → out_of s < weight }
{}
