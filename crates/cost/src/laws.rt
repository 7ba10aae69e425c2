//! Theorems about tallies and accounts. Each is the contract of a function that does nothing.

ghost use Rattle.std.specs.List.{sum};
ghost use Rattle.std.specs.Prelude.{◌≡◌, ◌<◌, ℕ, ℤ, List};
ghost use Rattle.types.specs.Code.{Program};
ghost use Rattle.types.specs.Meaning.{one};
ghost use Rattle.types.specs.Outcome.{Budget};
ghost use Rattle.types.specs.Run.{State, Work};
ghost use Rattle.cost.specs.Accounts.{Account, account_of, accounted, span_by_label};
ghost use Rattle.cost.specs.Costs.{cost_of, tallied, tally_of};
ghost use Rattle.cost.specs.Laws.{AddsUp, IsFair, totals, untallied};
ghost use Rattle.cost.specs.declared.tally.Tally.{Tally as AnyTally};

/// States that a tally changes nothing: a run that keeps a tally does what the one-thread meaning
/// specifies, for every tally at its start.
pub fn tallies_change_nothing()
    ensures { (p : Program) (fresh nest : ℕ) (w : Work) (st : State AnyTally)
        → untallied (tallied p fresh nest w st) ≡ one p fresh nest w (untallied st) }
{}

/// States that no chain is longer than the work, for every program, input and budget.
pub fn tallies_are_fair()
    ensures { (p : Program) (input : List (List ℤ)) (b : Budget) → IsFair (tally_of p input b) }
{}

/// States that an account changes no tally: a run with an account does what a run with only its
/// tally does, for every account at its start. So the tally of a whole run is the same with any
/// number of rows.
pub fn accounts_change_no_tally()
    ensures state { (p : Program) (fresh nest : ℕ) (w : Work) (st : State Account)
        → totals (accounted p fresh nest w st) ≡ tallied p fresh nest w (totals st) }
    ensures tally { (p : Program) (rows : ℕ) (input : List (List ℤ)) (b : Budget)
        → (account_of p rows input b).tally ≡ tally_of p input b }
{}

/// States that for every program, input and budget, and any number of rows except 0, the rows of
/// all steps add up to the work, and the rows of the longest chain add up to the span.
pub fn accounts_add_up()
    ensures rows { (p : Program) (rows : ℕ) (input : List (List ℤ)) (b : Budget)
        → 0 < rows → AddsUp (account_of p rows input b) }
    ensures span { (p : Program) (rows : ℕ) (input : List (List ℤ)) (b : Budget)
        → 0 < rows → sum (span_by_label (account_of p rows input b))
        ≡ (cost_of (tally_of p input b)).span }
{}
