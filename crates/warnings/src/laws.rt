//! Theorems about warnings, each stated as the contract of an empty function.

ghost use Rattle.std.specs.Prelude.{ℕ, ◌≡◌, ◌≢◌, true, false};
ghost use Rattle.types.specs.Code.{Code, Codes, Number, Program, End, Store, Then};
ghost use Rattle.types.specs.Meaning.{one};
ghost use Rattle.types.specs.Run.{State, Block, Faulted, On, array_of, primitive, window_at};
ghost use Rattle.effects.specs.Accesses.{Access};
ghost use Rattle.effects.specs.Effects.{Pending, accesses, labels};
ghost use Rattle.warnings.specs.Ends.{block_may_leave, stops};
ghost use Rattle.warnings.specs.Warnings.{cannot_hold};

/// States that a task doesn't continue after a statement that stops, on one thread and under any
/// budget. So no run reaches the statement after it.
pub fn stopping_statements_end_their_task()
    ensures { (p : Program) (fresh nest : ℕ) (c : Code) (label : ℕ) (st : State (Unit {0}))
        → stops c ≡ true → st.flow ≡ On → (one p fresh nest (Block (Then label c End)) st).flow ≢ On }
{}

/// States that a block leaves nothing pending if it may leave no task. So a finish around it has no
/// task to wait for.
pub fn idle_finishes_wait_for_nothing()
    ensures labels { (p : Program) (b : Codes) (x : ℕ) → block_may_leave b ≡ false
        → Pending p labels b x → ⊥ }
    ensures accesses { (p : Program) (b : Codes) (x : Access) → block_may_leave b ≡ false
        → Pending p accesses b x → ⊥ }
{}

/// States that a store of a constant that doesn't fit in the elements of the array is a fault,
/// whatever the index is.
pub fn unfitting_constants_are_faults()
    ensures { (p : Program) (l s : ℕ) (i e : Number) (st : State (Unit {0}))
        → cannot_hold (array_of p (window_at st s).array).element e ≡ true
        → (primitive p l (Store s i e) st).flow ≡ Faulted }
{}
