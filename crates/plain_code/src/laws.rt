//! Theorems about plain code, each the contract of a function with an empty body.

ghost use Rattle.std.specs.Prelude.{◌≡◌, ℕ};
ghost use Rattle.types.specs.Code.{Program};
ghost use Rattle.types.specs.Meaning.{one};
ghost use Rattle.types.specs.Run.{Rules, State, Work, run};
ghost use Rattle.plain_code.specs.Means.{IsAsOnOne, bare};
ghost use Rattle.plain_code.specs.Plain.{IsPlainWork};

/// If no async and no finish can be reached, a run under any rules does what it does on one thread,
/// for any number of fresh steps and any nest. It calls the rules' `stepped` once for each step and
/// calls nothing else. The theorem requires that `stepped` does the same for all labels.
pub fn plain_work_means_the_same<X>()
    ensures { (p : Program) (r : Rules X) (once : X → X) → ((l : ℕ) (x : X) → r.stepped l x ≡ once x)
        → (fresh nest : ℕ) (w : Work) → IsPlainWork p w → (st : State X)
        → IsAsOnOne once st (run p r w st) (one p fresh nest w (bare st)) }
{}
