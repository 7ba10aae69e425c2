//! The budget of a run.

ghost use Rattle.std.specs.Prelude.{◌≡◌, ◌<◌, ◌≤◌, ◌⊎◌, ◌↔◌, IsNone, IfSome};

/// The limits of a run.
#[derive(Clone, Copy, PartialEq, Eq, Debug)]
pub struct Budget {
    /// The number of steps that each task may take, 1 to 1,000,000,000.
    pub steps: u32,
    /// The maximum nesting of asyncs, 0 to 1,000.
    pub nest: u32,
    ghost steps_in_range: { (1 ≤ steps) × (steps ≤ 1000000000) },
    ghost nest_in_range: { nest ≤ 1000 },
}

/// The maximum number of steps of a task that a budget can allow.
pub const MOST_STEPS: u32 = 1_000_000_000;

/// The maximum nesting of asyncs that a budget can allow.
pub const MOST_NEST: u32 = 1_000;

/// The maximum number of tasks that a run can be allowed.
pub const MOST_TASKS: u64 = 1_048_576;

impl Budget {
    /// Returns the budget with these numbers, or `None` if one of them is out of range.
    pub fn new(steps: u64, nest: u64) -> Option<Budget>
        ensures none { IsNone result ↔ ((steps < 1) ⊎ (1000000000 < steps) ⊎ (1000 < nest)) }
        ensures some { IfSome result (λ b. (b.steps ≡ steps) × (b.nest ≡ nest)) }
    {
        let steps = u32::try_from(steps).ok()?;
        let nest = u32::try_from(nest).ok()?;
        if steps < 1 || steps > MOST_STEPS || nest > MOST_NEST {
            return None;
        }
        Some(Budget { steps, nest })
    }

    /// Returns the default budget: 1,000,000 steps and a nesting limit of 100.
    pub fn usual() -> Budget
        ensures steps { result.steps ≡ 1000000 }
        ensures nest { result.nest ≡ 100 }
    {
        Budget {
            steps: 1_000_000,
            nest: 100,
        }
    }
}
