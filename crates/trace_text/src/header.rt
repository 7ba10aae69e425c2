//! The first line of a trace: the settings of its run.

ghost use Rattle.std.specs.Prelude.{◌≡◌, ◌<◌, ◌≤◌, ◌⊎◌, ◌↔◌, IsNone, IfSome};

use crate::format::Format;
use events::worker_id::{MOST_WEIGHT, MOST_WORKERS};
use types::budget::Budget;

/// The settings of a run.
#[derive(Clone, Copy, PartialEq, Eq, Debug)]
pub struct Header {
    pub format: Format,
    pub budget: Budget,
    /// The weight that a scope issues at a time, 1 to 4294967296.
    pub w0: u64,
    /// The number of workers, 1 to 64.
    pub workers: u32,
    ghost in_range: { (1 ≤ w0) × (w0 ≤ 4294967296) × (1 ≤ workers) × (workers ≤ 64) },
}

impl Header {
    /// Returns a header with these numbers, or None if the weight or the workers are out of range.
    pub fn new(format: Format, budget: Budget, w0: u64, workers: u32) -> Option<Header>
        ensures none { IsNone result ↔ ((w0 < 1) ⊎ (4294967296 < w0) ⊎ (workers < 1) ⊎ (64 < workers)) }
        ensures some { IfSome result
            (λ h. (h.format ≡ format) × (h.budget ≡ budget) × (h.w0 ≡ w0)
            × (h.workers ≡ workers)) }
    {
        if w0 < 1 || w0 > MOST_WEIGHT || workers < 1 || workers > MOST_WORKERS {
            return None;
        }
        Some(Header {
            format,
            budget,
            w0,
            workers,
        })
    }
}
