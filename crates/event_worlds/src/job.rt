//! The parameters of a world.

ghost use Rattle.std.specs.Prelude.{◌≡◌, ◌<◌, ◌⊎◌, MatchOption};
ghost use Rattle.types.specs.Contents.{FitsArrays};
ghost use Rattle.types.specs.Translation.{input as lists_in};
ghost use Rattle.types.specs.Typed.{code_of};
ghost use Rattle.event_worlds.specs.Jobs.{IsWeightedJob};

use events::worker_id::MOST_WEIGHT;
use race_checker::accepted::Accepted;
use std::alloc::Global;
use task_run::job::Job;
use types::budget::Budget;
use types::input::Input;
use types::laws::typed_programs_are_sound;

/// A job, and the weight that a scope issues at once.
#[derive(Clone, Copy)]
pub struct WeightedJob<'p> {
    pub job: Job<'p>,
    pub w0: u64,
}

impl<'p> WeightedJob<'p> {
    /// Creates a job. The input needs a list for each array, with the length of the array. Returns
    /// None if the weight isn't from 1 to 2^32.
    pub fn new(
        alloc: Global,
        accepted: &'p Accepted,
        input: &'p Input,
        budget: Budget,
        w0: u64,
    ) -> Option<WeightedJob<'p>>
        requires { FitsArrays (code_of accepted.now.typed).arrays (lists_in input.now) }
        ensures { MatchOption result ((w0 ≡ 0) ⊎ (4294967296 < w0)) (λ j. IsWeightedJob j
            × (j ≡ record {
              job = record {
                alloc = alloc;
                accepted = accepted.entry;
                input = input.entry;
                budget = budget;
              };
              w0 = w0;
            })) }
    {
        typed_programs_are_sound(accepted.typed());
        if w0 == 0 || w0 > MOST_WEIGHT {
            return None;
        }
        let job = Job {
            alloc,
            accepted,
            input,
            budget,
        };
        Some(WeightedJob { job, w0 })
    }
}
