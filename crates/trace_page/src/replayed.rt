//! The replay of a trace, and what each event changes in it.

ghost use Rattle.std.specs.Prelude.{IfErr, IfOk};
ghost use Rattle.serde_json.specs.View.{view};
ghost use Rattle.task_run.specs.Jobs.{budget_of, lists_of, program_of};
ghost use Rattle.event_worlds.specs.Jobs.{IsWeightedJob};
ghost use Rattle.event_worlds.specs.Replaying.{IsRefused};
ghost use Rattle.trace_page.specs.Changes.{IsReplay};

use crate::moments::{Moment, changes_of};
use event_worlds::error::{EventError, ReplayError};
use event_worlds::job::WeightedJob;
use event_worlds::world::World;
use events::event::Event;
use serde_json::Value;
use types::code::Label;

/// Replays events from the start, and returns what each of them changes. `labels` has the label of
/// the statement at each event. The worlds before and after an event are two replays.
pub fn changes_value<'p>(
    job: WeightedJob<'p>,
    events: &[Event],
    labels: &[Label],
) -> Result<Value, ReplayError>
    requires { IsWeightedJob job }
    ensures told { IfOk result (λ v. IsReplay (program_of job.entry.job) job.entry.w0
        (budget_of job.entry.job) (lists_of job.entry.job) events.now (view v)) }
    ensures refused { IfErr result (IsRefused job.entry events.now) }
{
    let Ok(mut before) = World::start(job) else {
        return Err(ReplayError::NoMemory);
    };
    let Ok(mut after) = World::start(job) else {
        return Err(ReplayError::NoMemory);
    };
    let mut all = Vec::new(job.job.alloc);
    'events: for (number, event) in events.iter().enumerate() {
        match after.go_by(event) {
            Ok(()) => {}
            Err(EventError::Illegal) => return Err(ReplayError::IllegalAt(number)),
            Err(EventError::NoMemory) => return Err(ReplayError::NoMemory),
        }
        let moment = Moment {
            event,
            label: labels.get(number).copied().unwrap_or(0),
            before: &before,
            after: &after,
        };
        let Ok(value) = changes_of(job.job.alloc, moment) else {
            return Err(ReplayError::NoMemory);
        };
        let Ok(()) = all.push(value) else {
            return Err(ReplayError::NoMemory);
        };
        // The event was legal, so only memory can be missing.
        let Ok(()) = before.go_by(event) else {
            return Err(ReplayError::NoMemory);
        };
    }
    Ok(Value::Array(all))
}
