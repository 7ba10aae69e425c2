//! The reports of all workers, put together.

ghost use Rattle.std.specs.Prelude.{◌≡◌, ◌+◌, ◌≤◌, ◌⊎◌, All, Err, IfErr, IfOk, IfSome, None, Some, vec_len};
ghost use Rattle.types.specs.Translation.{outcome as outcome_in};
ghost use Rattle.task_run.specs.Jobs.{outcome_of};
ghost use Rattle.tickets.specs.Seats.{AreAllOf, seats_of};
ghost use Rattle.workers.specs.Causes.{IsReason};
ghost use Rattle.workers.specs.WorkerStates.{IsSilent, IsSilentIf, TellTogether, Tells};

use crate::error::RunError;
use crate::settings::Settings;
use crate::worker::Report;
use finish_scope::run_error::reported;
use finish_scope::running::Running;
use std::alloc::{AllocError, Global};
use task_run::job::Job;
use tickets::{Drawn, Seat, Tickets};
use types::outcome::Outcome;

/// A run that has an outcome.
#[derive(Debug, Drop)]
pub struct Finished {
    pub outcome: Outcome,
    /// The number of tasks that were started, including the root.
    pub tasks: Drawn,
}

/// What workers reported, and their seats.
#[derive(Drop)]
pub struct Reports {
    outcome: Option<Outcome>,
    /// The error that ended the run, or the first of others.
    error: Option<RunError>,
    seats: Vec<Seat>,
}

/// Returns the outcome or the error that the workers reported, and closes their tickets.
pub fn told<J: Running>(
    job: Job<'_>,
    settings: Settings,
    tickets: Tickets,
    reports: Vec<Report>,
) -> Result<Finished, RunError>
    requires each { All (Tells J.job tickets job settings.tasks) reports.items }
    requires seats { vec_len reports ≡ seats_of tickets }
    ensures outcome { IfOk result (λ r. outcome_in r.outcome ≡ outcome_of job.entry) }
    ensures drawn { IfOk result (λ r. AreAllOf tickets r.tasks) }
    ensures tasks { IfOk result (λ r. r.tasks.number ≤ settings.tasks) }
    ensures failed { IfErr result (IsReason J.job tickets settings.tasks) }
    ensures silent { IfErr result (IsSilentIf (All IsSilent reports.items)) }
{
    let together = put_together::<J>(job, settings, &tickets, reports)?;
    finish::<J>(job, settings, tickets, together)
}

/// Puts the reports together.
fn put_together<J: Running>(
    job: Job<'_>,
    settings: Settings,
    tickets: &Tickets,
    reports: Vec<Report>,
) -> Result<Reports, AllocError>
    requires each { All (Tells J.job tickets.now job settings.tasks) reports.items }
    ensures told { IfOk result (λ r. TellTogether J.job tickets.now job.entry settings.tasks
        r.outcome r.error r.seats.items) }
    ensures seats { IfOk result (λ r. vec_len r.seats ≡ vec_len reports) }
    ensures silent { IfOk result
        (λ r. r.outcome ≡ None → r.error ≡ None → All IsSilent reports.items) }
{
    let mut together = Reports {
        outcome: None,
        error: None,
        seats: Vec::new(job.alloc),
    };
    for report in reports {
        together = add::<J>(job, settings, tickets, together, report)?;
    }
    Ok(together)
}

/// Adds a report. Only contracts need the job, the settings and the tickets.
fn add<J: Running>(
    _job: Job<'_>,
    _settings: Settings,
    _tickets: &Tickets,
    reports: Reports,
    report: Report,
) -> Result<Reports, AllocError>
    requires so_far { TellTogether J.job _tickets.now _job _settings.tasks
        reports.outcome reports.error reports.seats.items }
    requires report { Tells J.job _tickets.now _job _settings.tasks report }
    ensures told { IfOk result (λ r. TellTogether J.job _tickets.now _job.entry _settings.tasks
        r.outcome r.error r.seats.items) }
    ensures seats { IfOk result (λ r. vec_len r.seats ≡ vec_len reports.seats + 1) }
    ensures silent { IfOk result (λ r. r.outcome ≡ None → r.error ≡ None
        → IsSilent report × (reports.outcome ≡ None) × (reports.error ≡ None)) }
{
    let Report {
        told,
        is_first,
        seat,
    } = report;
    let Reports {
        outcome,
        error,
        mut seats,
    } = reports;
    seats.push(seat)?;
    match told {
        Ok(None) => Ok(Reports {
            outcome,
            error,
            seats,
        }),
        Ok(Some(outcome)) => Ok(Reports {
            outcome: Some(outcome),
            error,
            seats,
        }),
        Err(other) => Ok(Reports {
            outcome,
            error: Some(first_of(error, is_first, other)),
            seats,
        }),
    }
}

/// Returns the error of a report if it ended the run, or there is no earlier one.
fn first_of(error: Option<RunError>, is_first: bool, other: RunError) -> RunError
    ensures { (result ≡ other) ⊎ (error ≡ Some result) }
{
    match error {
        Some(error) => { if is_first { other } else { error } }
        None => other,
    }
}

/// Closes the tickets, and returns the outcome or the error. An error wins over an outcome, because
/// only without one are all tickets below the maximum; no run is known that reports both. Only the
/// contract needs the job and the settings.
fn finish<J: Running>(
    _job: Job<'_>,
    _settings: Settings,
    tickets: Tickets,
    reports: Reports,
) -> Result<Finished, RunError>
    requires told { TellTogether J.job tickets _job _settings.tasks
        reports.outcome reports.error reports.seats.items }
    requires seats { vec_len reports.seats ≡ seats_of tickets }
    ensures outcome { IfOk result (λ r. outcome_in r.outcome ≡ outcome_of _job.entry) }
    ensures drawn { IfOk result (λ r. AreAllOf tickets r.tasks) }
    ensures tasks { IfOk result (λ r. r.tasks.number ≤ _settings.tasks) }
    ensures failed { IfErr result (IsReason J.job tickets _settings.tasks) }
    ensures kept { IfSome reports.error (λ e. result ≡ Err e) }
    ensures silent { IfErr result
        (IsSilentIf ((reports.outcome ≡ None) × (reports.error ≡ None))) }
{
    let Reports {
        outcome,
        error,
        seats,
    } = reports;
    let workers = seats.len();
    let tasks = tickets.close(seats);
    match reported(outcome, error, workers) {
        Ok(outcome) => Ok(Finished { outcome, tasks }),
        Err(error) => Err(error),
    }
}
