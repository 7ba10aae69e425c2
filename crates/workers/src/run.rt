//! The run of an accepted program on worker threads.

ghost use Rattle.std.specs.Prelude.{◌≡◌, ◌≤◌, ◌↔◌, [], IfErr, IfOk, IfSome, IsSome, Option, Some};
ghost use Rattle.types.specs.Contents.{FitsArrays};
ghost use Rattle.types.specs.Outcome.{outcome as one_thread_outcome};
ghost use Rattle.types.specs.Translation.{budget as budget_of, input as lists_in, outcome as outcome_in};
ghost use Rattle.types.specs.Typed.{code_of};
ghost use Rattle.task_run.specs.Jobs.{IsJob, outcome_of};
ghost use Rattle.finish_scope.specs.RunErrors.{IsRunCause};
ghost use Rattle.tickets.specs.Seats.{AreAllOf, AreDrawn};
ghost use Rattle.trace_numbers.specs.Counts.{tasks_in};
ghost use Rattle.trace.specs.Logs.{IsClean, LeadsToOutcome, job_of as weighted_job_of};
ghost use Rattle.workers.specs.Causes.{Happened, HasTicket, HasTicketFrom, IsOfLog, IsReason};
ghost use Rattle.workers.specs.Causes.{IsRunReason, job_of};
ghost use Rattle.workers.specs.Logs.{IsLogOfRun, weighted};
ghost use Rattle.workers.specs.Own.{HasCode};
ghost use Rattle.workers.specs.Words.{IsFreshWord, IsOwnWord};

use crate::code::OwnCode;
use crate::error::RunError;
use crate::gate::Gate;
use crate::locked_log::{LockedLog, close, locked};
use crate::main_loop::Shared;
use crate::opening::open;
use crate::recorded::{Recorded, Recording, Unrecorded};
use crate::reports::{Finished, told};
use crate::settings::Settings;
use crate::word::{Terms, Word};
use finish_scope::running::Running;
use plain_code::pieces::ProgramCode;
use race_checker::accepted::Accepted;
use std::alloc::Global;
use std::marker::Brand;
use std::sync::Wait;
use std::thread::Threads;
use task_run::job::Job;
use tickets::Tickets;
use trace::log::Log;
use trace_numbers::counts::spawns;
use types::input::Input;
use types::laws::typed_programs_are_sound;
use worker_threads::{CrewError, work_together};

/// Runs a program on an input, on as many workers as the settings specify. Each `async` is a task,
/// or runs in place if no other worker would take it. An Ok has the one-thread outcome, whichever
/// worker runs a task, and the number of tasks. A log that is given is returned with the events of
/// the run, which led to that outcome. A run with a log is slower, because one worker at a time
/// does what is recorded. The tasks draw their tickets from a new word.
pub fn run<'p, G: Gate + Sync, R: Threads + Wait + Sync>(
    rt: &R,
    alloc: Global,
    accepted: &'p Accepted,
    input: &'p Input,
    settings: Settings,
    gate: &'p G,
    log: Option<Log<'p>>,
) -> Result<(Finished, Option<Log<'p>>), RunError>
    requires fits { FitsArrays (code_of accepted.now.typed).arrays (lists_in input.now) }
    requires begun { IfSome log (λ l. l.events ≡ []) }
    requires job { IfSome log (λ l. l.world.job
        ≡ weighted_job_of alloc accepted input settings.budget settings.w0) }
    ensures outcome { IfOk result (λ r. outcome_in r.0.outcome ≡ one_thread_outcome
        (code_of accepted.now.typed) (lists_in input.now) (budget_of settings.budget)) }
    ensures drawn { IfOk result (λ r. AreDrawn settings.workers r.0.tasks.number) }
    ensures tasks { IfOk result (λ r. r.0.tasks.number ≤ settings.tasks) }
    ensures started { IfOk result
        (λ r. IfSome r.1 (λ l. r.0.tasks.number ≡ tasks_in l.events)) }
    ensures log { IfOk result (λ r. IsSome r.1 ↔ IsSome log.entry) }
    ensures clean { IfOk result (λ r. IfSome r.1 IsClean) }
    ensures job { IfOk result (λ r. IfSome r.1 (λ l. l.world.job
        ≡ weighted_job_of alloc accepted.entry input.entry settings.budget settings.w0)) }
    ensures told { IfOk result (λ r. IfSome r.1 (λ l. LeadsToOutcome l (outcome_in r.0.outcome))) }
    ensures cause { IfErr result (IsRunCause settings.tasks (IsSome log.entry)) }
    ensures ticket { IfErr result (HasTicket settings.workers) }
    ensures happened { IfErr result (Happened
        (Some (job_of alloc accepted.entry input.entry settings.budget))) }
{
    let (tickets, seats) = Tickets::new(alloc, settings.workers)?;
    let job = Job {
        alloc,
        accepted,
        input,
        budget: settings.budget,
    };
    run_with(rt, job, settings, Word { tickets, seats }, gate, log)
}

/// Does what `run` does, with tickets from the given word, of which no seat is used yet. So the
/// contract can name it: the number of tasks is that of the draws from this word, and the ticket of
/// an error was drawn from it.
pub fn run_with<'p, G: Gate + Sync, R: Threads + Wait + Sync>(
    rt: &R,
    job: Job<'p>,
    settings: Settings,
    word: Word,
    gate: &'p G,
    log: Option<Log<'p>>,
) -> Result<(Finished, Option<Log<'p>>), RunError>
    requires fits { FitsArrays (code_of job.accepted.now.typed).arrays (lists_in job.input.now) }
    requires budget { job.budget ≡ settings.budget }
    requires word { IsFreshWord settings.workers word }
    requires begun { IfSome log (λ l. l.events ≡ []) }
    requires job { IfSome log (λ l. l.world.job ≡ weighted job settings.w0) }
    ensures outcome { IfOk result (λ r. outcome_in r.0.outcome ≡ outcome_of job.entry) }
    ensures drawn { IfOk result (λ r. AreAllOf word.tickets r.0.tasks) }
    ensures tasks { IfOk result (λ r. r.0.tasks.number ≤ settings.tasks) }
    ensures started { IfOk result
        (λ r. IfSome r.1 (λ l. r.0.tasks.number ≡ tasks_in l.events)) }
    ensures log { IfOk result (λ r. IsSome r.1 ↔ IsSome log.entry) }
    ensures clean { IfOk result (λ r. IfSome r.1 IsClean) }
    ensures job { IfOk result (λ r. IfSome r.1 (λ l. l.world.job
        ≡ weighted job.entry settings.w0)) }
    ensures told { IfOk result (λ r. IfSome r.1 (λ l. LeadsToOutcome l (outcome_in r.0.outcome))) }
    ensures cause { IfErr result (IsRunCause settings.tasks (IsSome log.entry)) }
    ensures ticket { IfErr result (HasTicketFrom word.tickets) }
    ensures happened { IfErr result (Happened (Some job.entry)) }
{
    typed_programs_are_sound(job.accepted.typed());
    let code: ProgramCode<'p> = ProgramCode::of(job.alloc, job.accepted.typed())?;
    run_as::<Brand, G, R>(rt, job, code, Terms { settings, word }, gate, log)
}

/// Runs a program once the job is picked. A run without a log is of another type than one with a log.
fn run_as<'p, J: Running + Send + Sync, G: Gate + Sync, R: Threads + Wait + Sync>(
    rt: &R,
    job: Job<'p>,
    code: ProgramCode<'p>,
    terms: Terms,
    gate: &'p G,
    log: Option<Log<'p>>,
) -> Result<(Finished, Option<Log<'p>>), RunError>
    requires of { J.job ≡ Some job }
    requires weight { J.w0 ≡ terms.settings.w0 }
    requires job { IsJob job }
    requires code { HasCode J.job code }
    requires word { IsFreshWord terms.settings.workers terms.word }
    requires own_word { IsOwnWord J.word terms.word.tickets }
    requires log { IfSome log (λ l. l.world.job ≡ weighted job terms.settings.w0) }
    ensures outcome { IfOk result (λ r. outcome_in r.0.outcome ≡ outcome_of job.entry) }
    ensures drawn { IfOk result (λ r. AreAllOf terms.word.tickets r.0.tasks) }
    ensures tasks { IfOk result (λ r. r.0.tasks.number ≤ terms.settings.tasks) }
    ensures started { IfOk result
        (λ r. IfSome r.1 (λ l. r.0.tasks.number ≡ tasks_in l.events)) }
    ensures kept { IfOk result (λ r. IsSome r.1 ↔ IsSome log.entry) }
    ensures log { IfOk result (λ r. IfSome r.1 (IsLogOfRun J.job J.w0)) }
    ensures failed { IfErr result
        (IsRunReason J.job terms.word.tickets terms.settings.tasks (IsSome log.entry)) }
{
    if log.is_some() {
        run_typed::<Recorded<J>, G, R>(rt, job, code, terms, gate, log)
    } else {
        run_typed::<Unrecorded<J>, G, R>(rt, job, code, terms, gate, log)
    }
}

/// Runs a program once its type says whether events are recorded. If no worker reports anything, the
/// log was lost.
fn run_typed<'p, J: Running + Recording + Send + Sync, G: Gate + Sync, R: Threads + Wait + Sync>(
    rt: &R,
    job: Job<'p>,
    code: ProgramCode<'p>,
    terms: Terms,
    gate: &'p G,
    log: Option<Log<'p>>,
) -> Result<(Finished, Option<Log<'p>>), RunError>
    requires of { J.job ≡ Some job }
    requires weight { J.w0 ≡ terms.settings.w0 }
    requires job { IsJob job }
    requires code { HasCode J.job code }
    requires word { IsFreshWord terms.settings.workers terms.word }
    requires own_word { IsOwnWord J.word terms.word.tickets }
    requires log { IfSome log (λ l. l.world.job ≡ weighted job terms.settings.w0) }
    ensures outcome { IfOk result (λ r. outcome_in r.0.outcome ≡ outcome_of job.entry) }
    ensures drawn { IfOk result (λ r. AreAllOf terms.word.tickets r.0.tasks) }
    ensures tasks { IfOk result (λ r. r.0.tasks.number ≤ terms.settings.tasks) }
    ensures started { IfOk result
        (λ r. IfSome r.1 (λ l. r.0.tasks.number ≡ tasks_in l.events)) }
    ensures kept { IfOk result (λ r. IsSome r.1 ↔ IsSome log.entry) }
    ensures log { IfOk result (λ r. IfSome r.1 (IsLogOfRun J.job J.w0)) }
    ensures failed { IfErr result
        (IsRunReason J.job terms.word.tickets terms.settings.tasks (IsSome log.entry)) }
{
    let code: OwnCode<'p, J> = OwnCode::new(code);
    match run_by::<J, G, R>(rt, job, code, terms, gate, locked::<J>(log)) {
        Ok((told, log)) => match told {
            Ok(finished) => match close::<J>(log) {
                Ok(log) => with_all_tasks(finished, log),
                Err(error) => Err(error),
            },
            Err(RunError::NoReport(silent)) => match close::<J>(log) {
                Ok(_) => Err(RunError::NoReport(silent)),
                Err(error) => Err(error),
            },
            Err(error) => Err(error),
        },
        Err(error) => Err(error),
    }
}

/// Returns what a run returns, if as many tasks drew a ticket as start in the events of its log.
fn with_all_tasks<'p>(
    finished: Finished,
    log: Option<Log<'p>>,
) -> Result<(Finished, Option<Log<'p>>), RunError>
    ensures same { IfOk result (λ r. (r.0 ≡ finished) × (r.1 ≡ log.entry)) }
    ensures started { IfOk result
        (λ r. IfSome r.1 (λ l. r.0.tasks.number ≡ tasks_in l.events)) }
    ensures failed { IfErr result IsOfLog }
    ensures logged { IfErr result (λ _. IsSome log.entry) }
{
    if let Some(log) = &log {
        let tasks = finished.tasks.number();
        if tasks == 0 || tasks - 1 != spawns(log.events()) as u64 {
            return Err(RunError::Unlogged);
        }
    }
    Ok((finished, log))
}

/// Runs a program once its log is under a lock. Returns what the workers reported, and the log.
fn run_by<'p, J: Running + Recording + Send + Sync, G: Gate + Sync, R: Threads + Wait + Sync>(
    rt: &R,
    job: Job<'p>,
    code: OwnCode<'p, J>,
    terms: Terms,
    gate: &'p G,
    log: Option<LockedLog<'p, J>>,
) -> Result<(Result<Finished, RunError>, Option<LockedLog<'p, J>>), RunError>
    requires of { J.job ≡ Some job }
    requires job { IsJob job }
    requires word { IsFreshWord terms.settings.workers terms.word }
    requires own_word { IsOwnWord J.word terms.word.tickets }
    ensures outcome { IfOk result
        (λ r. IfOk r.0 (λ f. outcome_in f.outcome ≡ outcome_of job.entry)) }
    ensures drawn { IfOk result
        (λ r. IfOk r.0 (λ f. AreAllOf terms.word.tickets f.tasks)) }
    ensures tasks { IfOk result (λ r. IfOk r.0 (λ f. f.tasks.number ≤ terms.settings.tasks)) }
    ensures failed { IfOk result
        (λ r. IfErr r.0 (IsReason J.job terms.word.tickets terms.settings.tasks)) }
    ensures log { IfOk result (λ r. IsSome r.1 ↔ IsSome log.entry) }
    ensures early { IfErr result (IsReason J.job terms.word.tickets terms.settings.tasks) }
{
    let settings = terms.settings;
    let (shared, own, all_parts) = open::<J, G, R>(rt, job, code, terms, gate, log)?;
    match work_together(rt, job.alloc, &shared, own, all_parts) {
        Ok(reports) => {
            let Shared { tickets, log, .. } = shared;
            Ok((told::<J>(job, settings, tickets, reports), log))
        }
        Err(CrewError::OutOfMemory) => Err(RunError::OutOfMemory),
        Err(CrewError::NoThread(cause)) => Err(RunError::RefusedThread(cause)),
    }
}
