//! The state before a run.

ghost use Rattle.std.specs.Prelude.{◌≡◌, ◌+◌, ◌↔◌, All, IfErr, IfOk, IsSome, Some, vec_len};
ghost use Rattle.task_run.specs.Jobs.{IsJob};
ghost use Rattle.tickets.specs.Seats.{seats_of};
ghost use Rattle.workers.specs.Causes.{Happens};
ghost use Rattle.workers.specs.WorkerStates.{HasSeat};
ghost use Rattle.workers.specs.Words.{IsFresh, IsFreshWord, IsOwnWord};

use crate::code::OwnCode;
use crate::error::Trouble;
use crate::gate::Gate;
use crate::locked_log::LockedLog;
use crate::main_loop::Shared;
use crate::open_scopes::OpenScopes;
use crate::pool::{Pool, Tasks};
use crate::ready::First;
use crate::settings::Settings;
use crate::word::{Terms, Word};
use crate::worker::{WorkerParts, WorkerState};
use crossbeam_utils::sync::Parker;
use finish_scope::inner::Inner;
use finish_scope::running::Running;
use std::alloc::{AllocError, Global};
use std::sync::{Arc, Mutex, Wait};
use task_run::job::Job;
use tickets::{Seat, Tickets};
use weighted_task::task::Task;

/// Returns the shared state before the run, the parts of the first worker, and those of the others.
pub fn open<'p, J: Running, G: Gate, R: Wait>(
    rt: &R,
    job: Job<'p>,
    code: OwnCode<'p, J>,
    terms: Terms,
    gate: &'p G,
    log: Option<LockedLog<'p, J>>,
) -> Result<
    (
        Shared<'p, J, G>,
        WorkerParts<'p, J>,
        Vec<WorkerParts<'p, J>>,
    ),
    Trouble,
>
    requires of { J.job ≡ Some job }
    requires job { IsJob job }
    requires word { IsFreshWord terms.settings.workers terms.word }
    requires own_word { IsOwnWord J.word terms.word.tickets }
    ensures job { IfOk result (λ r. r.0.job ≡ job.entry) }
    ensures settings { IfOk result (λ r. r.0.settings ≡ terms.settings) }
    ensures tickets { IfOk result (λ r. r.0.tickets ≡ terms.word.tickets) }
    ensures log { IfOk result (λ r. IsSome r.0.log ↔ IsSome log.entry) }
    ensures own { IfOk result (λ r. HasSeat r.0.tickets terms.settings.tasks r.1.state.seat) }
    ensures all_parts { IfOk result
        (λ r. All (λ k. HasSeat r.0.tickets terms.settings.tasks k.state.seat) r.2.items) }
    ensures seats { IfOk result (λ r. seats_of r.0.tickets ≡ terms.settings.workers) }
    ensures count { IfOk result (λ r. vec_len r.2 + 1 ≡ terms.settings.workers) }
    ensures cause { IfErr result (Happens J.job) }
{
    let alloc = job.alloc;
    let Terms { settings, word } = terms;
    let Word { tickets, mut seats } = word;
    let Some(seat) = seats.pop() else {
        unreachable!()
    };
    let mut pool = Pool::new(alloc);
    let (number, own, parker) = pool.add_worker(alloc)?;
    let state = state_at(number, parker, &tickets, settings, seat);
    let all_parts = make_all_parts(alloc, &tickets, settings, &mut pool, seats)?;
    let first = Some(root::<J, R>(rt, job, settings, &pool)?);
    let shared = Shared {
        job,
        code,
        settings,
        gate,
        tickets,
        pool,
        log,
    };
    let tasks = Tasks {
        own,
        thieves: Vec::new(alloc),
    };
    Ok((
        shared,
        WorkerParts {
            state,
            tasks,
            first,
        },
        all_parts,
    ))
}

/// Returns the parts of a worker for each seat.
fn make_all_parts<'p, J: Running>(
    alloc: Global,
    tickets: &Tickets,
    settings: Settings,
    pool: &mut Pool<'p, J>,
    seats: Vec<Seat>,
) -> Result<Vec<WorkerParts<'p, J>>, AllocError>
    requires { All (IsFresh tickets.now) seats.items }
    ensures each { IfOk result
        (λ v. All (λ k. HasSeat tickets.now settings.tasks k.state.seat) v.items) }
    ensures count { IfOk result (λ v. vec_len v ≡ vec_len seats) }
{
    let mut all_parts = Vec::new(alloc);
    for seat in seats {
        let (number, own, parker) = pool.add_worker(alloc)?;
        let state = state_at(number, parker, tickets, settings, seat);
        let tasks = Tasks {
            own,
            thieves: Vec::new(alloc),
        };
        all_parts.push(WorkerParts {
            state,
            tasks,
            first: None,
        })?;
    }
    Ok(all_parts)
}

/// Returns a worker's state before the run.
fn state_at(
    number: usize,
    parker: Parker,
    tickets: &Tickets,
    settings: Settings,
    seat: Seat,
) -> WorkerState
    requires { IsFresh tickets.now seat }
    ensures { HasSeat tickets.now settings.tasks result.seat }
{
    WorkerState {
        number,
        parker,
        seat,
    }
}

/// Returns the root at its start, in its scope.
fn root<'p, J: Running, R: Wait>(
    rt: &R,
    job: Job<'p>,
    settings: Settings,
    pool: &Pool<'p, J>,
) -> Result<First<'p, J>, Trouble>
    requires of { J.job ≡ Some job }
    requires job { IsJob job }
    ensures cause { IfErr result (Happens J.job) }
{
    let (inner, weight) = Inner::open(job.alloc, settings.w0);
    let task = match Task::root(job, weight) {
        Ok(task) => task,
        Err(weight) => {
            weight.forfeit();
            return Err(Trouble::OutOfMemory);
        }
    };
    let scope = Arc::new(job.alloc, Mutex::new(inner))?;
    let place = pool.put(rt, 0, Arc::try_clone(&scope)?)?;
    let outer = Vec::new(job.alloc);
    Ok(First::new(
        task,
        OpenScopes {
            scope,
            place,
            outer,
        },
    ))
}
