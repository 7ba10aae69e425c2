//! What a task is doing, and the place at which it stores its next number.

use event_worlds::doing::TaskProgress;
use holdings::holdings::Holdings;
use sections::window::Place;
use statement_steps::flow::Flow;
use task_run::frame::TaskFrame;
use task_run::run::Run;
use types::code::{Primitive, Stmt, StmtKind};
use types::value::{Environment, Places, number_value};

/// What a task holds, as the memory of an expression.
#[derive(Clone, Copy)]
struct Held<'w> {
    holdings: &'w Holdings,
}

impl Places for Held<'_> {
    ghost use Rattle.types.specs.Contents.{read as read_of};
    ghost use Rattle.task_run.specs.Translation.{contents_of};

    ghost numbers = { λ h. read_of (contents_of h.holdings.now) };

    fn read(&self, place: Place) -> i64 {
        self.holdings.number(place)
    }
}

/// Returns where a task's next statement stores a number, if it does that.
pub fn next_store(doing: &TaskProgress<'_>) -> Option<Place> {
    match doing {
        TaskProgress::Starts(start) => {
            stored_at(start.body.first()?, &start.environment, &start.holdings)
        }
        TaskProgress::Runs(run) => {
            let (stmt, environment) = next_statement(run)?;
            stored_at(stmt, environment, &run.thread.store.holdings)
        }
        _ => None,
    }
}

/// Returns where a statement stores a number, if it does that.
fn stored_at(stmt: &Stmt, environment: &Environment, holdings: &Holdings) -> Option<Place> {
    let StmtKind::Do(Primitive::Store { section, index, .. }) = &stmt.kind else {
        return None;
    };
    let index = number_value(index, environment, &Held { holdings }).ok()?;
    environment.place(*section, index).ok()
}

/// Returns the next statement of a run and the environment of its frame, unless a loop, a `parts`, a
/// finish or its handler comes first.
fn next_statement<'w>(run: &'w Run<'_>) -> Option<(&'w Stmt, &'w Environment)> {
    let mut environment = &run.thread.environment;
    for frame in run.frames.iter().rev() {
        match frame {
            TaskFrame::Rest(block) => {
                if let Some(stmt) = block.first() {
                    return Some((stmt, environment));
                }
            }
            TaskFrame::EndCall {
                environment: caller,
            } => environment = caller,
            TaskFrame::Again { .. } | TaskFrame::Turns(_) => return None,
            TaskFrame::EndFinish(_) | TaskFrame::OnFault { .. } => return None,
        }
    }
    None
}

/// Returns a task's environment.
pub fn environment_of<'w>(doing: &'w TaskProgress<'_>) -> Option<&'w Environment> {
    match doing {
        TaskProgress::Starts(start) => Some(&start.environment),
        TaskProgress::AtFinish(paused, _) => Some(&paused.environment),
        _ => match run_of(doing) {
            Some(run) => Some(&run.thread.environment),
            None => None,
        },
    }
}

/// Returns a task's flow. At the end of a finish and at its own end it is known only if the task is
/// stopped.
pub fn flow_of(doing: &TaskProgress<'_>) -> Option<Flow> {
    match doing {
        TaskProgress::AtFinish(_, made) | TaskProgress::AtEnd(made) => {
            if made.stopped {
                Some(Flow::Stopped)
            } else {
                None
            }
        }
        _ => match run_of(doing) {
            Some(run) => Some(run.thread.flow),
            None => None,
        },
    }
}

/// Returns a task's run, between its start and its end.
pub fn run_of<'w, 'p>(doing: &'w TaskProgress<'p>) -> Option<&'w Run<'p>> {
    match doing {
        TaskProgress::Runs(run) => Some(run),
        TaskProgress::Steps(run) => Some(run),
        TaskProgress::Spawns(run, _) => Some(run),
        TaskProgress::Opens(run) => Some(run),
        TaskProgress::Starts(_) => None,
        TaskProgress::AtFinish(_, _) => None,
        TaskProgress::AtEnd(_) => None,
    }
}
