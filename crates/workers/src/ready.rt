//! Tasks that wait for a worker.

ghost use Rattle.std.specs.Prelude.{◌≡◌};
ghost use Rattle.workers.specs.Own.{HasJob, IsOwnChild, IsOwnTask};
ghost use Rattle.workers.specs.Words.{IsOwnStub};

use crate::open_scopes::OpenScopes;
use finish_scope::inner::Scope;
use finish_scope::resting::ScopePosition;
use finish_scope::running::Running;
use std::marker::Model;
use std::sync::Arc;
use tickets::Stub;
use weighted_task::task::{Child, Task};

/// A spawned task of the run, its scope, and the ticket that was drawn for it. Contracts see it as
/// the path of the task.
#[derive(Drop)]
pub struct Ready<'p, J: Running> {
    child: Child<'p>,
    scope: Arc<Scope<'p, J>>,
    place: ScopePosition,
    /// The worker that spawned it.
    from: usize,
    /// The ticket, which has no bytes here.
    stub: Stub,
    /// Whether enough others waited in the deque when it was put there.
    is_spare: bool,
}

impl<'p, J: Running> Model for Ready<'p, J> {
    ghost use Rattle.std.specs.Prelude.{ℕ, List};
    ghost use Rattle.workers.specs.Own.{IsReady};

    ghost Value = { List ℕ };

    ghost view = { λ r. r.child.start.value.path.turns.items };

    ghost invariant = { λ r. IsReady J.job J.word r.child r.stub };
}

impl<'p, J: Running> Ready<'p, J> {
    /// Returns a task that the worker numbered `from` spawned in the scope at this position, with its
    /// ticket. `is_spare` says whether enough others wait.
    pub fn new(
        child: Child<'p>,
        scope: Arc<Scope<'p, J>>,
        place: ScopePosition,
        from: usize,
        stub: Stub,
        is_spare: bool,
    ) -> Ready<'p, J>
        requires own { IsOwnChild J.job child }
        requires drawn { IsOwnStub J.word stub }
        ensures { result ≡ child.entry.start.value.path.turns.items }
    {
        Ready {
            child,
            scope,
            place,
            from,
            stub,
            is_spare,
        }
    }

    /// Returns the number of the worker that spawned it.
    pub fn from(&self) -> usize {
        self.from
    }

    /// Returns whether enough other tasks waited when it was put into the deque.
    pub fn is_spare(&self) -> bool {
        self.is_spare
    }

    /// Returns the task, and its scopes. Its ticket is used up.
    pub fn begin(self) -> (Child<'p>, OpenScopes<'p, J>)
        ensures { IsOwnChild J.job result.0 }
    {
        let Ready {
            child,
            scope,
            place,
            ..
        } = self;
        let outer = Vec::new(child.job.alloc);
        (
            child,
            OpenScopes {
                scope,
                place,
                outer,
            },
        )
    }
}

/// The root, with which one worker starts.
#[derive(Drop)]
pub struct First<'p, J: Running> {
    task: Task<'p>,
    open_scopes: OpenScopes<'p, J>,
}

impl<'p, J: Running> Model for First<'p, J> {
    ghost use Rattle.std.specs.Prelude.{ℕ};
    ghost use Rattle.workers.specs.Own.{IsOwnTask};

    ghost Value = { ℕ };

    ghost view = { λ f. 0 };

    ghost invariant = { λ f. IsOwnTask J.job f.task };
}

impl<'p, J: Running> First<'p, J> {
    pub fn new(task: Task<'p>, open_scopes: OpenScopes<'p, J>) -> First<'p, J>
        requires { IsOwnTask J.job task }
    {
        First { task, open_scopes }
    }

    /// States that the program of the run is right and has no race, and that the input fits it: the
    /// root is a task of the run.
    pub fn shows_job(&self)
        ensures { HasJob J.job }
    {
        let _root = &self.task;
    }

    /// Returns the task before its first turn, and its scopes. Its ticket is used up; only the
    /// contract needs it.
    pub fn begin(self, _stub: Stub) -> (Task<'p>, OpenScopes<'p, J>)
        requires { IsOwnStub J.word _stub }
        ensures { IsOwnTask J.job result.0 }
    {
        let First { task, open_scopes } = self;
        (task, open_scopes)
    }
}
