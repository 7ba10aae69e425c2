//! The memory of tasks that have ended, for those that start.

ghost use Rattle.std.specs.Prelude.{◌≡◌, IfOk};
ghost use Rattle.types.specs.Translation.{environment as environment_of};

use crate::start::Start;
use holdings::holdings::Holdings;
use std::alloc::{AllocError, Global};
use types::code::Procedure;
use types::path::Path;
use types::value::Environment;

/// The number of environments and boxes that are kept, each.
const MOST: usize = 64;

/// What tasks that have ended leave to the next ones of the same worker. Only its room is used:
/// what it contains is never read.
#[derive(Drop)]
pub struct Rooms<'p> {
    alloc: Global,
    environments: Vec<Environment>,
    starts: Vec<Box<Start<'p>>>,
}

impl<'p> Rooms<'p> {
    /// Creates rooms of no task.
    pub fn new(alloc: Global) -> Rooms<'p> {
        Rooms {
            alloc,
            environments: Vec::new(alloc),
            starts: Vec::new(alloc),
        }
    }

    // ---- what a task starts with

    /// Returns a copy of an environment.
    pub(crate) fn copied(&mut self, environment: &Environment) -> Result<Environment, AllocError>
        ensures { IfOk result (λ e. environment_of e ≡ environment_of environment.now) }
    {
        match self.environments.pop() {
            Some(room) => copied_into(environment, room),
            None => environment.copied(self.alloc),
        }
    }

    /// Returns an environment whose allocations can be reused, or a new one with room for all slots
    /// and sections of a procedure, so it grows in no step.
    #[inline(always)]
    pub(crate) fn room_for(&mut self, procedure: &Procedure) -> Result<Environment, AllocError> {
        match self.environments.pop() {
            Some(environment) => Ok(environment),
            None => Ok(Environment {
                scalars: Vec::with_capacity(self.alloc, procedure.slots)?,
                windows: Vec::with_capacity(self.alloc, procedure.sections.len())?,
            }),
        }
    }

    /// Puts the start of a task into a box.
    pub fn boxed(&mut self, start: Start<'p>) -> Result<Box<Start<'p>>, AllocError>
        ensures { IfOk result (λ b. b.value ≡ start.entry) }
    {
        match self.starts.pop() {
            Some(room) => {
                let mut room = room;
                *room.as_mut() = start;
                Ok(room)
            }
            None => Ok(Box::new(self.alloc, start)?),
        }
    }

    // ---- what it leaves

    /// Keeps an environment.
    #[inline(always)]
    pub(crate) fn keep_environment(&mut self, environment: Environment) {
        keep(&mut self.environments, environment);
    }

    /// Takes the start of a task out of its box, and keeps the box.
    pub fn take_out(&mut self, start: Box<Start<'p>>) -> Start<'p>
        ensures { result ≡ start.entry.value }
    {
        let mut room = start;
        let start = Box::replace(&mut room, nothing(self.alloc));
        keep(&mut self.starts, room);
        start
    }
}

/// Copies an environment into the room of another one.
fn copied_into(environment: &Environment, room: Environment) -> Result<Environment, AllocError>
    ensures { IfOk result (λ e. environment_of e ≡ environment_of environment.now) }
{
    let Environment {
        mut scalars,
        mut windows,
    } = room;
    scalars.clear();
    scalars.extend_from_slice(&environment.scalars)?;
    windows.clear();
    windows.extend_from_slice(&environment.windows)?;
    Ok(Environment { scalars, windows })
}

/// Returns an environment without memory.
pub(crate) fn no_environment(alloc: Global) -> Environment {
    Environment {
        scalars: Vec::new(alloc),
        windows: Vec::new(alloc),
    }
}

/// Returns a start of no task, for an empty box. It has no memory.
fn nothing<'p>(alloc: Global) -> Start<'p> {
    Start {
        body: &[],
        environment: no_environment(alloc),
        holdings: Holdings::none(alloc),
        nest: 0,
        path: Path::root(alloc),
        label: 0,
    }
}

/// Keeps a room, if only few are kept. Without memory for the list it is dropped.
#[inline(always)]
fn keep<T: Drop>(rooms: &mut Vec<T>, room: T) {
    if rooms.len() < MOST {
        match rooms.push(room) {
            Ok(()) => {}
            Err(_) => {}
        }
    }
}
