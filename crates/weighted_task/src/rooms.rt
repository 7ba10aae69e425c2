//! The memory of tasks that have ended, for those that start.

use crate::task::Body;
use std::alloc::Global;
use task_run::rooms::Rooms;

/// The number of boxes that are kept.
const MOST: usize = 64;

/// What tasks that have ended leave to the next ones of the same worker.
#[derive(Drop)]
pub struct TaskRooms<'p> {
    /// What their runs leave.
    pub runs: Rooms<'p>,
    /// The boxes of their bodies. Each field is set before a box is used again.
    bodies: Vec<Box<Body<'p>>>,
}

impl<'p> TaskRooms<'p> {
    /// Creates rooms of no task.
    pub fn new(alloc: Global) -> TaskRooms<'p> {
        TaskRooms {
            runs: Rooms::new(alloc),
            bodies: Vec::new(alloc),
        }
    }

    /// Returns the box of a body that has ended, if there is one.
    pub(crate) fn body(&mut self) -> Option<Box<Body<'p>>> {
        self.bodies.pop()
    }

    /// Keeps the box of a body, if only few are kept. Without memory for the list it is dropped.
    pub(crate) fn keep(&mut self, body: Box<Body<'p>>) {
        if self.bodies.len() < MOST {
            match self.bodies.push(body) {
                Ok(()) => {}
                Err(_) => {}
            }
        }
    }
}
