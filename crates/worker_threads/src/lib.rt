//! Worker threads that borrow shared data, each with a promised report, and the deques of their tasks.

#![tactic(auto)]

mod crew;
mod deque;
mod deque_ends;
mod deque_rule;
mod starting;

pub use crew::{Crew, CrewError, ReportPromise, Unstarted};
pub use deque_ends::{Deque, Front, NoRoom, Refused, Thief};
pub use starting::work_together;
