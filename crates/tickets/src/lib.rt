//! Numbers that threads draw: those below some number, each once and none left out.

#![tactic(auto)]

mod drawing;
mod rule;
mod word;

pub use drawing::{Drawn, Stub, Ticket};
pub use word::{Seat, Tickets};
