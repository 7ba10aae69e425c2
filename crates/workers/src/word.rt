//! The tickets of a run.

use crate::settings::Settings;
use tickets::{Seat, Tickets};

/// The word from which the tasks of a run draw tickets, and all of its seats, one for each worker.
#[derive(Drop)]
pub struct Word {
    pub tickets: Tickets,
    pub seats: Vec<Seat>,
}

/// The limits of a run, and its word.
#[derive(Drop)]
pub struct Terms {
    pub settings: Settings,
    pub word: Word,
}
