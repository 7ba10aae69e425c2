//! The word and its seats.

ghost use Rattle.std.specs.Prelude.{◌≡◌, ◌≤◌, []};

use crate::rule::{DrawnOnce, SeatShare};
use atomic_table::{Seat as Place, Table};
use std::alloc::Global;

/// The next number to be drawn. Threads share it by reference.
#[derive(Drop)]
pub struct Tickets {
    pub(crate) table: Table<(), SeatShare, u64, DrawnOnce, Global>,
    ghost one_word: { table.shared.table_id.words ≡ 1 },
    ghost no_slots: { table.shared.table_id.slots ≡ 0 },
    ghost some_seat: { 1 ≤ table.shared.key },
}

/// The right to draw, at most 2^32 times. A thread takes ownership of its seat and returns it at
/// its end.
#[derive(Drop)]
pub struct Seat {
    pub(crate) place: Place<(), SeatShare>,
    ghost no_slots: { place.me.1 ≡ [] },
    ghost one: { place.me.0.seats ≡ 1 },
}
