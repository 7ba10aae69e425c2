//! Drawing numbers.

ghost use Rattle.std.specs.Prelude.{◌≡◌, ◌<◌, ◌≤◌, ◌++◌, [], ◌∷◌, length, All, IfOk, vec_len};
ghost use Rattle.tickets.specs.Seats.{AreOnly, drawn_of, IsCountOf, IsSeatOf, IsTicketOf, seats_of, word_of};

use crate::rule::{Draw, Marking, Parting, SeatShare};
use crate::word::{Seat, Tickets};
use atomic_table::{Seat as Place, Table};
use std::alloc::{AllocError, Global};
use std::fmt;

/// A drawn number. Only `Tickets::draw` creates one.
#[derive(Drop)]
pub struct Ticket {
    number: u64,
    /// Shows contracts from which word it was drawn. It has no bytes.
    mark: Place<(), SeatShare>,
}

impl Ticket {
    /// Returns the number that was drawn.
    pub fn number(&self) -> u64
        ensures { result ≡ self.now.number }
    {
        self.number
    }

    /// Returns the ticket without its number.
    pub fn into_stub(self) -> Stub
        ensures { word_of result ≡ self.mark.table_id }
    {
        let Ticket { mark, .. } = self;
        Stub { mark }
    }
}

impl fmt::Debug for Ticket {
    fn fmt<W: fmt::Write>(&self, f: &mut fmt::Formatter<W>) -> fmt::Result {
        let number = self.number;
        write!(f, "Ticket({number})")
    }
}

/// A ticket without its number. It has no bytes. Only `Ticket::into_stub` creates one, and it can't
/// be copied.
#[derive(Drop)]
pub struct Stub {
    /// Shows contracts from which word the ticket was drawn.
    mark: Place<(), SeatShare>,
}

/// The number of draws on all seats of a word. Only `Tickets::close` creates one.
#[derive(Drop)]
pub struct Drawn {
    number: u64,
    /// Shows contracts which word was closed. It has no bytes.
    mark: Place<(), SeatShare>,
}

impl Drawn {
    /// Returns that number.
    pub fn number(&self) -> u64
        ensures { result ≡ self.now.number }
    {
        self.number
    }
}

impl fmt::Debug for Drawn {
    fn fmt<W: fmt::Write>(&self, f: &mut fmt::Formatter<W>) -> fmt::Result {
        let number = self.number;
        write!(f, "Drawn({number})")
    }
}

impl Tickets {
    /// Returns a word from which nothing was drawn, and all of its seats.
    pub fn new(alloc: Global, seats: u64) -> Result<(Tickets, Vec<Seat>), AllocError>
        requires { (1 ≤ seats) × (seats ≤ 64) }
        ensures seats { IfOk result (λ r. (seats_of r.0 ≡ seats) × (vec_len r.1 ≡ seats)) }
        ensures each { IfOk result (λ r. All (λ s. IsSeatOf r.0 s × (drawn_of s ≡ [])) r.1.items) }
    {
        let (table, mut rest) = Table::of_words(alloc, &[0], &seats)?;
        let mut made = Vec::new(alloc);
        for seat in 1..seats {
            made.reserve(1)?;
            made.push_reserved(seat_at(table.shared.split_seat::<Parting>(&mut rest)));
        }
        made.reserve(1)?;
        made.push_reserved(seat_at(rest));
        Ok((Tickets { table }, made))
    }

    /// Draws the next number, starting at 0. This is one atomic step, and one more for the mark.
    pub fn draw(&self, seat: &mut Seat) -> Ticket
        requires of { IsSeatOf self.now seat.old }
        requires left { length (drawn_of seat.old) < 4294967296 }
        ensures of { IsSeatOf self.now seat.new }
        ensures drawn { drawn_of seat.new ≡ drawn_of seat.old ++ result.number ∷ [] }
        ensures least { length (drawn_of seat.old) ≤ result.number }
        ensures word { IsTicketOf self.now result }
    {
        let number = self.table.shared.fetch_add::<Draw>(&mut seat.place, 0, 1);
        let mark = self.table.shared.split_seat::<Marking>(&mut seat.place);
        Ticket { number, mark }
    }

    /// Returns the number of draws on all seats together.
    pub fn close(self, mut seats: Vec<Seat>) -> Drawn
        requires all { vec_len seats ≡ seats_of self }
        requires each { All (IsSeatOf self) seats.items }
        ensures once { AreOnly result.number seats.items }
        ensures word { IsCountOf self result }
    {
        let Tickets { table } = self;
        let Some(last) = seats.pop() else {
            unreachable!()
        };
        let Seat { place: mut whole } = last;
        for seat in seats {
            let Seat { place } = seat;
            table.shared.join_seat::<Parting>(&mut whole, place);
        }
        let mark = table.shared.split_seat::<Marking>(&mut whole);
        let closed = table.close_with(whole);
        let number = closed.word(0);
        closed.free();
        Drawn { number, mark }
    }
}

fn seat_at(place: Place<(), SeatShare>) -> Seat
    requires slots { place.me.1 ≡ [] }
    requires one { place.me.0.seats ≡ 1 }
    ensures { result.place ≡ place }
{
    Seat { place }
}
