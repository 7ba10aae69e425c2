//! Numbers that seats draw.

ghost use Rattle.std.specs.Prelude.{◌≡◌, []};
ghost use Rattle.std.specs.Thread.{IsSync};
ghost use Rattle.tickets.specs.Seats.{IsSeatOf, drawn_of, seats_of};

use std::alloc::Global;
use std::process::Abort;
use std::thread::{Threads, join};
use tickets::{Seat, Tickets};

/// Two seats and two more.
type Seats = ((Seat, Seat), (Seat, Seat));

/// Returns a word from which nothing was drawn, and its four seats.
fn four_seats(rt: &impl Abort, alloc: Global) -> (Tickets, Seats)
    ensures count { seats_of result.0 ≡ 4 }
    ensures a { IsSeatOf result.0 result.1.0.0 × (drawn_of result.1.0.0 ≡ []) }
    ensures b { IsSeatOf result.0 result.1.0.1 × (drawn_of result.1.0.1 ≡ []) }
    ensures c { IsSeatOf result.0 result.1.1.0 × (drawn_of result.1.1.0 ≡ []) }
    ensures d { IsSeatOf result.0 result.1.1.1 × (drawn_of result.1.1.1 ≡ []) }
{
    let (tickets, mut seats) = Tickets::new(alloc, 4).expect(rt, "memory");
    let a = seats.pop().expect(rt, "a seat");
    let b = seats.pop().expect(rt, "a seat");
    let c = seats.pop().expect(rt, "a seat");
    let d = seats.pop().expect(rt, "a seat");
    assert!(rt; seats.is_empty());
    (tickets, ((a, b), (c, d)))
}

/// Returns the number of draws on the four seats.
fn closed(rt: &impl Abort, alloc: Global, tickets: Tickets, seats: Seats) -> u64
    requires count { seats_of tickets ≡ 4 }
    requires left { IsSeatOf tickets seats.0.0 × IsSeatOf tickets seats.0.1 }
    requires right { IsSeatOf tickets seats.1.0 × IsSeatOf tickets seats.1.1 }
{
    let (left, right) = seats;
    let (a, b) = left;
    let (c, d) = right;
    tickets
        .close(vec![in alloc; a, b, c, d].expect(rt, "memory"))
        .number()
}

/// Returns what three seats draw in turn: the second twice, the first, the third, and the second
/// again.
fn drawn_in_turn(tickets: &Tickets, a: &mut Seat, b: &mut Seat, c: &mut Seat) -> [u64; 5]
    requires first { IsSeatOf tickets.now a.old × (drawn_of a.old ≡ []) }
    requires second { IsSeatOf tickets.now b.old × (drawn_of b.old ≡ []) }
    requires third { IsSeatOf tickets.now c.old × (drawn_of c.old ≡ []) }
    ensures { IsSeatOf tickets.now a.new × IsSeatOf tickets.now b.new × IsSeatOf tickets.now c.new }
{
    [
        tickets.draw(b).number(),
        tickets.draw(b).number(),
        tickets.draw(a).number(),
        tickets.draw(c).number(),
        tickets.draw(b).number(),
    ]
}

#[test]
fn seats_draw_in_turn(rt: HostRuntime) {
    let alloc = rt.alloc();
    let (tickets, (left, right)) = four_seats(&rt, alloc);
    let (mut a, mut b) = left;
    let (mut c, d) = right;
    assert!(rt; drawn_in_turn(&tickets, &mut a, &mut b, &mut c) == [0, 1, 2, 3, 4]);
    assert!(rt; closed(&rt, alloc, tickets, ((a, b), (c, d))) == 5);
}

/// A seat after four draws, and the numbers.
type Four = (Seat, [u64; 4]);

/// Draws four numbers.
fn four(tickets: &Tickets, seat: Seat) -> Four
    requires of { IsSeatOf tickets.now seat }
    requires none { drawn_of seat ≡ [] }
    ensures { IsSeatOf tickets.now result.0 }
{
    let mut seat = seat;
    let numbers = [
        tickets.draw(&mut seat).number(),
        tickets.draw(&mut seat).number(),
        tickets.draw(&mut seat).number(),
        tickets.draw(&mut seat).number(),
    ];
    (seat, numbers)
}

/// Draws with two seats in two threads.
fn by_two<R: Threads>(rt: &R, tickets: &Tickets, a: Seat, b: Seat) -> (Four, Four)
    requires first { IsSeatOf tickets.now a × (drawn_of a ≡ []) }
    requires second { IsSeatOf tickets.now b × (drawn_of b ≡ []) }
    ensures { IsSeatOf tickets.now result.0.0 × IsSeatOf tickets.now result.1.0 }
{
    join(
        rt,
        move || -> Four
            requires { IsSeatOf tickets.now a × (drawn_of a ≡ []) }
            ensures { IsSeatOf tickets.entry.now result.0 }
        { four(tickets, a) },
        move || -> Four
            requires { IsSeatOf tickets.now b × (drawn_of b ≡ []) }
            ensures { IsSeatOf tickets.entry.now result.0 }
        { four(tickets, b) },
    )
}

/// Draws with four seats in four threads.
fn by_four<R: Threads + Sync>(
    rt: &R,
    tickets: &Tickets,
    left: (Seat, Seat),
    right: (Seat, Seat),
) -> ((Four, Four), (Four, Four))
    requires a { IsSeatOf tickets.now left.0 × (drawn_of left.0 ≡ []) }
    requires b { IsSeatOf tickets.now left.1 × (drawn_of left.1 ≡ []) }
    requires c { IsSeatOf tickets.now right.0 × (drawn_of right.0 ≡ []) }
    requires d { IsSeatOf tickets.now right.1 × (drawn_of right.1 ≡ []) }
    ensures left { IsSeatOf tickets.now result.0.0.0 × IsSeatOf tickets.now result.0.1.0 }
    ensures right { IsSeatOf tickets.now result.1.0.0 × IsSeatOf tickets.now result.1.1.0 }
{
    let (a, b) = left;
    let (c, d) = right;
    join(
        rt,
        move || -> (Four, Four)
            requires { IsSync R.row
                × (IsSeatOf tickets.now a × (drawn_of a ≡ []))
                × (IsSeatOf tickets.now b × (drawn_of b ≡ [])) }
            ensures { IsSeatOf tickets.entry.now result.0.0 × IsSeatOf tickets.entry.now result.1.0 }
        { by_two(rt, tickets, a, b) },
        move || -> (Four, Four)
            requires { (IsSeatOf tickets.now c × (drawn_of c ≡ []))
                × (IsSeatOf tickets.now d × (drawn_of d ≡ [])) }
            ensures { IsSeatOf tickets.entry.now result.0.0 × IsSeatOf tickets.entry.now result.1.0 }
        { by_two(rt, tickets, c, d) },
    )
}

/// Returns the seats, and what each of them drew.
fn apart(left: (Four, Four), right: (Four, Four)) -> (Seats, [[u64; 4]; 4])
    ensures left { (result.0.0.0 ≡ left.0.0) × (result.0.0.1 ≡ left.1.0) }
    ensures right { (result.0.1.0 ≡ right.0.0) × (result.0.1.1 ≡ right.1.0) }
{
    let (one, two) = left;
    let (three, four) = right;
    let (a, first) = one;
    let (b, second) = two;
    let (c, third) = three;
    let (d, fourth) = four;
    (((a, b), (c, d)), [first, second, third, fourth])
}

/// Returns whether each number below 16 is in one row.
fn has_each(rows: &[[u64; 4]]) -> bool {
    (0..16u64).all(|number| rows.iter().filter(|row| row.contains(&number)).count() == 1)
}

#[test]
fn four_threads_draw_each_number_once(rt: HostRuntime) {
    let alloc = rt.alloc();
    let (tickets, (left, right)) = four_seats(&rt, alloc);
    let (left, right) = by_four(&rt, &tickets, left, right);
    let (seats, rows) = apart(left, right);
    assert!(rt; has_each(&rows));
    assert!(rt; closed(&rt, alloc, tickets, seats) == 16);
}
