//! Which accesses of a program may run together.

use crate::tests::{compare, typed};
use effects::summaries::summarize;
use parallel_relation::meeting::Meeting;
use parallel_relation::meetings::{meetings, meetings_at};
use types::ids::ProcedureId;

/// A callee's async continues after the call.
const CALLED_WRITER: &str = "proc g(mut s: int) { async { s[0] = 1; } }
main { array a: int[1]; finish { g(a); a[0] = 2; } }";

#[test]
fn a_callees_async_meets_what_follows_the_call(rt: HostRuntime) {
    let alloc = rt.alloc();
    let typed = typed(&rt, alloc, CALLED_WRITER);
    let summaries = summarize(alloc, &typed).expect(&rt, "memory");
    let callee = meetings(alloc, &typed, &summaries, ProcedureId { number: 0 });
    assert!(rt; callee.expect(&rt, "memory").is_empty());
    let main = meetings(alloc, &typed, &summaries, ProcedureId { number: 1 });
    assert!(rt; is_of_writes(&main.expect(&rt, "memory"), 2, 5));
    let call = meetings_at(alloc, &typed, &summaries, 4).expect(&rt, "memory");
    assert!(rt; call.len() == 1);
    let store = meetings_at(alloc, &typed, &summaries, 5).expect(&rt, "memory");
    assert!(rt; store.is_empty());
}

/// Returns whether there is one meeting, of writes of the array of `main` at these labels.
fn is_of_writes(meetings: &[Meeting], one: u32, other: u32) -> bool {
    match meetings {
        [Meeting { first, second }] => {
            (first.label, first.section.number, first.write) == (one, 0, true)
                && (second.label, second.section.number, second.write) == (other, 0, true)
        }
        _ => false,
    }
}
