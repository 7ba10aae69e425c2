//! What the asyncs of a program need.

use crate::tests::typed;
use effects::summaries::summarize;
use sections::id::SectionId;

/// Doubles each element, half by half, each left half in a task.
const DOUBLING: &str = "proc twice(mut s: int) {
  if len(s) <= 1 {
    if len(s) == 1 { s[0] = s[0] * 2; }
  } else {
    split s at len(s) / 2 as l, r {
      async { twice(l); }
      twice(r);
    }
  }
}
main { array a: int[1024]; finish { twice(a); } }";

/// The left half is the first section after the parameter.
const LEFT: SectionId = SectionId { number: 1 };

#[test]
fn an_async_needs_the_half_that_it_doubles(rt: HostRuntime) {
    let alloc = rt.alloc();
    let typed = typed(&rt, alloc, DOUBLING);
    let summaries = summarize(alloc, &typed).expect(&rt, "memory");
    let needs = summaries.needs(5).expect(&rt, "the needs of an async");
    assert!(rt; needs.writes.as_slice() == [LEFT].as_slice());
    assert!(rt; needs.reads.is_empty());
    assert!(rt; summaries.needs(8).is_none(), "a finish");
}
