//! Lines that report the progress of a run.

use printing::progress::Progress;
use statement_steps::watch::Watch;
use std::cell::Cell;
use std::io;
use std::time::{Clock, Duration};

/// A clock that advances by 200 ms each time that it is read.
#[derive(Drop)]
struct Ticks {
    read: Cell<u64>,
}

impl Clock for Ticks {
    fn monotonic(&self) -> io::Result<Duration> {
        let read = self.read.get().saturating_add(1);
        self.read.set(read);
        Ok(Duration::from_millis(read.saturating_mul(200)))
    }

    fn since_1970(&self) -> io::Result<Duration> {
        self.monotonic()
    }
}

#[test]
fn lines_come_twice_a_second(rt: HostRuntime) {
    let alloc = rt.alloc();
    let clock = Ticks { read: Cell::new(0) };
    let mut progress = Progress::new(alloc, clock, Some(Vec::new(alloc)));
    for steps in [1000, 2000, 3000, 4000, 5000, 6000, 7000] {
        progress.look(steps);
    }
    let lines = progress.into_lines().expect(&rt, "lines");
    assert!(rt; lines.as_slice() == b"3000 steps, 0.6 s\n6000 steps, 1.2 s\n".as_slice());
}
