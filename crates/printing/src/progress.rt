//! Lines that report the progress of a run.

use crate::emit::append;
use statement_steps::watch::Watch;
use std::alloc::Global;
use std::io::Write;
use std::time::{Clock, Duration, Instant};

/// The minimum time between two lines, in milliseconds.
const BETWEEN: u64 = 500;

/// Writes a line at most twice a second: how many steps are done, and how many seconds have passed.
#[derive(Drop)]
pub struct Progress<C: Clock, W: Write> {
    alloc: Global,
    clock: C,
    /// None if nobody reads the lines.
    lines: Option<W>,
    /// None if the clock can't be read.
    start: Option<Instant>,
    /// The time from the start to the last line.
    told: Duration,
}

impl<C: Clock + Drop, W: Write + Drop> Progress<C, W> {
    /// Starts to report on a run that starts now.
    pub fn new(alloc: Global, clock: C, lines: Option<W>) -> Progress<C, W> {
        let start = Instant::now(&clock).ok();
        Progress {
            alloc,
            clock,
            lines,
            start,
            told: Duration::ZERO,
        }
    }

    /// Returns the writer of the lines.
    pub fn into_lines(self) -> Option<W> {
        self.lines
    }
}

impl<C: Clock, W: Write> Watch for Progress<C, W> {
    ghost Told = { λ _ _ _. Unit {0} };

    fn look(&mut self, steps: u64) {
        let (Some(lines), Some(start)) = (&mut self.lines, self.start) else {
            return;
        };
        let Ok(time) = start.elapsed(&self.clock) else {
            return;
        };
        if time.saturating_sub(self.told) < Duration::from_millis(BETWEEN) {
            return;
        }
        self.told = time;
        let tenths = time.subsec_millis() / 100;
        // A line is left out if there is no memory for it or it can't be written.
        if let Ok(line) = format!(in self.alloc; "{steps} steps, {}.{tenths} s\n", time.as_secs()) {
            let _ = append(lines, line.as_bytes());
        }
    }

    ghost told_nothing = { λ _. tt };

    ghost told_more = { λ _ _ _ _ _ _ _. tt };
}
