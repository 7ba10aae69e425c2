//! A line at the terminal that shows how long a command has worked.

ghost use Rattle.std.specs.Prelude.{◌≡◌};

use printing::emit::append;
use std::io;
use std::io::Write;
use std::sync::{Condvar, Mutex, Wait};
use std::time::{Clock, Duration};

/// The maximum number of times that a line is shown: it is shown for more than a day.
const MOST_TIMES: u64 = 100_000;

/// Erases the line of a terminal.
const ERASE: &[u8] = b"\r\x1b[K";

/// Shows each second how long a command has worked, until it writes something or has ended.
#[derive(Drop)]
pub struct Ticker<W: Write> {
    line: Mutex<Line<W>>,
    over: Condvar,
}

/// The line of a terminal.
#[derive(Drop)]
struct Line<W: Write> {
    terminal: W,
    is_shown: bool,
    is_over: bool,
}

impl<W: Write> Line<W> {
    /// Shows how many seconds a command has worked, as far as the terminal accepts it.
    fn show(&mut self, command: &str, seconds: u64) {
        self.is_shown = true;
        let _ = write!(&mut self.terminal, "\r{command}: {seconds} s");
        let _ = self.terminal.flush();
    }

    /// Erases the line, if it is shown.
    fn erase(&mut self) {
        if self.is_shown {
            self.is_shown = false;
            let _ = append(&mut self.terminal, ERASE);
        }
    }
}

impl<W: Write> Ticker<W> {
    /// Returns a ticker that shows nothing yet.
    pub fn new(terminal: W) -> Ticker<W> {
        Ticker {
            line: Mutex::new(Line {
                terminal,
                is_shown: false,
                is_over: false,
            }),
            over: Condvar::new(),
        }
    }

    /// Shows the line each second, until the command is over.
    pub fn tick<R: Wait + Clock>(&self, rt: &R, command: &str) {
        let second = Duration::from_secs(1);
        let mut line = self.line.lock(rt);
        for seconds in 1..MOST_TIMES {
            line = self
                .over
                .wait_timeout_while(rt, line, second, |line| !line.is_over)
                .0;
            if line.is_over {
                return;
            }
            line.show(command, seconds);
        }
    }

    /// Erases the line. It isn't shown again.
    pub fn end<R: Wait>(&self, rt: &R) {
        let mut line = self.line.lock(rt);
        line.is_over = true;
        line.erase();
        drop(line);
        self.over.notify_all();
    }
}

/// A writer of what a command writes. Before the first byte the line of a ticker is erased, if there
/// is one.
#[derive(Drop)]
pub struct Erasing<'t, R: Wait, T: Write, W: Write> {
    rt: &'t R,
    ticker: Option<&'t Ticker<T>>,
    inner: W,
}

impl<'t, R: Wait, T: Write, W: Write> Erasing<'t, R, T, W> {
    /// Returns a writer that writes to this one.
    pub fn new(rt: &'t R, ticker: Option<&'t Ticker<T>>, inner: W) -> Erasing<'t, R, T, W>
        ensures { result.inner ≡ inner }
    {
        Erasing { rt, ticker, inner }
    }
}

impl<R: Wait, T: Write, W: Write> Write for Erasing<'_, R, T, W> {
    ghost contents = { λ w. W.contents w.inner };

    fn write(&mut self, buf: &[u8]) -> io::Result<usize> {
        if let Some(ticker) = self.ticker {
            ticker.end(self.rt);
        }
        self.inner.write(buf)
    }

    fn flush(&mut self) -> io::Result<()> {
        self.inner.flush()
    }
}
