//! Outputs that keep what they accept, and may end.

ghost use Rattle.std.specs.Prelude.{◌≤◌, IfOk, length};

use std::alloc::Global;
use std::io;
use std::io::ErrorKind;

/// The way in which an output ends.
#[derive(Clone, Copy)]
pub enum OutputEnd {
    /// It returns an error.
    Fails,
    /// It accepts nothing.
    TakesNothing,
}

/// The limit after which an output ends.
#[derive(Clone, Copy)]
pub enum Limit {
    /// Never.
    Never,
    /// After so many bytes, of which it accepts one per call.
    Bytes(usize, OutputEnd),
    /// After so many calls of `write` and of `flush`: then each call fails.
    Calls(usize),
}

impl Limit {
    /// Returns the limit of so many bytes, if there is a number.
    pub fn of(left: Option<usize>, end: OutputEnd) -> Limit {
        match left {
            None => Limit::Never,
            Some(left) => Limit::Bytes(left, end),
        }
    }
}

/// An output that keeps its bytes.
#[derive(Drop)]
pub struct Output {
    pub taken: Vec<u8>,
    pub has_failed: bool,
    left: Limit,
}

impl Output {
    /// Returns an output that has accepted nothing yet.
    pub fn new(alloc: Global, left: Limit) -> Output {
        Output {
            taken: Vec::new(alloc),
            has_failed: false,
            left,
        }
    }

    /// Accepts all of these bytes.
    fn take(&mut self, bytes: &[u8]) -> io::Result<usize>
        ensures { IfOk result (λ count. count ≤ length bytes.now) }
    {
        self.taken.extend_from_slice(bytes)?;
        Ok(bytes.len())
    }

    /// Accepts the first of these bytes, if there is one.
    fn take_first(&mut self, bytes: &[u8]) -> io::Result<usize>
        ensures { IfOk result (λ count. count ≤ length bytes.now) }
    {
        let Some(byte) = bytes.first() else {
            return Ok(0);
        };
        self.taken.push(*byte)?;
        Ok(1)
    }

    /// Returns an error.
    fn fail(&mut self) -> io::Error {
        self.has_failed = true;
        io::Error::from(ErrorKind::Other)
    }
}

impl io::Write for Output {
    fn write(&mut self, bytes: &[u8]) -> io::Result<usize> {
        match self.left {
            Limit::Never => self.take(bytes),
            Limit::Bytes(0, OutputEnd::TakesNothing) => Ok(0),
            Limit::Bytes(0, OutputEnd::Fails) => Err(self.fail()),
            Limit::Bytes(left, end) => {
                self.left = Limit::Bytes(left - 1, end);
                self.take_first(bytes)
            }
            Limit::Calls(0) => Err(self.fail()),
            Limit::Calls(left) => {
                self.left = Limit::Calls(left - 1);
                self.take(bytes)
            }
        }
    }

    fn flush(&mut self) -> io::Result<()> {
        match self.left {
            Limit::Calls(0) => Err(self.fail()),
            Limit::Calls(left) => {
                self.left = Limit::Calls(left - 1);
                Ok(())
            }
            _ => Ok(()),
        }
    }
}
