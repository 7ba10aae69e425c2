//! A row: a command, and its expected results.

ghost use Rattle.std.specs.Prelude.{false};

use crate::machine::TestMachine;
use driver::act::act;
use driver::clock::Stopwatch;
use driver::terminal::Terminal;
use statement_steps::watch::Watch;
use std::io;
use test_rows::bytes::text_of;
use test_rows::output::{Limit, Output, OutputEnd};
use test_rows::test_files::TestFiles;
use test_rows::wanted::ExpectedResults;
use test_rows::words::words_of;

/// A command of a group, and its expected results.
#[derive(Clone, Copy)]
pub struct TestRow<'a> {
    pub group: &'a str,
    pub command: &'a str,
    pub wanted: &'a ExpectedResults,
}

/// The results of a command.
#[derive(Drop)]
pub struct CommandResults {
    pub out: Output,
    pub err: Output,
    pub status: usize,
    looks: usize,
}

/// Two texts, a status, and the number of notifications of a watch: actual or expected ones.
#[derive(Clone, Copy)]
pub struct Answer<'a> {
    out: &'a [u8],
    err: &'a [u8],
    status: usize,
    looks: usize,
}

/// A watch that counts its notifications. It has a clock that advances only when it is read: at the
/// nth reading by 7 n modulo 11 microseconds.
#[derive(Drop)]
struct Counting {
    looks: usize,
    readings: u64,
    micros: u64,
}

impl Watch for Counting {
    ghost Told = { λ _ _ _. Unit {0} };

    fn look(&mut self, _steps: u64) {
        self.looks = self.looks.saturating_add(1);
    }

    ghost told_nothing = { λ _. tt };

    ghost told_more = { λ _ _ _ _ _ _ _. tt };
}

impl Stopwatch for Counting {
    fn micros(&mut self) -> u64 {
        self.readings = self.readings.saturating_add(1);
        let step = self.readings.saturating_mul(7) % 11;
        self.micros = self.micros.saturating_add(step);
        self.micros
    }
}

impl Terminal for Counting {
    ghost seen = { λ _. false };

    fn is_terminal(&self) -> bool {
        false
    }

    fn has_colours(&self) -> bool {
        false
    }
}

impl TestRow<'_> {
    /// Returns whether the command has the expected results. If it hasn't, prints both.
    pub fn is_so<R: TestMachine>(&self, rt: &R, shelf: &mut TestFiles<'_, R>) -> io::Result<bool> {
        if self.wanted.is_swept {
            return self.is_so_swept(rt, shelf);
        }
        if !self.is_so_until(rt, shelf, OutputEnd::Fails)? {
            return Ok(false);
        }
        if self.wanted.out_left.is_none() && self.wanted.err_left.is_none() {
            return Ok(true);
        }
        self.is_so_until(rt, shelf, OutputEnd::TakesNothing)
    }

    /// Returns whether the command has the expected results on outputs that end in this way, if
    /// they end.
    fn is_so_until<R: TestMachine>(
        &self,
        rt: &R,
        shelf: &mut TestFiles<'_, R>,
        end: OutputEnd,
    ) -> io::Result<bool> {
        let out = Limit::of(self.wanted.out_left, end);
        let err = Limit::of(self.wanted.err_left, end);
        let told = self.told(rt, shelf, out, err)?;
        Ok(self.compare(rt, &told, self.whole())? && self.has_left(rt, shelf)?)
    }

    /// Returns whether the command has written the expected files. If it hasn't, prints the file.
    pub fn has_left<R: TestMachine>(&self, rt: &R, shelf: &TestFiles<'_, R>) -> io::Result<bool> {
        for file in &self.wanted.left {
            let wanted = text_of(&file.bytes);
            let left = shelf.written_to(&file.name).map(text_of);
            if left != Some(wanted) {
                println!(rt; "{}: {}", self.group, self.command)?;
                println!(rt; "  left in {}: {left:?}, wanted: {wanted:?}", file.name)?;
                return Ok(false);
            }
        }
        Ok(true)
    }

    /// Returns whether the command has the expected results on an output that accepts all bytes,
    /// and writes a prefix of them to each output that fails at an earlier call. The last of these
    /// fails at the flush, after the whole answer.
    fn is_so_swept<R: TestMachine>(
        &self,
        rt: &R,
        shelf: &mut TestFiles<'_, R>,
    ) -> io::Result<bool> {
        let mut taken = 0;
        for calls in 0..1_000 {
            let told = self.told(rt, shelf, Limit::Calls(calls), Limit::Never)?;
            if !told.out.has_failed {
                return Ok(self.compare(rt, &told, self.whole())? && self.has_flushed(rt, taken)?);
            }
            taken = told.out.taken.len();
            if !self.compare(rt, &told, self.beginning(taken))? {
                return Ok(false);
            }
        }
        println!(rt; "{}: {}\n  fails at each call", self.group, self.command)?;
        Ok(false)
    }

    /// Returns whether the last output to fail, which accepted so many bytes, failed after all of
    /// them.
    fn has_flushed<R: TestMachine>(&self, rt: &R, taken: usize) -> io::Result<bool> {
        if taken == self.wanted.out.len() {
            return Ok(true);
        }
        println!(rt; "{}: {}\n  doesn't flush", self.group, self.command)?;
        Ok(false)
    }

    /// Runs the command with these outputs.
    fn told<R: TestMachine>(
        &self,
        rt: &R,
        shelf: &mut TestFiles<'_, R>,
        out: Limit,
        err: Limit,
    ) -> io::Result<CommandResults> {
        let words = words_of(rt.alloc(), self.command)?;
        self.told_by(rt, shelf, &words, out, err)
    }

    /// Runs these arguments with these outputs.
    pub fn told_by<R: TestMachine>(
        &self,
        rt: &R,
        shelf: &mut TestFiles<'_, R>,
        words: &[String],
        out: Limit,
        err: Limit,
    ) -> io::Result<CommandResults> {
        let alloc = rt.alloc();
        let mut out = Output::new(alloc, out);
        let mut err = Output::new(alloc, err);
        let mut watch = Counting {
            looks: 0,
            readings: 0,
            micros: 0,
        };
        let status = act(rt, alloc, words, shelf, &mut out, &mut err, &mut watch);
        Ok(CommandResults {
            out,
            err,
            status: usize::from(status),
            looks: watch.looks,
        })
    }

    /// Returns all expected results.
    pub fn whole(&self) -> Answer<'_> {
        Answer {
            out: &self.wanted.out,
            err: &self.wanted.err,
            status: self.wanted.status,
            looks: self.wanted.looks,
        }
    }

    /// Returns the expected results if the output fails after so many bytes.
    fn beginning(&self, taken: usize) -> Answer<'_> {
        Answer {
            out: self.wanted.out.get(..taken).unwrap_or(&self.wanted.out),
            err: b"cannot write output\n",
            status: 1,
            looks: self.wanted.looks,
        }
    }

    /// Returns whether the results are as expected. If they aren't, prints both.
    pub fn compare<R: TestMachine>(
        &self,
        rt: &R,
        told: &CommandResults,
        wanted: Answer<'_>,
    ) -> io::Result<bool> {
        let told = Answer {
            out: &told.out.taken,
            err: &told.err.taken,
            status: told.status,
            looks: told.looks,
        };
        if told.equals(wanted) {
            return Ok(true);
        }
        println!(rt; "{}: {}", self.group, self.command)?;
        show(rt, "told", told)?;
        show(rt, "wanted", wanted)?;
        Ok(false)
    }
}

impl Answer<'_> {
    /// Returns whether two answers are equal.
    fn equals(&self, other: Answer<'_>) -> bool {
        self.out == other.out
            && self.err == other.err
            && self.status == other.status
            && self.looks == other.looks
    }
}

/// Prints an answer, each of its texts on one line.
fn show<R: TestMachine>(rt: &R, what: &str, answer: Answer<'_>) -> io::Result<()> {
    let out = text_of(answer.out);
    let err = text_of(answer.err);
    println!(rt;
        "  {what}: {out:?}, error {err:?}, status {}, {} looks",
        answer.status, answer.looks
    )
}
