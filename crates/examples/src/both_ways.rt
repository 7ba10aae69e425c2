//! Rows with `--explain`: only the standard error changes, by text after the expected text.

use crate::machine::TestMachine;
use crate::row::TestRow;
use std::alloc::Global;
use std::io;
use test_rows::output::{Limit, OutputEnd};
use test_rows::test_files::TestFiles;
use test_rows::words::words_of;

impl TestRow<'_> {
    /// Returns whether the command with `--explain` has the same results, leaves the same files,
    /// and writes more only to the standard error, after the expected text. With status 0 it must
    /// write nothing more. Commands without this option pass too, and so do mistakes in arguments,
    /// because `clap` reports mistakes for all arguments together.
    pub fn is_so_explained<R: TestMachine>(
        &self,
        rt: &R,
        shelf: &mut TestFiles<'_, R>,
    ) -> io::Result<bool> {
        let Some(words) = explaining_words(rt.alloc(), self.command)? else {
            return self.is_so(rt, shelf);
        };
        if self.wanted.err.starts_with(b"error: ") {
            return Ok(true);
        }
        let out = Limit::of(self.wanted.out_left, OutputEnd::Fails);
        let err = Limit::of(self.wanted.err_left, OutputEnd::Fails);
        let mut told = self.told_by(rt, shelf, &words, out, err)?;
        if told.status != 0 && told.err.taken.starts_with(&self.wanted.err) {
            told.err.taken.truncate(self.wanted.err.len());
        }
        Ok(self.compare(rt, &told, self.whole())? && self.has_left(rt, shelf)?)
    }
}

/// Returns the arguments of a command line with `--explain` after the command, or None if the
/// command doesn't take it, or has it already.
fn explaining_words(alloc: Global, command: &str) -> io::Result<Option<Vec<String>>> {
    let mut words = words_of(alloc, command)?;
    match words.first() {
        Some(first) if takes_explain(first.as_str()) => {}
        _ => return Ok(None),
    }
    if words
        .iter()
        .any(|word| word.as_str().starts_with("--explain"))
    {
        return Ok(None);
    }
    words.insert(1, String::from_str(alloc, "--explain")?)?;
    Ok(Some(words))
}

/// Returns whether a command takes `--explain`.
fn takes_explain(command: &str) -> bool {
    match command {
        "check"
        | "fmt"
        | "list"
        | "mhp"
        | "run"
        | "serial"
        | "bench"
        | "explore"
        | "walk"
        | "view" => true,
        _ => false,
    }
}
