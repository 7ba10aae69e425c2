//! Rows with `--format json`: whether the object of a command matches the row.

use crate::machine::TestMachine;
use crate::row::{CommandResults, TestRow};
use serde_json::Value;
use std::alloc::{AllocError, Global};
use std::io;
use test_rows::bytes::text_of;
use test_rows::objects_told::{is_placed, plain_of};
use test_rows::output::Limit;
use test_rows::races_told::is_explained;
use test_rows::test_files::TestFiles;
use test_rows::words::words_of;

impl TestRow<'_> {
    /// Returns whether this is a row of a command that can answer as an object, with outputs that
    /// accept all bytes, and with correct arguments.
    pub fn has_object(&self) -> bool {
        let wanted = self.wanted;
        let asks_otherwise = self.command.contains(" --list")
            || self.command.contains(" --accesses")
            || self.command.contains(" --all")
            || self.command.contains(" --by-")
            || self.command.contains(" --format");
        let has_outputs = wanted.out_left.is_none()
            && wanted.err_left.is_none()
            && !wanted.is_swept;
        let is_understood = !wanted.err.starts_with(b"error: ");
        let command = self.command.split(' ').nth(2).unwrap_or("");
        tells_object(command) && !asks_otherwise && has_outputs && is_understood
    }

    /// Returns whether the answer of the command with `--format json` matches the row. If it
    /// doesn't, prints the object.
    pub fn is_so_as_object<R: TestMachine>(
        &self,
        rt: &R,
        shelf: &mut TestFiles<'_, R>,
    ) -> io::Result<bool> {
        let alloc = rt.alloc();
        let words = object_words(alloc, self.command)?;
        let told = self.told_by(rt, shelf, &words, Limit::Never, Limit::Never)?;
        let out = text_of(&told.out.taken);
        let is_so = match Value::from_str(alloc, out) {
            Ok(object) => {
                let listing = self.told_of_file(rt, shelf, "list --lines")?;
                self.says(alloc, &told, &object)?
                    && is_placed(&object, text_of(&listing.out.taken))
                    && self.is_race_explained(rt, shelf, &object)?
            }
            Err(_) => false,
        };
        if !is_so {
            println!(rt; "{}: {} --format json\n  {out:?}", self.group, self.command)?;
        }
        Ok(is_so && self.has_left(rt, shelf)?)
    }

    /// Returns whether `check --explain` matches the witness of a race, if the object is one.
    fn is_race_explained<R: TestMachine>(
        &self,
        rt: &R,
        shelf: &mut TestFiles<'_, R>,
        object: &Value,
    ) -> io::Result<bool> {
        match object.get("race") {
            Some(race) => {
                let told = self.told_of_file(rt, shelf, "check --explain")?;
                Ok(is_explained(rt.alloc(), race, text_of(&told.err.taken))?)
            }
            None => Ok(true),
        }
    }

    /// Runs a command, with its options, on the program of this command.
    fn told_of_file<R: TestMachine>(
        &self,
        rt: &R,
        shelf: &mut TestFiles<'_, R>,
        command: &str,
    ) -> io::Result<CommandResults> {
        let alloc = rt.alloc();
        let file = file_in(self.command);
        let words = words_of(alloc, &format!(in alloc; "$ afx {command} {file}")?)?;
        self.told_by(rt, shelf, &words, Limit::Never, Limit::Never)
    }

    /// Returns whether an object matches the row: its status, and its output or its message; and
    /// whether the standard error is the same as without an object.
    fn says(
        &self,
        alloc: Global,
        told: &CommandResults,
        object: &Value,
    ) -> Result<bool, AllocError> {
        let wanted = self.wanted;
        let out = text_of(&wanted.out);
        let status = object.get("status").and_then(Value::as_u64);
        if told.err.taken != wanted.err
            || told.status != wanted.status
            || status != Some(wanted.status as u64)
        {
            return Ok(false);
        }
        match object.get("message").and_then(Value::as_str) {
            Some(message) => {
                let line = text_of(&wanted.err).lines().next();
                Ok(out.is_empty() && line == Some(message))
            }
            None => Ok(plain_of(alloc, object, out)?.as_str() == out),
        }
    }
}

/// Returns the file of the program that a command names.
fn file_in(command: &str) -> &str {
    for word in command.split(' ').skip(3) {
        if word.ends_with(".afx") {
            return word;
        }
    }
    "-"
}

/// Returns whether a command can answer as an object.
fn tells_object(command: &str) -> bool {
    match command {
        "run" | "serial" | "check" | "cost" | "mhp" => true,
        _ => false,
    }
}

/// Returns the arguments of a command line with `--format json` after the command.
fn object_words(alloc: Global, command: &str) -> io::Result<Vec<String>> {
    let mut words = words_of(alloc, command)?;
    if words.is_empty() {
        return Ok(words);
    }
    words.insert(1, String::from_str(alloc, "--format")?)?;
    words.insert(2, String::from_str(alloc, "json")?)?;
    Ok(words)
}
