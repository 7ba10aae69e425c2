//! The expected results of a command in a table.

use crate::bytes::{not_understood, number_in, push_spelled};
use std::alloc::Global;
use std::io;

/// A file that a command must have written.
#[derive(Drop)]
pub struct LeftFile {
    pub name: String,
    pub bytes: Vec<u8>,
}

/// The expected output and status of a command, and which outputs it gets.
#[derive(Drop)]
pub struct ExpectedResults {
    alloc: Global,
    pub out: Vec<u8>,
    pub err: Vec<u8>,
    pub status: usize,
    /// The number of times that its watch is notified.
    pub looks: usize,
    /// The number of bytes that the standard output accepts, if it ends.
    pub out_left: Option<usize>,
    /// The number of bytes that the standard error accepts, if it ends.
    pub err_left: Option<usize>,
    /// The files that it must have written.
    pub left: Vec<LeftFile>,
    /// Whether the command runs with outputs that fail at each of their calls in turn.
    pub is_swept: bool,
}

impl ExpectedResults {
    /// Returns no output, and status 0.
    pub fn new(alloc: Global) -> ExpectedResults {
        ExpectedResults {
            alloc,
            out: Vec::new(alloc),
            err: Vec::new(alloc),
            status: 0,
            looks: 0,
            out_left: None,
            err_left: None,
            left: Vec::new(alloc),
            is_swept: false,
        }
    }

    /// Parses a line: the output (`>`, `!`), the status (`=`), the number of notifications of a
    /// watch (`~`), the kind of outputs (`%`), or a file that is written (`@`) with its lines
    /// (`|`).
    pub fn read(&mut self, line: &str) -> io::Result<()> {
        if let Some(spelled) = line.strip_prefix('>') {
            push_spelled(self.alloc, &mut self.out, spelled)
        } else if let Some(spelled) = line.strip_prefix('!') {
            push_spelled(self.alloc, &mut self.err, spelled)
        } else if let Some(status) = line.strip_prefix("= ") {
            self.status = number_in(status)?;
            Ok(())
        } else if let Some(looks) = line.strip_prefix("~ ") {
            self.looks = number_in(looks)?;
            Ok(())
        } else if let Some(outputs) = line.strip_prefix("% ") {
            self.lend(outputs)
        } else if let Some(name) = line.strip_prefix("@ ") {
            self.begin_left(name)
        } else if let Some(spelled) = line.strip_prefix('|') {
            match self.left.last_mut() {
                Some(file) => push_spelled(self.alloc, &mut file.bytes, spelled),
                None => Err(not_understood()),
            }
        } else {
            Err(not_understood())
        }
    }

    /// Starts a file that must have been written.
    fn begin_left(&mut self, name: &str) -> io::Result<()> {
        self.left.push(LeftFile {
            name: String::from_str(self.alloc, name)?,
            bytes: Vec::new(self.alloc),
        })?;
        Ok(())
    }

    /// Parses the kind of outputs: `out 3`, `err 6` or `sweep`.
    fn lend(&mut self, outputs: &str) -> io::Result<()> {
        match outputs.split_once(' ') {
            Some(("out", left)) => self.out_left = Some(number_in(left)?),
            Some(("err", left)) => self.err_left = Some(number_in(left)?),
            None if outputs == "sweep" => self.is_swept = true,
            _ => return Err(not_understood()),
        }
        Ok(())
    }
}
