//! A table: a text of groups, each with its files and its rows.

use crate::machine::TestMachine;
use crate::row::TestRow;
use std::io::ErrorKind;
use std::{fs, io};
use test_rows::bytes::not_understood;
use test_rows::test_files::TestFiles;
use test_rows::wanted::ExpectedResults;

/// How to run the commands of a table.
#[derive(Clone, Copy, PartialEq, Eq)]
pub enum Way {
    /// As they are.
    Plain,
    /// With `--explain`, if they take it.
    Explained,
    /// With `--format json`, only those that can answer as an object.
    AsObjects,
}

/// Runs the rows of a table in the folder `rows`, and prints the number of rows, or which of them
/// fail.
pub fn compare<R: TestMachine>(rt: &R, name: &str, way: Way) -> io::Result<()> {
    let path = format!(in rt.alloc(); "rows/{name}")?;
    let text = fs::read_to_string(rt, path.as_str())?;
    let mut table = Table::new(rt, way);
    let mut number = 0u64;
    for line in text.split('\n') {
        number = number.saturating_add(1);
        if !is_understood(table.read(line))? {
            return println!(rt; "{name}: line {number} is not understood");
        }
    }
    table.end()?;
    match table.wrong {
        0 if way == Way::Explained => {
            println!(rt; "{name}: {} rows tell the same with --explain", table.rows)
        }
        0 if way == Way::AsObjects => {
            println!(rt; "{name}: {} objects say what their rows say", table.rows)
        }
        0 => println!(rt; "{name}: {} rows answer as they say", table.rows),
        wrong => println!(rt; "{name}: {wrong} of {} rows answer otherwise", table.rows),
    }
}

/// Returns whether a line was understood. An error that isn't about the line is passed on.
fn is_understood(read: io::Result<()>) -> io::Result<bool> {
    match read {
        Ok(()) => Ok(true),
        Err(error) => match error.kind() {
            ErrorKind::InvalidData => Ok(false),
            _ => Err(error),
        },
    }
}

/// What a line can be added to.
#[derive(Clone, Copy)]
enum Open {
    Nothing,
    /// The last file of the shelf.
    File,
    /// The commands, or their expected results.
    Commands,
    /// The expected results of the commands.
    Wanted,
}

/// A table, as far as it has been parsed.
#[derive(Drop)]
struct Table<'t, R> {
    rt: &'t R,
    way: Way,
    shelf: TestFiles<'t, R>,
    group: &'t str,
    /// Commands that must have the same results.
    commands: Vec<&'t str>,
    wanted: ExpectedResults,
    open: Open,
    rows: u64,
    /// The number of rows that fail.
    wrong: u64,
}

impl<'t, R: TestMachine> Table<'t, R> {
    /// Returns an empty table.
    fn new(rt: &'t R, way: Way) -> Table<'t, R> {
        Table {
            rt,
            way,
            shelf: TestFiles::new(rt),
            group: "",
            commands: Vec::new(rt.alloc()),
            wanted: ExpectedResults::new(rt.alloc()),
            open: Open::Nothing,
            rows: 0,
            wrong: 0,
        }
    }

    /// Parses a line.
    fn read(&mut self, line: &'t str) -> io::Result<()> {
        if line.is_empty() || line.starts_with("//") {
            Ok(())
        } else if let Some(group) = line.strip_prefix("## ") {
            self.begin_group(group)
        } else if let Some(file) = line.strip_prefix("file ") {
            self.begin_file(file)
        } else if line == "$ afx" || line.starts_with("$ afx ") {
            self.take_command(line)
        } else {
            self.add(line)
        }
    }

    /// Starts a group.
    fn begin_group(&mut self, group: &'t str) -> io::Result<()> {
        self.end()?;
        self.shelf.begin_group();
        self.group = group;
        Ok(())
    }

    /// Starts a file.
    fn begin_file(&mut self, file: &'t str) -> io::Result<()> {
        self.end()?;
        self.shelf.begin_file(file)?;
        self.open = Open::File;
        Ok(())
    }

    /// Adds a command to others that must have the same results, or as the first.
    fn take_command(&mut self, command: &'t str) -> io::Result<()> {
        match self.open {
            Open::Commands => {}
            _ => self.end()?,
        }
        self.commands.push(command)?;
        self.open = Open::Commands;
        Ok(())
    }

    /// Adds a line to the open file, or to the open commands or their expected results.
    fn add(&mut self, line: &str) -> io::Result<()> {
        match self.open {
            Open::Nothing => Err(not_understood()),
            Open::File => self.shelf.read_line(line),
            Open::Commands | Open::Wanted => {
                self.open = Open::Wanted;
                self.wanted.read(line)
            }
        }
    }

    /// Runs the commands that are there, and removes them.
    fn end(&mut self) -> io::Result<()> {
        for command in &self.commands {
            let row = TestRow {
                group: self.group,
                command: *command,
                wanted: &self.wanted,
            };
            let is_so = match self.way {
                Way::Plain => row.is_so(self.rt, &mut self.shelf)?,
                Way::Explained => row.is_so_explained(self.rt, &mut self.shelf)?,
                Way::AsObjects if !row.has_object() => continue,
                Way::AsObjects => row.is_so_as_object(self.rt, &mut self.shelf)?,
            };
            self.rows = self.rows.saturating_add(1);
            if !is_so {
                self.wrong = self.wrong.saturating_add(1);
            }
        }
        self.commands.clear();
        self.wanted = ExpectedResults::new(self.rt.alloc());
        self.open = Open::Nothing;
        Ok(())
    }
}
