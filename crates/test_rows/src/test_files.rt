//! The files that a row's command can use: those of its table, those that a command of its group
//! wrote, and those of the machine.

ghost use Rattle.std.specs.Prelude.{◌≤◌, IfOk, length};

use crate::bytes::{not_understood, push_spelled};
use files::file_source::{FileError, FileSource, Unreadable};
use std::alloc::{AllocError, Global};
use std::io;
use std::rt::Files;
use test_and_bench::folders::{FolderSource, MachineFolders};

/// The contents of a file, as a reader gets them.
#[derive(Drop)]
enum Contents {
    Bytes(Vec<u8>),
    /// There is no memory for it.
    NoMemory,
    /// It gives as many bytes as are read, and these are not text.
    Endless,
}

/// A file of a table.
#[derive(Drop)]
struct TableFile<'t> {
    name: &'t str,
    contents: Contents,
}

/// A file that a command wrote.
#[derive(Drop)]
struct WrittenFile {
    name: String,
    bytes: Vec<u8>,
}

/// The files of a table, of which the last with a name counts, and those of the machine. Only this
/// shelf stores what a command writes.
#[derive(Drop)]
pub struct TestFiles<'t, R> {
    alloc: Global,
    machine: MachineFolders<'t, R>,
    files: Vec<TableFile<'t>>,
    written: Vec<WrittenFile>,
    /// The number of files before the first group, once that has started.
    lasting: Option<usize>,
}

impl<'t, R: AllocGlobal> TestFiles<'t, R> {
    /// Returns a shelf without files of a table.
    pub fn new(rt: &'t R) -> TestFiles<'t, R> {
        TestFiles {
            alloc: rt.alloc(),
            machine: MachineFolders::new(rt),
            files: Vec::new(rt.alloc()),
            written: Vec::new(rt.alloc()),
            lasting: None,
        }
    }

    /// Starts a file: `program.afx`, `heavy.afx: no memory` or `endless.afx: endless`.
    pub fn begin_file(&mut self, said: &'t str) -> io::Result<()> {
        let file = file_said(self.alloc, said);
        self.files.push(file)?;
        Ok(())
    }

    /// Adds a line to the file that was started last.
    pub fn read_line(&mut self, line: &str) -> io::Result<()> {
        let Some(spelled) = line.strip_prefix('|') else {
            return Err(not_understood());
        };
        let Some(file) = self.files.last_mut() else {
            return Err(not_understood());
        };
        match &mut file.contents {
            Contents::Bytes(bytes) => push_spelled(self.alloc, bytes, spelled),
            _ => Err(not_understood()),
        }
    }

    /// Removes the files of the group before. Those before the first group stay.
    pub fn begin_group(&mut self) {
        self.written.clear();
        match self.lasting {
            None => self.lasting = Some(self.files.len()),
            Some(lasting) => self.files.truncate(lasting),
        }
    }

    /// Returns what a command last wrote to the file with a name.
    pub fn written_to(&self, name: &str) -> Option<&[u8]> {
        written_in(&self.written, name)
    }
}

/// Returns what was last written to the file with a name.
fn written_in<'f>(files: &'f [WrittenFile], name: &str) -> Option<&'f [u8]> {
    for file in files.iter().rev() {
        if file.name.as_str() == name {
            return Some(&file.bytes);
        }
    }
    None
}

/// Stores what a command writes.
fn keep(
    alloc: Global,
    files: &mut Vec<WrittenFile>,
    name: &str,
    bytes: &[u8],
) -> Result<(), FileError> {
    let bytes = copied(alloc, bytes)?;
    let Ok(name) = String::from_str(alloc, name) else {
        return Err(FileError::NoMemory);
    };
    match files.push(WrittenFile { name, bytes }) {
        Ok(()) => Ok(()),
        Err(_) => Err(FileError::NoMemory),
    }
}

/// Returns the file that a line of a table specifies.
fn file_said(alloc: Global, said: &str) -> TableFile<'_> {
    match said.split_once(": ") {
        Some((name, "no memory")) => TableFile {
            name,
            contents: Contents::NoMemory,
        },
        Some((name, "endless")) => TableFile {
            name,
            contents: Contents::Endless,
        },
        _ => TableFile {
            name: said,
            contents: Contents::Bytes(Vec::new(alloc)),
        },
    }
}

/// Returns the contents of the last file with a name.
fn contents_of<'f>(files: &'f [TableFile<'_>], name: &str) -> Option<&'f Contents> {
    for file in files.iter().rev() {
        if file.name == name {
            return Some(&file.contents);
        }
    }
    None
}

impl<R: Files + Input + AllocGlobal> FileSource for TestFiles<'_, R> {
    fn read(&mut self, name: &str) -> Result<Vec<u8>, FileError> {
        if let Some(bytes) = written_in(&self.written, name) {
            return copied(self.alloc, bytes);
        }
        match contents_of(&self.files, name) {
            None => self.machine.read(name),
            Some(Contents::Bytes(bytes)) => copied(self.alloc, bytes),
            Some(Contents::NoMemory) => Err(FileError::NoMemory),
            Some(Contents::Endless) => Err(FileError::Failed),
        }
    }

    fn read_first(&mut self, name: &str, most: usize) -> Result<Vec<u8>, FileError> {
        if let Some(bytes) = written_in(&self.written, name) {
            return first_of(self.alloc, bytes, most);
        }
        match contents_of(&self.files, name) {
            None => self.machine.read_first(name, most),
            Some(Contents::Bytes(bytes)) => first_of(self.alloc, bytes, most),
            Some(Contents::NoMemory) => Err(FileError::NoMemory),
            Some(Contents::Endless) => {
                Vec::from_elem(self.alloc, 0xff, most).map_err(|_| FileError::NoMemory)
            }
        }
    }

    /// Writes a file. It fails for the standard input, for a file without memory, and for an
    /// endless one.
    fn write(&mut self, name: &str, bytes: &[u8]) -> Result<(), FileError> {
        if name == "-" {
            return Err(FileError::Failed);
        }
        match contents_of(&self.files, name) {
            None | Some(Contents::Bytes(_)) => keep(self.alloc, &mut self.written, name, bytes),
            Some(Contents::NoMemory) => Err(FileError::NoMemory),
            Some(Contents::Endless) => Err(FileError::Failed),
        }
    }

    /// Only a file of the machine is missing, is a folder or may not be read.
    fn unreadable(&self, name: &str) -> Unreadable {
        match contents_of(&self.files, name) {
            None => self.machine.unreadable(name),
            Some(_) => Unreadable::Otherwise,
        }
    }
}

impl<R: Files + Input + AllocGlobal + Clone + Drop> FolderSource for TestFiles<'_, R> {
    /// Returns the names after the folder's name: `one.afx` of `tests/one.afx`. If the table has no
    /// file in a folder, the folder is the machine's. A folder without memory is specified like a
    /// file.
    fn names(&mut self, folder: &str) -> Result<Vec<String>, FileError> {
        if let Some(Contents::NoMemory) = contents_of(&self.files, folder) {
            return Err(FileError::NoMemory);
        }
        match names_behind(self.alloc, &self.files, folder) {
            Ok(names) if names.is_empty() => self.machine.names(folder),
            Ok(names) => Ok(names),
            Err(AllocError) => Err(FileError::NoMemory),
        }
    }
}

/// Returns the names of files after the name of a folder.
fn names_behind(
    alloc: Global,
    files: &[TableFile<'_>],
    folder: &str,
) -> Result<Vec<String>, AllocError> {
    let mut names = Vec::new(alloc);
    for file in files {
        if let Some(behind) = file.name.strip_prefix(folder) {
            if let Some(name) = behind.strip_prefix('/') {
                names.push(String::from_str(alloc, name)?)?;
            }
        }
    }
    Ok(names)
}

/// Returns a copy of the first `most` bytes at most.
fn first_of(alloc: Global, bytes: &[u8], most: usize) -> Result<Vec<u8>, FileError>
    ensures { IfOk result (λ v. length v.items ≤ most) }
{
    let mut first = copied(alloc, bytes)?;
    first.truncate(most);
    Ok(first)
}

/// Returns a copy of the bytes.
fn copied(alloc: Global, bytes: &[u8]) -> Result<Vec<u8>, FileError> {
    bytes.to_vec(alloc).map_err(|_| FileError::NoMemory)
}
