//! Folders, and the names of their entries.

ghost use Rattle.std.specs.Prelude.{◌≡◌, map, IfErr, IfOk, MatchResult, None, Ok, Err};
ghost use Rattle.std.specs.String.{string_bytes};
ghost use Rattle.test_and_bench.specs.Folders.{AreGiven, Folders, TellsNoFolder};

use failures::failure::Failure;
use files::file_source::{FileError, FileSource, MachineFiles, Unreadable};
use std::alloc::Global;
use std::io::ErrorKind;
use std::rt::Files;
use std::{fs, io};

/// Files by their names, and folders of files.
pub trait FolderSource: FileSource {
    /// What is known about the names in a folder. None if nothing is known, as for the machine's
    /// folders.
    ghost named: { Self → Folders } = { λ _ _. None };

    /// Returns the names of all entries of a folder, in any order.
    fn names(&mut self, folder: &str) -> Result<Vec<String>, FileError>
        ensures given { let known = named self.old folder.now in MatchResult result
            (λ v. AreGiven known (Ok (map string_bytes v.items))) (λ e. AreGiven known (Err e)) }
        ensures keeps { Self.held self.new ≡ Self.held self.old }
        ensures stays { named self.new ≡ named self.old };
}

/// Returns the names of all entries of a folder, or the failure that says why it can't be read.
pub fn read_folder<F: FolderSource>(
    alloc: Global,
    files: &mut F,
    folder: &str,
) -> Result<Vec<String>, Failure>
    ensures given { IfOk result
        (λ v. AreGiven (F.named files.old folder.now) (Ok (map string_bytes v.items))) }
    ensures why { IfErr result (TellsNoFolder (F.named files.old) folder.now) }
    ensures keeps { F.held files.new ≡ F.held files.old }
    ensures stays { F.named files.new ≡ F.named files.old }
{
    match files.names(folder) {
        Ok(names) => Ok(names),
        Err(FileError::NoMemory) => Err(Failure::NoMemory),
        Err(FileError::Failed) => Err(Failure::cannot_read(alloc, folder)),
    }
}

/// The files and the folders of the machine; `-` is standard input.
#[derive(Drop)]
pub struct MachineFolders<'r, R> {
    rt: &'r R,
    files: MachineFiles<'r, R>,
}

impl<'r, R> MachineFolders<'r, R> {
    /// Wraps the files and folders of a runtime.
    pub fn new(rt: &'r R) -> MachineFolders<'r, R>
        ensures { result.rt ≡ rt.entry }
    {
        MachineFolders {
            rt,
            files: MachineFiles::new(rt),
        }
    }
}

impl<R: Files + Input + AllocGlobal> FileSource for MachineFolders<'_, R> {
    fn read(&mut self, name: &str) -> Result<Vec<u8>, FileError> {
        self.files.read(name)
    }

    fn read_first(&mut self, name: &str, most: usize) -> Result<Vec<u8>, FileError> {
        self.files.read_first(name, most)
    }

    fn write(&mut self, name: &str, bytes: &[u8]) -> Result<(), FileError> {
        self.files.write(name, bytes)
    }

    fn unreadable(&self, name: &str) -> Unreadable {
        self.files.unreadable(name)
    }
}

impl<R: Files + Input + AllocGlobal + Clone + Drop> FolderSource for MachineFolders<'_, R> {
    fn names(&mut self, folder: &str) -> Result<Vec<String>, FileError> {
        match names_in(self.rt, folder) {
            Ok(names) => Ok(names),
            Err(error) => match error.kind() {
                ErrorKind::OutOfMemory => Err(FileError::NoMemory),
                _ => Err(FileError::Failed),
            },
        }
    }
}

/// Returns the names of all entries of a folder of the machine.
fn names_in<R: Files + AllocGlobal + Clone + Drop>(
    rt: &R,
    folder: &str,
) -> io::Result<Vec<String>> {
    let alloc = rt.alloc();
    let mut names = Vec::new(alloc);
    for entry in fs::read_dir(rt, folder)? {
        let entry = entry?;
        names.push(String::from_str(alloc, entry.file_name())?)?;
    }
    Ok(names)
}
