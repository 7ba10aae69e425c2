//! Reading and writing the files that a command line names.

ghost use Rattle.std.specs.Prelude.{◌≡◌, ◌≤◌, length, Option, None, option_map};
ghost use Rattle.std.specs.Prelude.{IfOk, IfErr, MatchResult, OnOk};
ghost use Rattle.failures.specs.Failures.{TellsUnread, TellsUnwritten};
ghost use Rattle.files.specs.Held.{Held, IsGiven, KeepsOthers, TellsNoProgram, TellsNoText, first};

use crate::replacing::{FileNumber, number_of, replace};
use failures::failure::Failure;
use std::alloc::Global;
use std::fs::OpenFile;
use std::io::{ErrorKind, Read};
use std::rt::Files;
use std::{fs, io};
use syntax::error::SyntaxError;
use syntax::parser::MOST_BYTES;

/// The maximum number of bytes of any file of the machine: 1 GiB.
const MOST_READ: usize = 1_073_741_824;

/// The file that is the standard input, which has the name `-` here.
const STANDARD_INPUT: &str = "/dev/stdin";

/// Why a file can't be read or written, with an example.
#[derive(Clone, Copy, PartialEq, Eq, Debug)]
pub enum FileError {
    /// It can't be opened, read or written, as in `files.read("nowhere.afx")`. Or it has more than
    /// 1 GiB, as in `files.read("/dev/zero")`.
    Failed,
    /// Memory ran out.
    NoMemory,
}

/// Why a file can't be read, as far as the machine says.
#[derive(Clone, Copy, PartialEq, Eq, Debug)]
pub enum Unreadable {
    /// There is no file with this name, as with `nowhere.afx`.
    Missing,
    /// It is a folder, as with `examples`.
    Folder,
    /// It may not be read, as after `chmod 000 a.afx`.
    Forbidden,
    /// It is too long, or there is another reason.
    Otherwise,
}

/// Files by their names.
pub trait FileSource {
    /// What is known about the contents of each name. None if nothing is known, as for the
    /// machine's files.
    ghost held: { Self → Held } = { λ _ _. None };

    /// Returns the contents of a file.
    fn read(&mut self, name: &str) -> Result<Vec<u8>, FileError>
        ensures given { let known = held self.old name.now in
            MatchResult result (λ v. IsGiven known (Ok v.items)) (λ e. IsGiven known (Err e)) }
        ensures keeps { held self.new ≡ held self.old };

    /// Returns the first bytes of a file, at most this many, however long the file is.
    fn read_first(&mut self, name: &str, most: usize) -> Result<Vec<u8>, FileError>
        ensures given { let known = option_map (first most) (held self.old name.now) in
            MatchResult result (λ v. IsGiven known (Ok v.items)) (λ e. IsGiven known (Err e)) }
        ensures short { IfOk result (λ v. length v.items ≤ most) }
        ensures keeps { held self.new ≡ held self.old };

    /// Replaces the contents of a file. After an `Err`, the contents of this file aren't specified.
    fn write(&mut self, name: &str, bytes: &[u8]) -> Result<(), FileError>
        ensures written { OnOk result (IsGiven (held self.new name.now) (Ok bytes.now)) }
        ensures others { KeepsOthers name.now (held self.old) (held self.new) };

    /// Returns why a file couldn't be read, to explain that.
    fn unreadable(&self, name: &str) -> Unreadable;
}

/// Returns the contents of a file, or the failure that says why they can't be read.
pub fn read_file<F: FileSource>(
    alloc: Global,
    files: &mut F,
    name: &str,
) -> Result<Vec<u8>, Failure>
    ensures given { IfOk result (λ v. IsGiven (F.held files.old name.now) (Ok v.items)) }
    ensures why { IfErr result (TellsNoText (F.held files.old) name.now) }
    ensures unread { IfErr result (TellsUnread name.now) }
    ensures keeps { F.held files.new ≡ F.held files.old }
{
    match files.read(name) {
        Ok(bytes) => Ok(bytes),
        Err(FileError::NoMemory) => Err(Failure::NoMemory),
        Err(FileError::Failed) => Err(Failure::cannot_read(alloc, name)),
    }
}

/// Returns the contents of a program file, or the failure that says why it has no program text. At
/// most one byte more than the limit is read: the program is then too long, however the file
/// continues.
#[tactic(auto, using(crate::proofs::Programs::given_whole, crate::proofs::Programs::no_program_unread))]
pub fn read_program<F: FileSource>(
    alloc: Global,
    files: &mut F,
    name: &str,
) -> Result<Vec<u8>, Failure>
    ensures given { IfOk result (λ v. IsGiven (F.held files.old name.now) (Ok v.items)) }
    ensures short { IfOk result (λ v. length v.items ≤ 1048576) }
    ensures why { IfErr result (TellsNoProgram (F.held files.old) name.now) }
    ensures keeps { F.held files.new ≡ F.held files.old }
{
    match files.read_first(name, MOST_BYTES + 1) {
        Ok(bytes) => {
            if bytes.len() > MOST_BYTES {
                Err(Failure::Syntax(SyntaxError::TooLong))
            } else {
                Ok(bytes)
            }
        }
        Err(FileError::NoMemory) => Err(Failure::NoMemory),
        Err(FileError::Failed) => Err(Failure::cannot_read(alloc, name)),
    }
}

/// Replaces the contents of a file, or returns the failure that says why it can't be written.
pub fn write_file<F: FileSource>(
    alloc: Global,
    files: &mut F,
    name: &str,
    bytes: &[u8],
) -> Result<(), Failure>
    ensures written { OnOk result (IsGiven (F.held files.new name.now) (Ok bytes.now)) }
    ensures why { IfErr result (TellsUnwritten name.now) }
    ensures others { KeepsOthers name.now (F.held files.old) (F.held files.new) }
{
    match files.write(name, bytes) {
        Ok(()) => Ok(()),
        Err(FileError::NoMemory) => Err(Failure::NoMemory),
        Err(FileError::Failed) => Err(Failure::cannot_write(alloc, name)),
    }
}

/// The files of the machine; `-` is standard input. Keeps what `read` returned for standard input
/// and for the last file. A pipe can't be read again when an error in it is explained. A file that
/// was read is written only under the same name, so no program, input or trace is lost through a
/// link or another path.
#[derive(Drop)]
pub struct MachineFiles<'r, R> {
    rt: &'r R,
    /// The contents of standard input, once it was read to its end.
    input: Option<Vec<u8>>,
    /// The last file that was read, if there was memory to keep it and nothing was written since.
    last: Option<LastRead>,
    /// The regular files that were read.
    known: Option<Vec<KnownFile>>,
}

/// A file that was read, and under which name.
#[derive(Drop)]
struct KnownFile {
    name: String,
    number: FileNumber,
}

/// The last file that was read, and its contents.
#[derive(Drop)]
struct LastRead {
    name: String,
    bytes: Vec<u8>,
}

impl<'r, R> MachineFiles<'r, R> {
    /// Wraps the files of a runtime.
    pub fn new(rt: &'r R) -> MachineFiles<'r, R>
        ensures { result.rt ≡ rt.entry }
    {
        MachineFiles {
            rt,
            input: None,
            last: None,
            known: None,
        }
    }
}

impl<R: Files + AllocGlobal> MachineFiles<'_, R> {
    /// Remembers the name under which a file was read.
    fn remember(&mut self, name: &str, number: Option<FileNumber>) -> Result<(), FileError> {
        let Some(number) = number else {
            return Ok(());
        };
        let alloc = self.rt.alloc();
        let name = match String::from_str(alloc, name) {
            Ok(name) => name,
            Err(_) => return Err(FileError::NoMemory),
        };
        let mut known = match self.known.take() {
            Some(known) => known,
            None => Vec::new(alloc),
        };
        let added = known.push(KnownFile { name, number });
        self.known = Some(known);
        match added {
            Ok(()) => Ok(()),
            Err(_) => Err(FileError::NoMemory),
        }
    }

    /// Returns whether a name denotes a file that was read under another name.
    fn was_read_otherwise(&self, name: &str) -> bool {
        let Some(known) = &self.known else {
            return false;
        };
        let Some(number) = number_of(self.rt, name) else {
            return false;
        };
        known
            .iter()
            .any(|file| file.number == number && file.name.as_str() != name)
    }
}

impl<R: Files + Input + AllocGlobal> FileSource for MachineFiles<'_, R> {
    fn read(&mut self, name: &str) -> Result<Vec<u8>, FileError> {
        if name == "-" {
            let number = number_of(self.rt, STANDARD_INPUT);
            self.remember(name, number)?;
            return standard_input(self.rt, &mut self.input);
        }
        let alloc = self.rt.alloc();
        if let Some(last) = &self.last {
            if last.name.as_str() == name {
                return copied(alloc, &last.bytes);
            }
        }
        match first_bytes(self.rt, name, MOST_READ + 1) {
            Ok((bytes, number)) => {
                if bytes.len() > MOST_READ {
                    return Err(FileError::Failed);
                }
                self.remember(name, number)?;
                self.last = given(alloc, name, &bytes);
                Ok(bytes)
            }
            Err(error) => Err(file_error(&error)),
        }
    }

    fn read_first(&mut self, name: &str, most: usize) -> Result<Vec<u8>, FileError> {
        match first_bytes(self.rt, name, most) {
            Ok((bytes, number)) => {
                self.remember(name, number)?;
                Ok(bytes)
            }
            Err(error) => Err(file_error(&error)),
        }
    }

    /// Standard input can't be written, so `-` fails. A file that was read under another name isn't
    /// written. A file that can't be written completely keeps its contents, unless `replace` writes
    /// it in place.
    fn write(&mut self, name: &str, bytes: &[u8]) -> Result<(), FileError> {
        if name == "-" || self.was_read_otherwise(name) {
            return Err(FileError::Failed);
        }
        self.last = None;
        replace(self.rt, name, bytes).map_err(|error| file_error(&error))
    }

    fn unreadable(&self, name: &str) -> Unreadable {
        match fs::open(self.rt, name) {
            Ok(file) => match file.metadata() {
                Ok(found) if found.is_dir() => Unreadable::Folder,
                _ => Unreadable::Otherwise,
            },
            Err(error) => match error.kind() {
                ErrorKind::NotFound => Unreadable::Missing,
                ErrorKind::PermissionDenied => Unreadable::Forbidden,
                _ => Unreadable::Otherwise,
            },
        }
    }
}

/// Returns the contents of standard input. The first call reads it to its end and keeps it for
/// later calls.
fn standard_input<R: Input + AllocGlobal>(
    rt: &R,
    kept: &mut Option<Vec<u8>>,
) -> Result<Vec<u8>, FileError> {
    let alloc = rt.alloc();
    if let Some(bytes) = kept {
        return copied(alloc, bytes);
    }
    let bytes = match first_of(alloc, rt.reader(), MOST_READ + 1) {
        Ok(bytes) => bytes,
        Err(error) => return Err(file_error(&error)),
    };
    if bytes.len() > MOST_READ {
        return Err(FileError::Failed);
    }
    *kept = Some(copied(alloc, &bytes)?);
    Ok(bytes)
}

/// Returns the contents of a file as they are kept, or None if memory runs out.
fn given(alloc: Global, name: &str, bytes: &[u8]) -> Option<LastRead> {
    Some(LastRead {
        name: String::from_str(alloc, name).ok()?,
        bytes: bytes.to_vec(alloc).ok()?,
    })
}

/// Copies these bytes.
fn copied(alloc: Global, bytes: &[u8]) -> Result<Vec<u8>, FileError> {
    match bytes.to_vec(alloc) {
        Ok(bytes) => Ok(bytes),
        Err(_) => Err(FileError::NoMemory),
    }
}

/// Returns the first bytes of a file of the machine, at most this many, and the file's number.
fn first_bytes<R: Files + Input + AllocGlobal>(
    rt: &R,
    name: &str,
    most: usize,
) -> io::Result<(Vec<u8>, Option<FileNumber>)>
    ensures { IfOk result (λ v. length v.0.items ≤ most) }
{
    let alloc = rt.alloc();
    if name == "-" {
        let bytes = first_of(alloc, rt.reader(), most)?;
        return Ok((bytes, number_of(rt, STANDARD_INPUT)));
    }
    let file = fs::open(rt, name)?;
    let number = match file.metadata() {
        Ok(found) => FileNumber::of(&found),
        Err(_) => None,
    };
    let bytes = first_of(alloc, file, most)?;
    Ok((bytes, number))
}

/// Returns the first bytes of a reader, at most this many.
fn first_of<R: Read + Drop>(alloc: Global, reader: R, most: usize) -> io::Result<Vec<u8>>
    ensures { IfOk result (λ v. length v.items ≤ most) }
{
    let mut bytes = Vec::new(alloc);
    reader.take(most as u64).read_to_end(&mut bytes)?;
    // No contract bounds what `take` returns for a reader with unknown contents.
    bytes.truncate(most);
    Ok(bytes)
}

/// Converts an error of the machine.
fn file_error(error: &io::Error) -> FileError {
    match error.kind() {
        ErrorKind::OutOfMemory => FileError::NoMemory,
        _ => FileError::Failed,
    }
}
