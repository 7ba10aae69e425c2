//! Replacing a file of the machine: its old contents stay until the new ones are complete.

use std::fs::{Metadata, OpenFile, OpenOptions};
use std::io::{ErrorKind, Write};
use std::os::unix::fs::{MetadataExt, OpenOptionsExt, chown};
use std::rt::Files;
use std::{fs, io};

/// The maximum number of names that are tried for a new file.
const MOST_NAMES: u32 = 100;

/// The number of a regular file of the machine. All names of the file, links among them, have the
/// same number.
#[derive(Clone, Copy, PartialEq, Eq, Debug)]
pub struct FileNumber {
    device: u64,
    inode: u64,
}

impl FileNumber {
    /// Returns the number of a regular file. Writing to a device or a pipe loses nothing, so these
    /// have none.
    pub fn of(found: &Metadata) -> Option<FileNumber> {
        if !found.is_file() {
            return None;
        }
        Some(FileNumber {
            device: found.dev(),
            inode: found.ino(),
        })
    }
}

/// Returns the number of the file that a name denotes, if it is a regular file.
pub fn number_of<R: Files>(rt: &R, name: &str) -> Option<FileNumber> {
    match fs::metadata(rt, name) {
        Ok(found) => FileNumber::of(&found),
        Err(_) => None,
    }
}

/// Replaces the contents of a file, or creates it. The contents are written to a new file in the
/// same folder, which then gets the name. If that fails, the old contents stay.
pub fn replace<R: Files + AllocGlobal>(rt: &R, name: &str, bytes: &[u8]) -> io::Result<()> {
    match fs::symlink_metadata(rt, name) {
        Ok(found) => {
            if found.is_symlink() {
                replace_target(rt, name, bytes)
            } else {
                replace_found(rt, name, &found, bytes)
            }
        }
        Err(error) => match error.kind() {
            ErrorKind::NotFound => replace_by_new(rt, name, None, bytes),
            _ => Err(error),
        },
    }
}

/// Replaces the contents of the file that a symbolic link denotes; the link stays. A link of the
/// system, such as `/dev/stdout`, and a link to no file are written in place.
fn replace_target<R: Files + AllocGlobal>(rt: &R, link: &str, bytes: &[u8]) -> io::Result<()> {
    match fs::metadata(rt, link) {
        Ok(found) => {
            if link.starts_with("/dev/") || link.starts_with("/proc/") {
                return fs::write(rt, link, bytes);
            }
            let target = fs::canonicalize(rt, link)?;
            replace_found(rt, target.as_str(), &found, bytes)
        }
        Err(error) => match error.kind() {
            ErrorKind::NotFound => fs::write(rt, link, bytes),
            _ => Err(error),
        },
    }
}

/// Replaces the contents of a file that exists. A device or a pipe is written in place, and so is a
/// file in a folder where no file can be created.
fn replace_found<R: Files + AllocGlobal>(
    rt: &R,
    target: &str,
    found: &Metadata,
    bytes: &[u8],
) -> io::Result<()> {
    if !found.is_file() {
        return fs::write(rt, target, bytes);
    }
    // To rename another file needs no permission to write this one.
    let _old = OpenOptions::new().write(true).open(rt, target)?;
    match replace_by_new(rt, target, Some(found), bytes) {
        Ok(()) => Ok(()),
        Err(error) => match error.kind() {
            ErrorKind::PermissionDenied => fs::write(rt, target, bytes),
            _ => Err(error),
        },
    }
}

/// Writes a new file in the folder of another one, and gives it the other's name. If that fails,
/// nothing of the new file is left.
fn replace_by_new<R: Files + AllocGlobal>(
    rt: &R,
    target: &str,
    old: Option<&Metadata>,
    bytes: &[u8],
) -> io::Result<()> {
    let (new, file) = new_beside(rt, target, old.is_some())?;
    match fill(rt, new.as_str(), file, target, old, bytes) {
        Ok(()) => Ok(()),
        Err(error) => {
            let _ = fs::remove_file(rt, new.as_str());
            Err(error)
        }
    }
}

/// Creates a new file in the folder of another one, and returns its name. If the other file exists,
/// only this user can read the new one until it has the other's permissions.
fn new_beside<R: Files + AllocGlobal>(
    rt: &R,
    target: &str,
    is_private: bool,
) -> io::Result<(String, R::File)> {
    let alloc = rt.alloc();
    let mode = if is_private { 0o600 } else { 0o666 };
    for number in 0..MOST_NAMES {
        let name = match target.rsplit_once('/') {
            Some((folder, _)) => format!(in alloc; "{folder}/.afx-{number}.new")?,
            None => format!(in alloc; ".afx-{number}.new")?,
        };
        let mut how = OpenOptions::new();
        how.write(true).create_new(true).mode(mode);
        match how.open(rt, name.as_str()) {
            Ok(file) => return Ok((name, file)),
            Err(error) => match error.kind() {
                ErrorKind::AlreadyExists => {}
                _ => return Err(error),
            },
        }
    }
    Err(io::Error::from(ErrorKind::AlreadyExists))
}

/// Writes a new file, gives it the owner and the permissions of the old one, and then its name.
fn fill<R: Files>(
    rt: &R,
    new: &str,
    mut file: R::File,
    target: &str,
    old: Option<&Metadata>,
    bytes: &[u8],
) -> io::Result<()> {
    file.write_all(bytes)?;
    if let Some(old) = old {
        // Most users can't give a file away: then it belongs to the user who writes it.
        let _ = chown(rt, new, Some(old.uid()), Some(old.gid()));
        file.set_permissions(old.permissions())?;
    }
    fs::rename(rt, new, target)
}
