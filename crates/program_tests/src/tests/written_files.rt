//! Files of the machine that are written, and read again.

use crate::tests::compare;
use files::file_source::{FileSource, MachineFiles, read_file, write_file};
use std::alloc::Global;
use std::fs;
use std::os::unix::fs::symlink;
use std::process::Abort;
use std::rt::HostRuntime;

const NAME: &str = "program_tests.written";

/// The texts that are written, one after the other, to the same file.
const TEXTS: &[&str] = &["", "0123456789\n", "shorter\n", "not cut\0short", "\u{e4}"];

#[test]
fn what_was_written_is_read(rt: HostRuntime) {
    let alloc = rt.alloc();
    let mut files = MachineFiles::new(&rt);
    for text in TEXTS {
        let row = format!(in alloc; "{text:?}").expect(&rt, "memory");
        compare(
            &rt,
            alloc,
            row.as_str(),
            kept(alloc, &mut files, text),
            "as it was written",
        );
    }
    let _ = fs::remove_file(&rt, NAME);
}

/// Returns how a file's contents compare with a text that was written.
fn kept<F: FileSource>(alloc: Global, files: &mut F, text: &str) -> &'static str {
    match write_file(alloc, files, NAME, text.as_bytes()) {
        Ok(()) => {}
        Err(_failure) => return "not written",
    }
    read(alloc, files, NAME, text)
}

/// Returns how a file's contents compare with a text.
fn read<F: FileSource>(alloc: Global, files: &mut F, name: &str, text: &str) -> &'static str {
    match read_file(alloc, files, name) {
        Ok(bytes) => compared(&bytes, text),
        Err(_failure) => "not read",
    }
}

/// Returns how bytes that were read compare with a text.
fn compared(bytes: &[u8], text: &str) -> &'static str {
    if bytes == text.as_bytes() {
        "as it was written"
    } else {
        "another text"
    }
}

#[test]
fn what_was_read_last_is_given_again(rt: HostRuntime) {
    let alloc = rt.alloc();
    let name = "program_tests.read_last";
    let mut files = MachineFiles::new(&rt);
    let _ = fs::write(&rt, name, b"once");
    compare(
        &rt,
        alloc,
        "the file",
        read(alloc, &mut files, name, "once"),
        "as it was written",
    );
    let _ = fs::remove_file(&rt, name);
    compare(
        &rt,
        alloc,
        "no file",
        read(alloc, &mut files, name, "once"),
        "as it was written",
    );
    compare(
        &rt,
        alloc,
        "another",
        read(alloc, &mut files, "no_such_folder/read", "once"),
        "not read",
    );
}

/// Returns how writing to a name ends.
fn written<F: FileSource>(alloc: Global, files: &mut F, name: &str) -> &'static str {
    match write_file(alloc, files, name, b"new") {
        Ok(()) => "written",
        Err(_failure) => "not written",
    }
}

/// Names of a file that was read under the last of them.
const OTHERWISE: &[(&str, &str)] = &[
    ("program_tests.link", "not written"),
    ("./program_tests.known", "not written"),
    ("program_tests.known", "written"),
];

#[test]
fn what_was_read_is_written_under_its_name_only(rt: HostRuntime) {
    let alloc = rt.alloc();
    let (name, link) = ("program_tests.known", "program_tests.link");
    let mut files = MachineFiles::new(&rt);
    let _ = fs::remove_file(&rt, link);
    let _ = fs::write(&rt, name, b"old");
    let _ = symlink(&rt, name, link);
    for (other, want) in OTHERWISE {
        let before = read(alloc, &mut files, name, "old");
        compare(&rt, alloc, *other, before, "as it was written");
        compare(&rt, alloc, *other, written(alloc, &mut files, other), want);
    }
    let target = read(alloc, &mut files, link, "new");
    compare(&rt, alloc, "the link", target, "as it was written");
    let _ = fs::remove_file(&rt, link);
    let _ = fs::remove_file(&rt, name);
}

/// Names that can't be written.
const UNWRITTEN: &[(&str, &str)] = &[
    ("-", "cannot write -"),
    (
        "no_such_folder/written",
        "cannot write no_such_folder/written",
    ),
    (".", "cannot write ."),
];

#[test]
fn what_cannot_be_written(rt: HostRuntime) {
    let alloc = rt.alloc();
    let mut files = MachineFiles::new(&rt);
    for (name, want) in UNWRITTEN {
        let said = refused(&rt, alloc, &mut files, name);
        compare(&rt, alloc, *name, said, want);
    }
}

/// Returns the failure of writing to a name.
fn refused<F: FileSource>(rt: &impl Abort, alloc: Global, files: &mut F, name: &str) -> String {
    let failure = match write_file(alloc, files, name, b"text") {
        Ok(()) => return String::new(alloc),
        Err(failure) => failure,
    };
    format!(in alloc; "{failure}").expect(rt, "memory")
}
