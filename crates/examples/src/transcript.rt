//! A command line with its output.

use crate::machine::TestMachine;
use driver::act::act;
use driver::folders::MachineFolders;
use statement_steps::watch::Unwatched;
use std::io;
use test_rows::words::words_of;

/// Runs a command line over the machine's files, and prints it, its two outputs, and its status
/// unless that is 0.
pub fn show<R: TestMachine>(rt: &R, line: &str) -> io::Result<()> {
    let alloc = rt.alloc();
    let command = format!(in alloc; "$ afx {line}")?;
    println!(rt; "{command}")?;
    let words = words_of(alloc, &command)?;
    let mut files = MachineFolders::new(rt);
    let mut out = io::writer(rt);
    let mut err = io::writer(rt);
    let status = act(
        rt,
        alloc,
        &words,
        &mut files,
        &mut out,
        &mut err,
        &mut Unwatched,
    );
    if status != 0 {
        println!(rt; "status {status}")?;
    }
    Ok(())
}
