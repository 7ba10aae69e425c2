//! The pages of `afx explain`: whether they are correct about their programs.

use crate::machine::TestMachine;
use driver::act::act;
use pages::find::tables;
use pages::page::{Example, Page, Sample};
use statement_steps::watch::Unwatched;
use std::io;
use test_rows::output::{Limit, Output};
use test_rows::test_files::TestFiles;
use test_rows::words::words_of;

/// Runs the programs of the pages, and prints the number of pages that are correct, or which ones
/// aren't.
pub fn compare<R: TestMachine>(rt: &R) -> io::Result<()> {
    let mut so = 0u64;
    for table in &tables() {
        for page in *table {
            if is_so(rt, page)? {
                so = so.saturating_add(1);
            } else {
                println!(rt; "{}: something else is told", page.name)?;
            }
        }
    }
    println!(rt; "{so} pages say what is so")
}

/// Returns whether the program of a page prints the page's line; for a shape, whether it parses,
/// and its program is accepted.
fn is_so<R: TestMachine>(rt: &R, page: &Page) -> io::Result<bool> {
    match page.example {
        Example::Nothing => Ok(true),
        Example::Program(told) => tells(rt, told, "", &[]),
        Example::WithInput(given) => tells(rt, given.told, given.input, &[]),
        Example::WithTrace(traced) => tells(rt, traced.told, "", traced.trace),
        Example::Shape(shape) => {
            let mut shelf = shelf_with(rt, shape.lines, "", &[])?;
            let check = format!(in rt.alloc(); "check {}.afx", shape.name)?;
            Ok(
                status_of(rt, &mut shelf, "list program.afx")? == 0
                    && status_of(rt, &mut shelf, &check)? == 0,
            )
        }
    }
}

/// Returns whether a program with an input and a trace prints only its line.
fn tells<R: TestMachine>(
    rt: &R,
    told: Sample,
    input: &'static str,
    trace: &'static [&'static str],
) -> io::Result<bool> {
    let mut shelf = shelf_with(rt, told.lines, input, trace)?;
    let mut both = Output::new(rt.alloc(), Limit::Never);
    let mut err = Output::new(rt.alloc(), Limit::Never);
    done(rt, &mut shelf, told.command, &mut both, &mut err)?;
    both.taken.extend_from_slice(&err.taken)?;
    let line = format!(in rt.alloc(); "{}\n", told.line)?;
    Ok(both.taken.as_slice() == line.as_bytes())
}

/// Runs a command, and returns its status.
fn status_of<R: TestMachine>(
    rt: &R,
    shelf: &mut TestFiles<'_, R>,
    command: &str,
) -> io::Result<u8> {
    let mut out = Output::new(rt.alloc(), Limit::Never);
    let mut err = Output::new(rt.alloc(), Limit::Never);
    done(rt, shelf, command, &mut out, &mut err)
}

/// Runs a command over these outputs, and returns its status.
fn done<R: TestMachine>(
    rt: &R,
    shelf: &mut TestFiles<'_, R>,
    command: &str,
    out: &mut Output,
    err: &mut Output,
) -> io::Result<u8> {
    let alloc = rt.alloc();
    let command = format!(in alloc; "$ afx {command}")?;
    let words = words_of(alloc, &command)?;
    Ok(act(rt, alloc, &words, shelf, out, err, &mut Unwatched))
}

/// Returns the files of the machine, `program.afx`, `input.json` and `program.trace`.
fn shelf_with<'t, R: TestMachine>(
    rt: &'t R,
    lines: &[&str],
    input: &str,
    trace: &[&str],
) -> io::Result<TestFiles<'t, R>> {
    let mut shelf = TestFiles::new(rt);
    shelf.begin_file("program.afx")?;
    for line in lines {
        shelf.read_line(&format!(in rt.alloc(); "| {line}")?)?;
    }
    shelf.begin_file("input.json")?;
    shelf.read_line(&format!(in rt.alloc(); "| {input}")?)?;
    shelf.begin_file("program.trace")?;
    for line in trace {
        shelf.read_line(&format!(in rt.alloc(); "| {line}")?)?;
    }
    Ok(shelf)
}
