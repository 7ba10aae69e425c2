//! Processes each of its arguments: a command line as a transcript, a table by checking its rows.

#![tactic(auto)]

mod both_ways;
mod machine;
mod object_rows;
mod pages_told;
mod row;
mod table;
mod transcript;

use crate::table::Way;
use std::{env, io};

/// Processes each argument after the program's name: `rows checks.rows` is a table, `explained
/// checks.rows` is one whose commands get `--explain`, `objects checks.rows` one whose commands get
/// `--format json`, `pages` are those of `explain`, and all others are command lines, such as `run
/// two_arrays.afx`.
fn main(rt: HostRuntime) -> io::Result<()> {
    for line in env::args(&rt)?.skip(1) {
        match line.split_once(' ') {
            Some(("rows", name)) => table::compare(&rt, name, Way::Plain)?,
            Some(("explained", name)) => table::compare(&rt, name, Way::Explained)?,
            Some(("objects", name)) => table::compare(&rt, name, Way::AsObjects)?,
            None if line.as_str() == "pages" => pages_told::compare(&rt)?,
            _ => transcript::show(&rt, &line)?,
        }
    }
    Ok(())
}
