//! The commands with their arguments and options. Arguments are parsed by this one table, and help,
//! completions and the manual page are written from it.

use clap::{Arg, ArgAction, Command, value_parser};
use pages::manual::Closing;
use pages::shell::Shell;
use std::alloc::{AllocError, Global};

/// A command.
#[derive(Clone, Copy)]
struct Row {
    name: &'static str,
    about: &'static str,
    /// The text after its help.
    example: &'static str,
    entries: &'static [Entry],
}

/// An argument or an option of a command.
#[derive(Clone, Copy)]
struct Entry {
    name: &'static str,
    help: &'static str,
    takes: Takes,
}

/// What an entry is, or the value that it takes.
#[derive(Clone, Copy)]
enum Takes {
    /// A required argument: the name of a file or a folder.
    File,
    /// A required argument: the name of a shell.
    Shell,
    /// Any number of arguments.
    Words,
    /// An option without a value.
    Nothing,
    /// An option without a value that conflicts with these options.
    NothingBut(&'static [&'static str]),
    /// An option with a text value. The help shows this name for the value.
    Text(&'static str),
    /// An option with a text value that conflicts with these options.
    TextBut(&'static str, &'static [&'static str]),
    /// An option as `TextBut`, which can be given more than once.
    TextsBut(&'static str, &'static [&'static str]),
    /// An option whose value is one of these words. The help shows this name for the value.
    OneOf(&'static str, &'static [&'static str]),
    /// An option as `OneOf`, which needs this other option.
    OneOfWith(&'static str, &'static [&'static str], &'static str),
    /// An option whose value, after `=`, is one of these words; without a value it is the last word
    /// here. The help shows this name for the value.
    MaybeOneOf(&'static str, &'static [&'static str], &'static str),
    /// An option with a number in this inclusive range.
    Number(i64, i64),
    /// An option with a number in this inclusive range that conflicts with these options.
    NumberBut(i64, i64, &'static [&'static str]),
    /// An option with a 64-bit number.
    Seed,
}

// ---- arguments and options

const FILE: Entry = Entry {
    name: "FILE",
    help: "Program file, or - for standard input",
    takes: Takes::File,
};

const FILES: Entry = Entry {
    name: "FILE",
    help: "Program file, or - for standard input; several files come last, and without --format, --list and --all",
    takes: Takes::File,
};

const TESTS: Entry = Entry {
    name: "FILE",
    help: "Program file, or folder of programs; several come after the options",
    takes: Takes::File,
};

const LIST: Entry = Entry {
    name: "list",
    help: "Print the listing: the program with the label of each statement",
    takes: Takes::NothingBut(&["format"]),
};

const LINES: Entry = Entry {
    name: "lines",
    help: "Also print the line and column of each statement",
    takes: Takes::NothingBut(&["format"]),
};

const ACCESSES: Entry = Entry {
    name: "accesses",
    help: "Print the pairs of accesses that may run in parallel, for each procedure",
    takes: Takes::NothingBut(&["by-line", "format"]),
};

const PAIRS_BY_LINE: Entry = Entry {
    name: "by-line",
    help: "Print the position, the label and the text of both statements",
    takes: Takes::NothingBut(&["format"]),
};

const CHECK: Entry = Entry {
    name: "check",
    help: "Print nothing if the file is formatted; otherwise print `not formatted` and exit with status 1",
    takes: Takes::NothingBut(&["write"]),
};

const WRITE: Entry = Entry {
    name: "write",
    help: "Format the file in place; a file that is already formatted isn't written",
    takes: Takes::Nothing,
};

const WRITE_OUTPUT: Entry = Entry {
    name: "write",
    help: "Write the output of each program to its .out file; a file that has it already isn't written",
    takes: Takes::Nothing,
};

const INPUT: Entry = Entry {
    name: "input",
    help: "JSON file with the initial contents of the arrays [default: zeros]",
    takes: Takes::Text("JSON"),
};

const SET: Entry = Entry {
    name: "set",
    help: "Initial contents of an array, as in a=1,2,3, once for each array; all others are zeros",
    takes: Takes::TextsBut("NAME=LIST", &["input", "text"]),
};

const TEXT: Entry = Entry {
    name: "text",
    help: "File whose bytes are the initial contents of an array, as in p=words.txt; all others are zeros",
    takes: Takes::TextBut("NAME=FILE", &["input"]),
};

const STEPS: Entry = Entry {
    name: "steps",
    help: "Step limit for each task, 1 to 1000000000 [default: 1000000]",
    takes: Takes::Number(1, 1_000_000_000),
};

const NEST: Entry = Entry {
    name: "nest",
    help: "Limit on nested asyncs, 0 to 1000 [default: 100]",
    takes: Takes::Number(0, 1_000),
};

const TASKS: Entry = Entry {
    name: "tasks",
    help: "Limit on tasks, including the one for main, 1 to 1048576 [default: 65536]",
    takes: Takes::Number(1, 1_048_576),
};

const W0: Entry = Entry {
    name: "w0",
    help: "Weight that a finish issues at a time, 1 to 4294967296 [default: 1048576]; doesn't change the result",
    takes: Takes::Number(1, 4_294_967_296),
};

const WORKERS: Entry = Entry {
    name: "workers",
    help: "Number of worker threads, 1 to 64 [default: 4]",
    takes: Takes::Number(1, 64),
};

const CHOICES: Entry = Entry {
    name: "choices",
    help: "Which task takes each step: numbers separated by commas [default: no steps]",
    takes: Takes::TextBut("LIST", &["choices-from", "random"]),
};

const CHOICES_FROM: Entry = Entry {
    name: "choices-from",
    help: "File with the choices: numbers separated by commas or white space",
    takes: Takes::TextBut("FILE", &["random"]),
};

const RANDOM: Entry = Entry {
    name: "random",
    help: "Seed for random choices, 0 to 18446744073709551615; stops at the end or after 1000000 choices",
    takes: Takes::Seed,
};

const EVERY: Entry = Entry {
    name: "all",
    help: "Print one object with the different ends of all schedules, trying at most N lists of choices, 1 to 1000000",
    takes: Takes::NumberBut(1, 1_000_000, &["choices", "choices-from", "random", "html"]),
};

const WALKERS: Entry = Entry {
    name: "workers",
    help: "Number of workers between which tasks are stolen, 1 to 64 [default: 4]; starts no thread",
    takes: Takes::Number(1, 64),
};

const SEEDED: Entry = Entry {
    name: "seed",
    help: "Seed of the schedule, 0 to 18446744073709551615 [default: 0]",
    takes: Takes::Seed,
};

const TRACED: Entry = Entry {
    name: "trace",
    help: "Write a trace of the run to this file, about 40 bytes per step",
    takes: Takes::Text("FILE"),
};

const TRACE: Entry = Entry {
    name: "TRACE",
    help: "Trace file written by `afx run --trace`, or - for standard input",
    takes: Takes::File,
};

const SUMMARY: Entry = Entry {
    name: "summary",
    help: "Print totals instead of the table: tasks, steps, span, parallelism, steals and more",
    takes: Takes::NothingBut(&["svg", "chrome", "html", "upgrade"]),
};

const EVENTS_BY_LINE: Entry = Entry {
    name: "by-line",
    help: "Also print the procedure and the statement of each step; with --summary the steps of each statement",
    takes: Takes::NothingBut(&["svg", "chrome", "html", "upgrade", "format"]),
};

const SVG: Entry = Entry {
    name: "svg",
    help: "Draw the trace to this SVG file instead of printing the table, with a lane for each worker",
    takes: Takes::TextBut("OUT", &["chrome", "html", "upgrade"]),
};

const CHROME: Entry = Entry {
    name: "chrome",
    help: "Write the trace to this file for Perfetto or chrome://tracing instead of printing the table",
    takes: Takes::TextBut("OUT", &["html", "upgrade"]),
};

const HTML: Entry = Entry {
    name: "html",
    help: "Write a page to this HTML file in which the run can be explored in a browser",
    takes: Takes::TextBut("OUT", &["upgrade"]),
};

const UPGRADE: Entry = Entry {
    name: "upgrade",
    help: "Also write the trace to this file in format 2, with the number of faults of each finish",
    takes: Takes::Text("OUT"),
};

const BY_LINE: Entry = Entry {
    name: "by-line",
    help: "Also print the work and span of each statement, with its position, its label and its text",
    takes: Takes::NothingBut(&["by-procedure"]),
};

const BY_PROCEDURE: Entry = Entry {
    name: "by-procedure",
    help: "Also print the work and span of each procedure, not counting the procedures that it calls",
    takes: Takes::NothingBut(&["format"]),
};

const ARRAYS: Entry = Entry {
    name: "arrays",
    help: "Print the arrays after the outcome",
    takes: Takes::Nothing,
};

const PROGRESS: Entry = Entry {
    name: "progress",
    help: "Report the number of steps on the terminal, at most twice a second",
    takes: Takes::Nothing,
};

const ALL: Entry = Entry {
    name: "all",
    help: "Explain the reported race, and list all pairs of statements that may race",
    takes: Takes::NothingBut(&["format"]),
};

const WARN: Entry = Entry {
    name: "warn",
    help: "Print warnings about an accepted program [default: auto, on a terminal; always without a value]",
    takes: Takes::MaybeOneOf("WHEN", &["auto", "always", "never"], "always"),
};

const EXPLAIN: Entry = Entry {
    name: "explain",
    help: "Explain an error, a fault or a stopped run [default: auto, on a terminal; always without a value]",
    takes: Takes::MaybeOneOf("WHEN", &["auto", "always", "never"], "always"),
};

const COLOR: Entry = Entry {
    name: "color",
    help: "Color the output of --explain [default: auto, on a terminal unless NO_COLOR is set]",
    takes: Takes::OneOf("WHEN", &["auto", "always", "never"]),
};

const FORMAT: Entry = Entry {
    name: "format",
    help: "Print lines of text or one JSON object [default: text]",
    takes: Takes::OneOf("KIND", &["text", "json"]),
};

const FORMAT_OF_CHECK: Entry = Entry {
    name: "format",
    help: "With --check, print lines of text or one JSON object [default: text]",
    takes: Takes::OneOfWith("KIND", &["text", "json"], "check"),
};

const FORMAT_OF_SUMMARY: Entry = Entry {
    name: "format",
    help: "With --summary, print lines of text or one JSON object [default: text]",
    takes: Takes::OneOfWith("KIND", &["text", "json"], "summary"),
};

const WORD: Entry = Entry {
    name: "WORD",
    help: "A code such as Y5, another topic, or a line that afx printed [default: list all topics]",
    takes: Takes::Words,
};

const PAGES: Entry = Entry {
    name: "list",
    help: "List all topics",
    takes: Takes::Nothing,
};

const SHELL: Entry = Entry {
    name: "SHELL",
    help: "Shell to write the script for",
    takes: Takes::Shell,
};

// ---- the commands

const RUN_EXAMPLE: &str = "Example: afx run examples/two_arrays.afx --steps 1000 --workers 2";

const SERIAL_EXAMPLE: &str =
    "Example: afx serial examples/doubling.afx --input examples/doubling.json --arrays";

const CHECK_EXAMPLE: &str = "Example: afx check examples/two_arrays.afx --list";

const LIST_EXAMPLE: &str = "Example: afx list examples/race.afx --lines";

const LAYOUT_EXAMPLE: &str = "Example: afx fmt examples/race.afx --check";

const PAIRS_EXAMPLE: &str = "Example: afx mhp examples/two_arrays.afx --accesses";

const COST_EXAMPLE: &str =
    "The program runs on one thread, and the numbers are the same on every machine. Work is the number of steps of all
tasks. Span is the longest chain of steps that must follow one another. No number of workers gives a speed-up of more
than work / span.

Example: afx cost examples/doubling.afx --input examples/doubling.json
Example: afx cost examples/doubling.afx --input examples/doubling.json --by-line";

const BENCH_EXAMPLE: &str =
    "Each run is repeated five times; the minimum and the median are printed, in microseconds. The speed-up is the serial
median divided by that of the most workers; no number of workers gives more than work / span. If the program has faults
or is stopped, its outcome is printed and nothing is timed.

Example: afx bench examples/doubling.afx --input examples/doubling.json
Example: afx bench --format json examples/doubling.afx --input examples/doubling.json";

const TEST_EXAMPLE: &str =
    "FILE is a program NAME.afx, or a folder: each NAME.afx in it is tested. It runs serially, and in parallel on 1 and on 4
threads, and passes if each run prints exactly the contents of NAME.out. NAME.json, if present, is its input. NAME.args,
if present, has its options, each word on a line. With NAME.err, the program is to be refused with exactly that message.

Example: afx test examples/tested
Example: afx test --format json examples/tested
Example: afx test --write examples/tested/total.afx";

const EXPLORE_EXAMPLE: &str =
    "A choice is the number of the task that takes the next step. The tasks that can take one are numbered from 0 in
depth-first order. A task can take a step unless it has ended or is waiting at a finish. With --format json the answer
lists them in this order, each with its next statement, and a program with a race is explored too.

Example: afx explore examples/two_arrays.afx --choices 0,0,1
Example: afx explore examples/two_arrays.afx --html two_arrays.html";

const INSPECT_EXAMPLE: &str =
    "The object has three members, each of which is exactly what that command prints with --format json: `check`, `list` and
`serial`. If the program is rejected, the first one says why, and what would be right. The status is that of `check`, or
that of `serial` if the program is accepted.

Example: afx inspect examples/race.afx";

const WALK_EXAMPLE: &str =
    "The workers take, steal and run tasks in an order that is drawn from the seed, one event after the other. The outcome
is that of `afx run`. The trace is one of the program, and the same on every machine.

Example: afx walk examples/two_arrays.afx --workers 2 --seed 7 --trace two_arrays.trace";

const VIEW_EXAMPLE: &str =
    "FILE and JSON are the program and the input of the traced run. The trace records its budget and its workers. A trace
that this program can't produce on this input is rejected.

Example: afx run examples/two_arrays.afx --trace two_arrays.trace && afx view examples/two_arrays.afx two_arrays.trace
Example: afx view examples/two_arrays.afx two_arrays.trace --svg two_arrays.svg
Example: afx view examples/two_arrays.afx two_arrays.trace --html two_arrays.html";

const EXPLAIN_EXAMPLE: &str = "Example: afx explain Y5";

const COMPLETIONS_EXAMPLE: &str = "Example: source <(afx completions bash)";

const MAN_EXAMPLE: &str = "Example: afx man >afx.1; man -l afx.1";

const RUN: Row = Row {
    name: "run",
    about: "Run a program in parallel",
    example: RUN_EXAMPLE,
    entries: &[
        FILE, INPUT, SET, TEXT, STEPS, NEST, TASKS, W0, WORKERS, TRACED, ARRAYS, FORMAT, EXPLAIN,
        COLOR,
    ],
};

const SERIAL: Row = Row {
    name: "serial",
    about: "Run a program on one thread",
    example: SERIAL_EXAMPLE,
    entries: &[
        FILE, INPUT, SET, TEXT, STEPS, NEST, ARRAYS, PROGRESS, FORMAT, EXPLAIN, COLOR,
    ],
};

const CHECKED: Row = Row {
    name: "check",
    about: "Check a program for errors and races",
    example: CHECK_EXAMPLE,
    entries: &[FILES, LIST, ALL, WARN, FORMAT, EXPLAIN, COLOR],
};

const LISTED: Row = Row {
    name: "list",
    about: "Print a program with the label of each statement",
    example: LIST_EXAMPLE,
    entries: &[FILE, LINES, FORMAT, EXPLAIN, COLOR],
};

const FORMATTED: Row = Row {
    name: "fmt",
    about: "Format a program, keeping its comments",
    example: LAYOUT_EXAMPLE,
    entries: &[FILES, CHECK, WRITE, FORMAT_OF_CHECK, EXPLAIN, COLOR],
};

const PAIRED: Row = Row {
    name: "mhp",
    about: "List the pairs of statements that may run in parallel",
    example: PAIRS_EXAMPLE,
    entries: &[FILE, ACCESSES, PAIRS_BY_LINE, FORMAT, EXPLAIN, COLOR],
};

const COSTED: Row = Row {
    name: "cost",
    about: "Measure the work, span and parallelism of a run, in steps",
    example: COST_EXAMPLE,
    entries: &[
        FILE,
        INPUT,
        SET,
        TEXT,
        STEPS,
        NEST,
        BY_LINE,
        BY_PROCEDURE,
        FORMAT,
        EXPLAIN,
        COLOR,
    ],
};

const BENCHED: Row = Row {
    name: "bench",
    about: "Time a program serially and in parallel on 1, 2 and 4 threads, or up to --workers",
    example: BENCH_EXAMPLE,
    entries: &[
        FILE, INPUT, SET, TEXT, STEPS, NEST, TASKS, W0, WORKERS, FORMAT, EXPLAIN, COLOR,
    ],
};

const TESTED: Row = Row {
    name: "test",
    about: "Run programs, or those in a folder, and compare their output with the expected output",
    example: TEST_EXAMPLE,
    entries: &[TESTS, WRITE_OUTPUT, STEPS, NEST, TASKS, W0, WORKERS, FORMAT],
};

const SCHEDULES: Entry = Entry {
    name: "html",
    help: "Write a page to this HTML file in which each step can be chosen in a browser",
    takes: Takes::TextBut(
        "OUT",
        &["choices", "choices-from", "random", "arrays", "format"],
    ),
};

const EXPLORED: Row = Row {
    name: "explore",
    about: "Run a program step by step under a chosen schedule",
    example: EXPLORE_EXAMPLE,
    entries: &[
        FILE,
        INPUT,
        SET,
        TEXT,
        CHOICES,
        CHOICES_FROM,
        RANDOM,
        EVERY,
        ARRAYS,
        FORMAT,
        SCHEDULES,
        EXPLAIN,
        COLOR,
    ],
};

const WALKED: Row = Row {
    name: "walk",
    about: "Run a program under a random schedule with steals, without threads",
    example: WALK_EXAMPLE,
    entries: &[
        FILE, INPUT, SET, TEXT, STEPS, NEST, W0, WALKERS, SEEDED, TRACED, ARRAYS, EXPLAIN, COLOR,
    ],
};

const INSPECTED: Row = Row {
    name: "inspect",
    about: "Check, list and run a program, and print one JSON object",
    example: INSPECT_EXAMPLE,
    entries: &[FILE, INPUT, SET, TEXT, STEPS, NEST],
};

const VIEWED: Row = Row {
    name: "view",
    about: "Show the trace of a run as a table, as totals, as a picture or as a page",
    example: VIEW_EXAMPLE,
    entries: &[
        FILE,
        TRACE,
        INPUT,
        SET,
        TEXT,
        SUMMARY,
        EVENTS_BY_LINE,
        SVG,
        CHROME,
        HTML,
        UPGRADE,
        FORMAT_OF_SUMMARY,
        EXPLAIN,
        COLOR,
    ],
};

const EXPLAINED: Row = Row {
    name: "explain",
    about: "Explain a message, or show a common program pattern",
    example: EXPLAIN_EXAMPLE,
    entries: &[WORD, PAGES],
};

const COMPLETED: Row = Row {
    name: "completions",
    about: "Print a shell completion script",
    example: COMPLETIONS_EXAMPLE,
    entries: &[SHELL],
};

const MANUAL: Row = Row {
    name: "man",
    about: "Print the manual page",
    example: MAN_EXAMPLE,
    entries: &[],
};

/// All commands, in the order of the help.
const ROWS: [Row; 16] = [
    RUN, SERIAL, CHECKED, LISTED, FORMATTED, PAIRED, COSTED, BENCHED, TESTED, EXPLORED, WALKED,
    INSPECTED, VIEWED, EXPLAINED, COMPLETED, MANUAL,
];

/// The text after the help of the program.
const STATUSES: &str =
    "Without arguments, afx runs the program on standard input, as `afx run -` does. On a terminal it prints this help.

Example: afx serial examples/doubling.afx --input examples/doubling.json --arrays

Exit status:
  0  success: the run ended without faults, the program was accepted, the answer was printed, all tests passed
  1  rejected: command line, file, syntax, rule, race, input, choices, trace or output; not formatted; a test failed
  2  the run ended with faults
  3  the run exceeded its budget, or has not ended after its choices
  4  out of memory, weight or threads; too many tasks
  5  internal error: a task's result was lost, or a recorded trace is invalid";

/// What the manual page has after the commands.
pub const CLOSING: Closing<'static> = Closing {
    notes: STATUSES,
    examples: &[
        RUN_EXAMPLE,
        SERIAL_EXAMPLE,
        CHECK_EXAMPLE,
        LIST_EXAMPLE,
        LAYOUT_EXAMPLE,
        PAIRS_EXAMPLE,
        COST_EXAMPLE,
        BENCH_EXAMPLE,
        TEST_EXAMPLE,
        EXPLORE_EXAMPLE,
        WALK_EXAMPLE,
        INSPECT_EXAMPLE,
        VIEW_EXAMPLE,
        EXPLAIN_EXAMPLE,
        COMPLETIONS_EXAMPLE,
        MAN_EXAMPLE,
    ],
};

// ---- what a message about a mistake says

/// The numbers that an option takes, both ends included.
#[derive(Clone, Copy)]
pub struct Range {
    pub least: u64,
    pub most: u64,
}

/// Returns the commands that have an option with this name.
pub fn owners_of(alloc: Global, option: &str) -> Result<Vec<&'static str>, AllocError> {
    let mut owners = Vec::new(alloc);
    for row in ROWS {
        if has_option(row.entries, option) {
            owners.push(row.name)?;
        }
    }
    Ok(owners)
}

/// Returns whether an option with this name is among the entries of a command.
fn has_option(entries: &[Entry], option: &str) -> bool {
    for entry in entries {
        if entry.name == option && is_option(entry.takes) {
            return true;
        }
    }
    false
}

/// Returns the numbers that the option with this name takes, if it takes one.
pub fn range_of(option: &str) -> Option<Range> {
    for row in ROWS {
        if let Some(range) = range_in(row.entries, option) {
            return Some(range);
        }
    }
    None
}

/// Returns the numbers that the option with this name takes, if it is among the entries of a command
/// and takes one.
fn range_in(entries: &[Entry], option: &str) -> Option<Range> {
    for entry in entries {
        if entry.name == option
            && let Some(range) = numbers_of(entry.takes)
        {
            return Some(range);
        }
    }
    None
}

/// Returns whether an entry is an option.
fn is_option(takes: Takes) -> bool {
    match takes {
        Takes::File | Takes::Shell | Takes::Words => false,
        _ => true,
    }
}

/// Returns the numbers that an entry takes.
fn numbers_of(takes: Takes) -> Option<Range> {
    match takes {
        Takes::Number(least, most) | Takes::NumberBut(least, most, _) => Some(Range {
            least: u64::try_from(least).unwrap_or(0),
            most: u64::try_from(most).unwrap_or(0),
        }),
        Takes::Seed => Some(Range {
            least: 0,
            most: u64::MAX,
        }),
        _ => None,
    }
}

// ---- conversion to `clap`

/// Returns the program with its commands.
pub fn commands<'w>(alloc: Global) -> Result<Command<'w>, AllocError> {
    let mut program = Command::new(alloc, "afx")
        .bin_name("afx")?
        .about("Check and run task-parallel programs")
        .after_help(STATUSES)
        .version("0.2.0 (reads trace formats 1 and 2)")
        .no_binary_name(true)
        .subcommand_required(true);
    for row in ROWS {
        program = program.subcommand(command(alloc, row)?)?;
    }
    Ok(program)
}

/// Returns a command with its arguments and options.
fn command<'w>(alloc: Global, row: Row) -> Result<Command<'w>, AllocError> {
    let mut command = Command::new(alloc, row.name)
        .about(row.about)
        .after_help(row.example);
    for entry in row.entries {
        command = command.arg(argument(alloc, *entry)?)?;
    }
    Ok(command)
}

/// Returns an argument or an option of a command.
fn argument<'w>(alloc: Global, entry: Entry) -> Result<Arg<'w>, AllocError> {
    let argument = Arg::new(alloc, entry.name).help(entry.help);
    Ok(match entry.takes {
        Takes::File => argument.required(true),
        Takes::Shell => argument.required(true).value_parser(Shell::NAMES),
        Takes::Words => argument.num_args(0..),
        Takes::Nothing => argument.long(entry.name).action(ArgAction::SetTrue),
        Takes::NothingBut(others) => {
            let argument = argument.long(entry.name).action(ArgAction::SetTrue);
            argument.conflicts_with_all(others)?
        }
        Takes::Text(value) => argument.long(entry.name).value_name(value),
        Takes::TextBut(value, others) => {
            let argument = argument.long(entry.name).value_name(value);
            argument.conflicts_with_all(others)?
        }
        Takes::TextsBut(value, others) => {
            let argument = argument.long(entry.name).value_name(value);
            argument
                .action(ArgAction::Append)
                .conflicts_with_all(others)?
        }
        Takes::OneOf(value, words) => argument
            .long(entry.name)
            .value_name(value)
            .value_parser(words),
        Takes::OneOfWith(value, words, other) => {
            let argument = argument
                .long(entry.name)
                .value_name(value)
                .value_parser(words);
            argument.requires_arg(other)?
        }
        Takes::MaybeOneOf(value, words, missing) => argument
            .long(entry.name)
            .value_name(value)
            .value_parser(words)
            .num_args(0..=1)
            .require_equals(true)
            .default_missing_value(missing),
        Takes::Number(least, most) => argument
            .long(entry.name)
            .value_name("N")
            .value_parser(value_parser!(u64).range(least..=most)),
        Takes::NumberBut(least, most, others) => {
            let argument = argument.long(entry.name).value_name("N");
            let argument = argument.conflicts_with_all(others)?;
            argument.value_parser(value_parser!(u64).range(least..=most))
        }
        Takes::Seed => argument
            .long(entry.name)
            .value_name("SEED")
            .value_parser(value_parser!(u64)),
    })
}
