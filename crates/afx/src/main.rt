//! `afx` runs programs with tasks.

#![tactic(auto)]

use driver::act::{act, refuse_words};
use driver::folders::MachineFolders;
use driver::progress::Progress;
use driver::terminal::{Sight, WatchedTerminal};
use driver::ticker::{Erasing, Ticker};
use std::env::VarError;
use std::io::{BufWriter, IsTerminal, Stderr};
use std::process::ExitCode;
use std::sync::Wait;
use std::thread::Threads;
use std::time::Clock;
use std::{env, io, thread};

/// Carries out the arguments after the program's name.
fn main(rt: HostRuntime) -> ExitCode {
    let status = match words(&rt) {
        Ok(words) => match terminal(&rt) {
            Some(seen) if shows_time(&words) => with_time(&rt, &rt, &words, seen),
            _ => carried_out(&rt, &rt, &words, None),
        },
        Err(error) => refuse_words(rt.alloc(), &error, &mut rt.stderr()),
    };
    ExitCode::from(status)
}

/// Returns whether a line shows how long a command has worked: nobody types its program, and it
/// doesn't report its progress itself.
fn shows_time(words: &[String]) -> bool {
    let mut shows = !words.is_empty();
    for word in words {
        if word.as_str() == "-" || word.as_str() == "--progress" {
            shows = false;
        }
    }
    shows
}

/// Carries out the arguments, and shows at the terminal how long that takes. If there is no thread
/// for the line, it isn't shown.
fn with_time<R: Threads + Wait + Clock + Sync>(
    rt: &HostRuntime,
    threads: &R,
    words: &[String],
    seen: Stderr,
) -> u8 {
    let ticker = Ticker::new(seen);
    thread::scope(thread::scope_env(), threads, |scope| -> u8 {
        let _ = scope.spawn(|| ticker.tick(threads, "afx"));
        let status = carried_out(rt, threads, words, Some(&ticker));
        ticker.end(threads);
        status
    })
}

/// Carries out the arguments. The line of a ticker is erased before anything is written.
fn carried_out<R: Threads + Wait + Sync>(
    rt: &HostRuntime,
    threads: &R,
    words: &[String],
    ticker: Option<&Ticker<Stderr>>,
) -> u8 {
    let alloc = rt.alloc();
    let mut err = Erasing::new(threads, ticker, rt.stderr());
    let mut out = match BufWriter::new(alloc, Erasing::new(threads, ticker, rt.stdout())) {
        Ok(out) => out,
        Err(error) => return refuse_words(alloc, &error, &mut err),
    };
    let mut files = MachineFolders::new(rt);
    let seen = terminal(rt);
    let sight = Sight {
        is_terminal: seen.is_some(),
        has_colours: seen.is_some() && !refuses_colours(rt),
    };
    let mut progress = WatchedTerminal::new(Progress::new(alloc, rt, seen), sight, rt);
    act(
        threads,
        alloc,
        words,
        &mut files,
        &mut out,
        &mut err,
        &mut progress,
    )
}

/// Returns the standard error, if it is a terminal.
fn terminal(rt: &HostRuntime) -> Option<Stderr> {
    let err = rt.stderr();
    if err.is_terminal() { Some(err) } else { None }
}

/// Returns whether `NO_COLOR` is set, and not empty.
fn refuses_colours(rt: &HostRuntime) -> bool {
    match env::var(rt, "NO_COLOR") {
        Ok(value) => !value.is_empty(),
        Err(VarError::NotPresent) => false,
        Err(_) => true,
    }
}

/// Returns the arguments after the program's name. Without arguments at a terminal it requests help,
/// because nobody types a program there. `help --help` requests help too; for `clap` it would be an
/// error.
fn words(rt: &HostRuntime) -> io::Result<Vec<String>> {
    let alloc = rt.alloc();
    let mut words = Vec::new(alloc);
    for word in env::args(rt)?.skip(1) {
        words.push(word)?;
    }
    if asks_about_help(&words) {
        words.clear();
        words.push(String::from_str(alloc, "--help")?)?;
    }
    if words.is_empty() && rt.stdin().is_terminal() {
        words.push(String::from_str(alloc, "--help")?)?;
    }
    Ok(words)
}

/// Returns whether the arguments are `help --help` or `help -h`.
fn asks_about_help(words: &[String]) -> bool {
    match words {
        [first, second] => {
            let second = second.as_str();
            first.as_str() == "help" && (second == "--help" || second == "-h")
        }
        _ => false,
    }
}
