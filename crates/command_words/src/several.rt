//! Several files after `check`, `fmt` or `test`.

use crate::manners::manner_in;
use crate::order::{Order, Several, SeveralTests};
use crate::plain::{Texts, is_file_name};
use crate::settings::settings_in;
use crate::taking::{take, take_flag};
use command_line::request::{Action, Command, Explain};

/// Returns the order for several files, which come after the options of a command.
pub fn each_in<'w>(words: &'w [String]) -> Option<Order<'w>> {
    match words {
        [] => None,
        [command, behind @ ..] => if command.as_str() == "test" {
            tests_in(behind)
        } else {
            Some(Order::Each(several_behind(command.as_str(), behind)?))
        },
    }
}

/// Returns the order of tests: with `--format json` for an object.
fn tests_in<'w>(behind: &'w [String]) -> Option<Order<'w>> {
    let (form, words) = take("--format", behind);
    match form {
        None => Some(Order::TestsEach(tests_behind(words, 2)?)),
        Some("json") => Some(Order::TestsAsObject(tests_behind(words, 1)?)),
        Some(_) => None,
    }
}

/// Returns the programs and folders that are tested: with `--write` one or more, else this many or
/// more.
fn tests_behind<'w>(behind: &'w [String], fewest: usize) -> Option<SeveralTests<'w>> {
    let (writes, words) = take_flag("--write", behind);
    let (steps, words) = take("--steps", words);
    let (nest, words) = take("--nest", words);
    let (tasks, words) = take("--tasks", words);
    let (w0, words) = take("--w0", words);
    let (workers, names) = take("--workers", words);
    let texts = Texts {
        steps,
        nest,
        tasks,
        w0,
        workers,
        ..Texts::none()
    };
    let fewest = if writes { 1 } else { fewest };
    if names.len() < fewest || !are_files(names) {
        return None;
    }
    Some(SeveralTests {
        names,
        settings: settings_in(texts)?,
        writes,
    })
}

/// An option of `check` or `fmt` that several files can follow.
#[derive(Clone, Copy)]
pub enum OwnOption {
    /// `--warn` of `check`
    Warn,
    /// `--check` of `fmt`
    Compare,
    /// `--write` of `fmt`
    Write,
}

/// Returns the action for several files. They come after the reporting options and an option of the
/// command itself, which can stand before or after those. The standard input isn't one of several
/// files.
fn several_behind<'w>(command: &str, behind: &'w [String]) -> Option<Several<'w>> {
    let (first, behind) = own_option_in(command, behind);
    let (manner, behind) = manner_in(behind)?;
    let (last, files) = own_option_in(command, behind);
    if files.len() < 2 || !are_files(files) {
        return None;
    }
    let own = one_of(first, last)?;
    let mut telling = manner.telling();
    if let Some(OwnOption::Warn) = own {
        telling.warn = Explain::Always;
    }
    Some(Several {
        action: action_by(command, own)?,
        files,
        telling,
    })
}

/// Returns the option that was given, if at most one was.
fn one_of(first: Option<OwnOption>, last: Option<OwnOption>) -> Option<Option<OwnOption>> {
    match (first, last) {
        (Some(_), Some(_)) => None,
        (Some(own), None) => Some(Some(own)),
        (None, own) => Some(own),
    }
}

/// Returns the option of a command that comes first, and the arguments after it.
fn own_option_in<'w>(command: &str, words: &'w [String]) -> (Option<OwnOption>, &'w [String]) {
    if command == "check" {
        return flag_in("--warn", OwnOption::Warn, words);
    }
    let (compares, others) = flag_in("--check", OwnOption::Compare, words);
    if compares.is_some() {
        return (compares, others);
    }
    flag_in("--write", OwnOption::Write, words)
}

/// Returns this option if it comes first, and the arguments after it.
fn flag_in<'w>(
    flag: &str,
    own: OwnOption,
    words: &'w [String],
) -> (Option<OwnOption>, &'w [String]) {
    let (is_given, others) = take_flag(flag, words);
    if is_given {
        (Some(own), others)
    } else {
        (None, words)
    }
}

/// Returns the action of a command with an option of its own.
fn action_by(command: &str, own: Option<OwnOption>) -> Option<Action> {
    if command == "check" {
        return Some(Action::Answer(Command::Check));
    }
    if command != "fmt" {
        return None;
    }
    Some(match own {
        Some(OwnOption::Compare) => Action::Answer(Command::CheckFormat),
        Some(OwnOption::Write) => Action::Rewrite,
        _ => Action::Answer(Command::Format),
    })
}

/// Returns whether each argument names a file other than the standard input.
fn are_files(words: &[String]) -> bool {
    for word in words {
        if word.as_str() == "-" || !is_file_name(word.as_str()) {
            return false;
        }
    }
    true
}
