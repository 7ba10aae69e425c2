//! Replies to command lines that need no program file.

ghost use Rattle.std.specs.Prelude.{◌≡◌, IfErr, IfOk};
ghost use Rattle.clap.specs.Values.{kind_of};
ghost use Rattle.clap.specs.declared.error.kind.ErrorKind.TheVariants.{OutOfMemory};
ghost use Rattle.options.specs.Replies.{IsConflict};
ghost use Rattle.options.specs.declared.reply.Reply.TheVariants.{Said};

use crate::table::{commands, owners_of, range_of};
use clap::error::ErrorKind;
use clap::{ArgMatches, Command, Error};
use pages::find::{contents, page_about, push_name_lines, tables};
use pages::manual::{self, Closing};
use pages::shell::Shell;
use std::alloc::{AllocError, Global};

/// The reply to a command line that needs no program file.
#[derive(Drop)]
pub enum Reply {
    /// What `clap` prints: help, the version, or an error in the command line, such as `afx chek`.
    Said(Error),
    /// A requested text for standard output, such as the page of `afx explain Y5`.
    Page(String),
    /// Lines for standard error: there is no page for these words, as in `afx explain Y99`, or the
    /// first argument is a program and not a command, as in `afx a.afx`.
    NoPage(String),
}

impl From<Error> for Reply {
    ghost from_gives = { λ error reply. reply ≡ Said error };

    fn from(error: Error) -> Reply {
        Reply::Said(error)
    }
}

impl From<AllocError> for Reply {
    ghost from_gives = { λ _ reply. IsConflict reply };

    fn from(error: AllocError) -> Reply {
        Reply::Said(Error::from(error))
    }
}

/// Parses the arguments with `clap` and the table. Returns what `clap` finds, or the reply.
pub fn matched<'w>(alloc: Global, words: &'w [String]) -> Result<ArgMatches<'w>, Reply> {
    match commands(alloc)?.try_get_matches_from(words) {
        Ok(matches) => Ok(matches),
        Err(error) => Err(mistaken(alloc, words, error)?),
    }
}

/// Returns what `clap` prints about the arguments, with what is right if that is known: how to run
/// a program that comes first, the commands that have an option, or the range of a number.
fn mistaken(alloc: Global, words: &[String], error: Error) -> Result<Reply, AllocError> {
    let mut hint = String::new(alloc);
    match error.kind() {
        ErrorKind::InvalidSubcommand => push_run(&mut hint, words)?,
        ErrorKind::UnknownArgument => push_owners(alloc, &mut hint, &error)?,
        ErrorKind::ValueValidation => push_range(alloc, &mut hint, &error)?,
        _ => {}
    }
    if hint.is_empty() {
        return Ok(Reply::Said(error));
    }
    let said = format!(in alloc; "{error}")?;
    Ok(Reply::NoPage(with_hint(alloc, &said, &hint)?))
}

/// Adds how to run the program that the first argument names, if it names one.
fn push_run(hint: &mut String, words: &[String]) -> Result<(), AllocError> {
    match words.first() {
        Some(word) if word.as_str().ends_with(".afx") => {
            hint.push_str("to run it: afx run ")?;
            push_shown(hint, word)
        }
        _ => Ok(()),
    }
}

/// Adds which commands have the option that is unexpected after another command.
fn push_owners(alloc: Global, hint: &mut String, error: &Error) -> Result<(), AllocError> {
    let said = format!(in alloc; "{error}")?;
    let Some(option) = quoted_behind(&said, "unexpected argument '--") else {
        return Ok(());
    };
    let owners = owners_of(alloc, option)?;
    if owners.is_empty() {
        return Ok(());
    }
    write!(hint, "tip: '--{option}' is an option of")?;
    let mut before = " ";
    for owner in &owners {
        write!(hint, "{before}'afx {owner}'")?;
        before = ", ";
    }
    Ok(())
}

/// Adds which numbers the option takes whose value is invalid.
fn push_range(alloc: Global, hint: &mut String, error: &Error) -> Result<(), AllocError> {
    let said = format!(in alloc; "{error}")?;
    let Some(named) = quoted_behind(&said, "' for '--") else {
        return Ok(());
    };
    let (option, _) = named.split_once(' ').unwrap_or((named, ""));
    match range_of(option) {
        Some(range) => {
            let (least, most) = (range.least, range.most);
            write!(
                hint,
                "tip: '--{option}' takes an integer from {least} to {most}, in digits"
            )
        }
        None => Ok(()),
    }
}

/// Returns what follows some words of a message, up to the next quote.
fn quoted_behind<'s>(said: &'s str, words: &str) -> Option<&'s str> {
    let (_, behind) = said.split_once(words)?;
    let (quoted, _) = behind.split_once('\'')?;
    Some(quoted)
}

/// Returns the error for two arguments that name the same file.
pub fn named_twice(alloc: Global) -> Result<Reply, Error>
    ensures conflict { IfOk result IsConflict }
    ensures memory { IfErr result (λ error. kind_of error ≡ OutOfMemory) }
{
    let mistake = "the same file is named twice: name each file once, and standard input once";
    Ok(Reply::Said(commands(alloc)?.error(ErrorKind::ArgumentConflict, mistake)?))
}

/// Inserts a line after the first paragraph of an error, in place of a tip of `clap`.
fn with_hint(alloc: Global, said: &str, hint: &str) -> Result<String, AllocError> {
    let (first, others) = said.split_once("\n\n").unwrap_or((said, ""));
    let mut text = String::from_str(alloc, first)?;
    write!(text, "\n\n  {hint}\n\n")?;
    text.push_str(without_tip(others))?;
    Ok(text)
}

/// Returns the paragraphs of a message without a tip at their start.
fn without_tip(paragraphs: &str) -> &str {
    match paragraphs.strip_prefix("  tip:") {
        Some(behind) => match behind.split_once("\n\n") {
            Some((_, others)) => others,
            None => "",
        },
        None => paragraphs,
    }
}

/// Returns the page for the words after `explain`. Without words, or with `--list`, returns the
/// list of all pages.
pub fn explained(alloc: Global, given: &ArgMatches<'_>) -> Result<Reply, AllocError> {
    let words = given.get_strs("WORD").unwrap_or(&[]);
    if words.is_empty() || given.get_flag("list") {
        return Ok(Reply::Page(contents(alloc, &tables())?));
    }
    let word = words.join(alloc, " ")?;
    match page_about(alloc, &tables(), &word)? {
        Some(page) => Ok(Reply::Page(page.text(alloc)?)),
        None => Ok(Reply::NoPage(pages_but(alloc, &word)?)),
    }
}

/// Returns the error for a word without a page, with the list of words that have one.
fn pages_but(alloc: Global, word: &str) -> Result<String, AllocError> {
    let mut text = String::from_str(alloc, "no page for '")?;
    push_shown(&mut text, word)?;
    text.push_str("'; available pages:")?;
    push_name_lines(&mut text, &tables())?;
    Ok(text)
}

/// Adds a word, with a dot for each control character.
fn push_shown(text: &mut String, word: &str) -> Result<(), AllocError> {
    for c in word.chars() {
        text.push(if c.is_control() { '.' } else { c })?;
    }
    Ok(())
}

/// Returns the completion script of the given shell for a program with these commands. `clap` has
/// already checked the name of the shell.
pub fn completions(
    alloc: Global,
    given: &ArgMatches<'_>,
    program: &Command<'_>,
) -> Result<Reply, AllocError> {
    let shell = given.get_str("SHELL").unwrap_or("bash");
    match Shell::named(shell) {
        Some(shell) => Ok(Reply::Page(shell.script(alloc, program)?)),
        None => Ok(Reply::NoPage(String::from_str(alloc, "no such shell\n")?)),
    }
}

/// Returns the manual page of a program with these commands.
pub fn manual(
    alloc: Global,
    program: &Command<'_>,
    closing: Closing<'_>,
) -> Result<Reply, AllocError> {
    Ok(Reply::Page(manual::page(alloc, program, closing)?))
}
