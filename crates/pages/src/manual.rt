//! The manual page.

use crate::find::tables;
use crate::offers::{needs_equals, takes_value, value_name};
use crate::page::push_all;
use crate::quoting::Quoting;
use clap::builder::ValueParser;
use clap::{Arg, Command};
use std::alloc::{AllocError, Global};

/// The texts of the manual page that `clap` doesn't have.
#[derive(Clone, Copy)]
pub struct Closing<'a> {
    /// The text after the help of the program: a paragraph, an example, and the exit statuses at
    /// its end.
    pub notes: &'a str,
    /// The text after the help of each command, in order: a paragraph or none, and lines that begin
    /// with `Example: `.
    pub examples: &'a [&'a str],
}

/// Returns the manual page of a program with these commands, for `man -l`.
pub fn page(
    alloc: Global,
    program: &Command<'_>,
    closing: Closing<'_>,
) -> Result<String, AllocError> {
    let mut text = String::new(alloc);
    push_title(&mut text, program)?;
    push_commands(alloc, &mut text, program, closing)?;
    push_statuses(&mut text, closing.notes)?;
    push_messages(&mut text)?;
    push_examples(&mut text, closing.examples)?;
    Ok(text)
}

/// Adds the description of the program, and each command.
fn push_commands(
    alloc: Global,
    text: &mut String,
    program: &Command<'_>,
    closing: Closing<'_>,
) -> Result<(), AllocError> {
    text.push_str(".SH DESCRIPTION\n")?;
    push_paragraph(text, closing.notes)?;
    text.push_str(".SH COMMANDS\n")?;
    let mut examples = closing.examples.iter();
    for command in program.get_subcommands() {
        push_command(alloc, text, command)?;
        if let Some(behind) = examples.next() {
            push_paragraph(text, *behind)?;
        }
    }
    Ok(())
}

/// Adds what each page is about.
fn push_messages(text: &mut String) -> Result<(), AllocError> {
    text.push_str(
        ".SH MESSAGES\n\\fBafx explain\\fR \\fIWORD\\fR prints the full page for each of these.\n",
    )?;
    for table in &tables() {
        for page in *table {
            text.push_str(".TP 16\n.B ")?;
            Quoting::Roff.push(text, page.name)?;
            text.push('\n')?;
            push_line(text, page.about)?;
        }
    }
    Ok(())
}

/// Adds the title and what the program does.
fn push_title(text: &mut String, program: &Command<'_>) -> Result<(), AllocError> {
    let version = program.get_version().unwrap_or("");
    push_all(
        text,
        &[
            ".TH AFX 1 \"\" \"afx ",
            version,
            "\" \"User Commands\"\n.SH NAME\nafx \\- ",
        ],
    )?;
    push_line(text, program.get_about().unwrap_or(""))?;
    text.push_str(".SH SYNOPSIS\n.B afx\n\\fICOMMAND\\fR [\\fIOPTIONS\\fR] [\\fIFILE\\fR]\n")
}

/// Adds a command: its usage, what it does, and its arguments.
fn push_command(alloc: Global, text: &mut String, command: &Command<'_>) -> Result<(), AllocError> {
    push_all(text, &[".SS afx ", command.get_name()])?;
    for arg in command.get_arguments() {
        if arg.is_positional() {
            push_positional(alloc, text, arg)?;
        }
    }
    text.push('\n')?;
    push_line(text, command.get_about().unwrap_or(""))?;
    for arg in command.get_arguments() {
        push_argument(alloc, text, arg)?;
    }
    Ok(())
}

/// Adds a positional argument to a usage, in brackets if it is optional.
fn push_positional(alloc: Global, text: &mut String, arg: &Arg<'_>) -> Result<(), AllocError> {
    let name = value_name(alloc, arg)?;
    if arg.is_required_set() {
        push_all(text, &[" ", name.as_str()])
    } else {
        push_all(text, &[" [", name.as_str(), "]"])
    }
}

/// Adds an argument and its help.
fn push_argument(alloc: Global, text: &mut String, arg: &Arg<'_>) -> Result<(), AllocError> {
    text.push_str(".TP\n")?;
    push_option(text, arg)?;
    if takes_value(arg) {
        let name = value_name(alloc, arg)?;
        if needs_equals(arg) {
            push_all(text, &["[=\\fI", name.as_str(), "\\fR]"])?;
        } else {
            push_all(text, &["\\fI", name.as_str(), "\\fR"])?;
        }
    }
    text.push('\n')?;
    push_line(text, arg.get_help().unwrap_or(""))?;
    push_values(text, arg)
}

/// Adds the option of an argument, if it has one: `--input`, in bold.
fn push_option(text: &mut String, arg: &Arg<'_>) -> Result<(), AllocError> {
    if let Some(long) = arg.get_long() {
        text.push_str("\\fB\\-\\-")?;
        Quoting::Roff.push(text, long)?;
        text.push_str("\\fR ")?;
    }
    Ok(())
}

/// Adds the possible values of an argument, if they are words: `(one of: text, json)`
fn push_values(text: &mut String, arg: &Arg<'_>) -> Result<(), AllocError> {
    if let ValueParser::Names(names) = arg.get_value_parser() {
        let mut mark = "(one of: ";
        for name in names {
            push_all(text, &[mark, *name])?;
            mark = ", ";
        }
        text.push_str(")\n")?;
    }
    Ok(())
}

/// Adds the text before the examples as a paragraph at the margin, if there is one.
fn push_paragraph(text: &mut String, behind: &str) -> Result<(), AllocError> {
    if behind.starts_with("Example: ") {
        return Ok(());
    }
    text.push_str(".PP\n")?;
    let mut here = true;
    for line in behind.lines() {
        here = here && !line.starts_with("Example: ");
        if here && !line.is_empty() {
            push_line(text, line)?;
        }
    }
    Ok(())
}

/// Adds the exit statuses, which are at the end of the notes, one per line.
fn push_statuses(text: &mut String, notes: &str) -> Result<(), AllocError> {
    text.push_str(".SH EXIT STATUS\n.nf\n")?;
    let mut here = false;
    for line in notes.lines() {
        if here {
            push_line(text, line.trim_start())?;
        }
        here = here || line == "Exit status:";
    }
    text.push_str(".fi\n")
}

/// Adds the examples, one per line.
fn push_examples(text: &mut String, examples: &[&str]) -> Result<(), AllocError> {
    text.push_str(".SH EXAMPLES\n.nf\n")?;
    for example in examples {
        for line in example.lines() {
            if let Some(command) = line.strip_prefix("Example: ") {
                push_line(text, command)?;
            }
        }
    }
    text.push_str(".fi\n")
}

/// Adds a line of text, also if it begins with a dot.
fn push_line(text: &mut String, line: &str) -> Result<(), AllocError> {
    if line.starts_with('.') {
        text.push_str("\\&")?;
    }
    Quoting::Roff.push(text, line)?;
    text.push('\n')
}
