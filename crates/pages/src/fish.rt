//! Completions for fish.

use crate::offers::{Wording, needs_equals, takes_value};
use crate::page::push_all;
use crate::quoting::Quoting;
use clap::{Arg, Command};
use std::alloc::{AllocError, Global};

/// The text before the commands.
const HEAD: &str =
    "# Completions of afx for fish: afx completions fish >~/.config/fish/completions/afx.fish
complete -c afx -f
complete -c afx -n __fish_use_subcommand -l help -d 'Print help'
complete -c afx -n __fish_use_subcommand -l version -d 'Print version'
complete -c afx -n __fish_use_subcommand -a help -d 'Print the help of a command'
";

/// How each offer is written.
const OFFERS: Wording = Wording {
    program: " -k -a '(__fish_complete_suffix .afx)'",
    input: " -k -a '(__fish_complete_suffix .json)'",
    file: " -F",
    folder: " -f -a '(__fish_complete_directories)'",
    open: " -f -a '",
    close: "'",
    nothing: " -f",
};

/// Returns the script with which fish completes the arguments of a program with these commands.
pub fn script(alloc: Global, program: &Command<'_>) -> Result<String, AllocError> {
    let mut text = String::from_str(alloc, HEAD)?;
    push_names(&mut text, program)?;
    for command in program.get_subcommands() {
        push_command(alloc, &mut text, command)?;
    }
    Ok(text)
}

/// Adds the commands, with what each does.
fn push_names(text: &mut String, program: &Command<'_>) -> Result<(), AllocError> {
    for command in program.get_subcommands() {
        let line = "complete -c afx -n __fish_use_subcommand -a ";
        push_all(text, &[line, command.get_name(), " -d '"])?;
        Quoting::Fish.push(text, command.get_about().unwrap_or(""))?;
        text.push_str("'\n")?;
    }
    Ok(())
}

/// Adds the arguments of a command.
fn push_command(alloc: Global, text: &mut String, command: &Command<'_>) -> Result<(), AllocError> {
    for arg in command.get_arguments() {
        push_argument(alloc, text, command.get_name(), arg)?;
    }
    push_begin(text, command.get_name())?;
    text.push_str(" -l help -d 'Print help'\n")
}

/// Adds the start of each line of a command.
fn push_begin(text: &mut String, command: &str) -> Result<(), AllocError> {
    let begin = "complete -c afx -n '__fish_seen_subcommand_from ";
    push_all(text, &[begin, command, "'"])
}

/// Adds the line of an option with its help and its value, or of a positional argument.
fn push_argument(
    alloc: Global,
    text: &mut String,
    command: &str,
    arg: &Arg<'_>,
) -> Result<(), AllocError> {
    push_begin(text, command)?;
    if let Some(long) = arg.get_long() {
        push_all(text, &[" -l ", long, " -d '"])?;
        Quoting::Fish.push(text, arg.get_help().unwrap_or(""))?;
        text.push('\'')?;
        if takes_value(arg) && !needs_equals(arg) {
            text.push_str(" -r")?;
        }
    }
    if takes_value(arg) {
        OFFERS.push(alloc, text, arg)?;
    }
    text.push('\n')
}
