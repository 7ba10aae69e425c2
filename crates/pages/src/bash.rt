//! Completions for bash.

use crate::offers::{Wording, needs_equals, takes_value};
use crate::page::push_all;
use clap::{Arg, Command};
use std::alloc::{AllocError, Global};

/// The text before the commands.
const HEAD: &str = "# Completions of afx for bash: source <(afx completions bash)
_afx() {
    local now=${COMP_WORDS[COMP_CWORD]} before=${COMP_WORDS[COMP_CWORD-1]} command=${COMP_WORDS[1]}
    local options= offer= words=
";

/// The text after the commands.
const TAIL: &str = "    case $now in
    -*) offer=words words=$options ;;
    esac
    local IFS=$'\\n'
    case $offer in
    words) COMPREPLY=($(IFS=' '; compgen -W \"$words\" -- \"$now\")) ;;
    file) compopt -o filenames; COMPREPLY=($(compgen -f -- \"$now\")) ;;
    folder) compopt -o filenames; COMPREPLY=($(compgen -d -- \"$now\")) ;;
    afx | json)
        compopt -o filenames
        COMPREPLY=($(compgen -f -X \"!*.$offer\" -- \"$now\") $(compgen -d -- \"$now\"))
        [ ${#COMPREPLY[@]} -gt 0 ] || COMPREPLY=($(compgen -f -- \"$now\"))
        ;;
    esac
}
complete -F _afx afx
";

/// How each offer is written.
const OFFERS: Wording = Wording {
    program: " offer=afx",
    input: " offer=json",
    file: " offer=file",
    folder: " offer=folder",
    open: " offer=words words=\"",
    close: "\"",
    nothing: " offer=",
};

/// Returns the script with which bash completes the arguments of a program with these commands.
pub fn script(alloc: Global, program: &Command<'_>) -> Result<String, AllocError> {
    let mut text = String::from_str(alloc, HEAD)?;
    push_first(&mut text, program)?;
    push_commands(alloc, &mut text, program)?;
    push_behind_options(alloc, &mut text, program)?;
    text.push_str(TAIL)?;
    Ok(text)
}

/// Adds the completion of the first argument: a command.
fn push_first(text: &mut String, program: &Command<'_>) -> Result<(), AllocError> {
    text.push_str("    local commands=\"")?;
    for command in program.get_subcommands() {
        push_all(text, &[command.get_name(), " "])?;
    }
    text.push_str("help\"\n    if [ \"$COMP_CWORD\" -eq 1 ]; then\n")?;
    text.push_str(
        "        COMPREPLY=($(compgen -W \"$commands --help --version\" -- \"$now\"))\n",
    )?;
    text.push_str("        return\n    fi\n")
}

/// Adds the options and the offer of each command.
fn push_commands(
    alloc: Global,
    text: &mut String,
    program: &Command<'_>,
) -> Result<(), AllocError> {
    text.push_str("    case $command in\n")?;
    for command in program.get_subcommands() {
        push_command(alloc, text, command)?;
    }
    text.push_str("    help) offer=words words=$commands ;;\n    esac\n")
}

/// Adds what can follow the options of each command.
fn push_behind_options(
    alloc: Global,
    text: &mut String,
    program: &Command<'_>,
) -> Result<(), AllocError> {
    text.push_str("    case \"$command $before\" in\n")?;
    for command in program.get_subcommands() {
        push_values(alloc, text, command)?;
    }
    text.push_str("    esac\n")
}

/// Adds the options of a command and what its argument can be: `list) options="--lines --help"
/// offer=afx ;;`
fn push_command(alloc: Global, text: &mut String, command: &Command<'_>) -> Result<(), AllocError> {
    push_options(text, command)?;
    for arg in command.get_arguments() {
        if arg.is_positional() {
            OFFERS.push(alloc, text, arg)?;
        }
    }
    text.push_str(" ;;\n")
}

/// Adds the options of a command: `list) options="--lines --help"`
fn push_options(text: &mut String, command: &Command<'_>) -> Result<(), AllocError> {
    push_all(text, &["    ", command.get_name(), ") options=\""])?;
    for arg in command.get_arguments() {
        if let Some(long) = arg.get_long() {
            push_all(text, &["--", long, " "])?;
        }
    }
    text.push_str("--help\"")
}

/// Adds the values of a command's options: `"run --input") offer=json ;;`
fn push_values(alloc: Global, text: &mut String, command: &Command<'_>) -> Result<(), AllocError> {
    for arg in command.get_arguments() {
        if let Some(long) = arg.get_long() {
            if takes_value(arg) && !needs_equals(arg) {
                push_all(text, &["    \"", command.get_name(), " --", long, "\")"])?;
                OFFERS.push(alloc, text, arg)?;
                text.push_str(" ;;\n")?;
            }
        }
    }
    Ok(())
}
