//! What shells offer for an argument.

use crate::find::{push_names, tables};
use crate::page::push_all;
use clap::builder::ValueParser;
use clap::{Arg, ArgAction};
use std::alloc::{AllocError, Global};

/// What an argument can be.
#[derive(Clone, Copy)]
pub enum Offer<'a> {
    /// A program: `*.afx` before other files.
    Program,
    /// An input: `*.json` before other files.
    Input,
    /// Any file.
    File,
    /// A folder.
    Folder,
    /// The name of a page.
    Page,
    /// One of these words.
    Words(&'a [&'a str]),
    /// A number, or another value that can't be completed.
    Nothing,
}

/// How the script of a shell writes each offer.
#[derive(Clone, Copy)]
pub struct Wording {
    pub program: &'static str,
    pub input: &'static str,
    pub file: &'static str,
    pub folder: &'static str,
    /// Before words, and before the names of pages.
    pub open: &'static str,
    /// After them.
    pub close: &'static str,
    pub nothing: &'static str,
}

impl Wording {
    /// Adds the offer for an argument.
    pub fn push(self, alloc: Global, text: &mut String, arg: &Arg<'_>) -> Result<(), AllocError> {
        match offer_of(alloc, arg)? {
            Offer::Program => text.push_str(self.program),
            Offer::Input => text.push_str(self.input),
            Offer::File => text.push_str(self.file),
            Offer::Folder => text.push_str(self.folder),
            Offer::Page => {
                text.push_str(self.open)?;
                push_names(text, &tables())?;
                text.push_str(self.close)
            }
            Offer::Words(words) => {
                text.push_str(self.open)?;
                for word in words {
                    push_all(text, &[" ", *word])?;
                }
                text.push_str(self.close)
            }
            Offer::Nothing => text.push_str(self.nothing),
        }
    }
}

/// Returns the offer for an argument, by the words that it takes or by the name of its value, such
/// as `FILE`.
pub fn offer_of<'a>(alloc: Global, arg: &Arg<'a>) -> Result<Offer<'a>, AllocError> {
    if let ValueParser::Names(names) = arg.get_value_parser() {
        return Ok(Offer::Words(names));
    }
    let value = value_name(alloc, arg)?;
    Ok(match value.as_str() {
        "FILE" if arg.is_positional() => Offer::Program,
        "FILE" | "TRACE" | "OUT" => Offer::File,
        "FOLDER" => Offer::Folder,
        "JSON" => Offer::Input,
        "WORD" => Offer::Page,
        _ => Offer::Nothing,
    })
}

/// Returns the name of an argument's value, as the help shows it: `JSON` for `--input <JSON>`. For
/// a flag it is empty.
pub fn value_name(alloc: Global, arg: &Arg<'_>) -> Result<String, AllocError> {
    let mut name = String::new(alloc);
    if takes_value(arg) {
        let shown = format!(in alloc; "{arg}")?;
        for c in shown.chars() {
            if c.is_ascii_uppercase() {
                name.push(c)?;
            }
        }
    }
    Ok(name)
}

/// Returns whether the value of an option is optional and follows `=`, as in `--explain=never`.
pub fn needs_equals(arg: &Arg<'_>) -> bool {
    arg.is_require_equals_set()
}

/// Returns whether an option takes a value. A positional argument does.
pub fn takes_value(arg: &Arg<'_>) -> bool {
    match arg.get_action() {
        ArgAction::Set | ArgAction::Append => true,
        _ => false,
    }
}
