//! Shell completions, by shell.

use crate::{bash, fish, zsh};
use clap::Command;
use std::alloc::{AllocError, Global};

/// A shell.
#[derive(Clone, Copy)]
pub enum Shell {
    Bash,
    Zsh,
    Fish,
}

impl Shell {
    /// The names of all shells.
    pub const NAMES: &'static [&'static str] = &["bash", "zsh", "fish"];

    /// Returns the shell with this name.
    pub fn named(name: &str) -> Option<Shell> {
        match name {
            "bash" => Some(Shell::Bash),
            "zsh" => Some(Shell::Zsh),
            "fish" => Some(Shell::Fish),
            _ => None,
        }
    }

    /// Returns the script with which it completes the arguments of a program with these commands.
    pub fn script(self, alloc: Global, program: &Command<'_>) -> Result<String, AllocError> {
        match self {
            Shell::Bash => bash::script(alloc, program),
            Shell::Zsh => zsh::script(alloc, program),
            Shell::Fish => fish::script(alloc, program),
        }
    }
}
