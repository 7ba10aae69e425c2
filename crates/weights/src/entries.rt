//! The entries of a book, whose paths share one allocation.

ghost use Rattle.std.specs.Prelude.{◌≡◌, ◌+◌, ◌≤◌, ◌∷◌, ◌++◌, [], IfOk, length, option_map};
ghost use Rattle.std.specs.Prelude.{slice_get, slice_range};
ghost use Rattle.std.specs.Bool.{OnTrue, OnFalse};
ghost use Rattle.weights.specs.Entries.{entry_of};

use crate::entry::Entry;
use std::alloc::{AllocError, Global};
use std::marker::Model;
use types::child_number::ChildNumber;
use types::path::Path;

/// A weight that came back, and the position of its task's path in the list of all turns.
#[derive(Clone, Copy)]
pub struct ReturnedWeight {
    pub at: usize,
    pub length: usize,
    pub weight: u64,
}

/// Weights that came back, in order, each with the path of the task that returned it.
#[derive(Drop)]
pub struct Entries {
    /// The turns of all paths, one path after the other. None is a separate allocation.
    turns: Vec<ChildNumber>,
    lines: Vec<ReturnedWeight>,
}

impl Model for Entries {
    ghost use Rattle.std.specs.Prelude.{List};
    ghost use Rattle.weights.specs.Ledger.{Returned};
    ghost use Rattle.weights.specs.Lines.{StandAmong, said_in};

    ghost Value = { List Returned };

    ghost view = { λ e. said_in e.turns.items e.lines.items };

    ghost invariant = { λ e. StandAmong e.turns.items e.lines.items };
}

impl Entries {
    /// Returns an empty list of entries.
    pub fn new(alloc: Global) -> Entries
        ensures { result ≡ [] }
    {
        Entries {
            turns: Vec::new(alloc),
            lines: Vec::new(alloc),
        }
    }

    /// Adds an entry. Returns false if there is no memory for it; then nothing has changed.
    pub fn add(&mut self, path: &Path, weight: u64) -> bool
        ensures added { OnTrue result (self.new ≡ self.old ++ (record {
          path = path.now.turns.items;
          weight = weight;
        }) ∷ []) }
        ensures same { OnFalse result (self.new ≡ self.old) }
    {
        let at = self.turns.len();
        let length = path.turns.len();
        if self.lines.reserve(1).is_err() {
            return false;
        }
        match self.turns.extend_from_slice(&path.turns) {
            Ok(()) => {
                self.lines
                    .push_reserved(ReturnedWeight { at, length, weight });
                true
            }
            Err(_) => false,
        }
    }

    /// Returns the entry with the given number, counted from 0, in newly allocated memory.
    pub fn entry(&self, alloc: Global, number: usize) -> Result<Option<Entry>, AllocError>
        ensures { IfOk result (λ e. option_map entry_of e ≡ slice_get self.now number) }
    {
        match line_at(&self.lines, number) {
            None => Ok(None),
            Some(line) => {
                let turns = Vec::from_slice(alloc, part_of(&self.turns, line))?;
                Ok(Some(Entry {
                    path: Path { turns },
                    weight: line.weight,
                }))
            }
        }
    }
}

/// Returns the line with the given number.
fn line_at(lines: &[ReturnedWeight], number: usize) -> Option<ReturnedWeight>
    ensures { result ≡ slice_get lines.now number }
{
    lines.get(number).copied()
}

/// Returns the path of a line.
fn part_of(turns: &[ChildNumber], line: ReturnedWeight) -> &[ChildNumber]
    requires { line.at + line.length ≤ length turns.now }
    ensures { result.now ≡ slice_range turns.now line.at (line.at + line.length) }
{
    &turns[line.at..line.at + line.length]
}
