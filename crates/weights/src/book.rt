//! The book of a scope.

ghost use Rattle.std.specs.Prelude.{◌≡◌, ◌+◌, ◌-◌, ◌<◌, ◌≤◌, ◌↔◌, IfOk, option_map, slice_get};
ghost use Rattle.weights.specs.Entries.{entry_of};
ghost use Rattle.weights.specs.Ledger.{issued_of, returned_of, opened, minted, GivesBack};

use crate::entries::Entries;
use crate::entry::Entry;
use crate::weight::Weight;
use std::alloc::{AllocError, Global};
use std::marker::Model;
use types::path::Path;

/// The maximum number of times that a scope issues weight: 2^31.
pub const MOST_ISSUES: u64 = 2_147_483_648;

/// Whether some weight is still out.
#[derive(Clone, Copy, Debug, PartialEq, Eq)]
pub enum Back {
    /// Some of the issued weight is out.
    Open,
    /// All issued weight is back.
    Complete,
}

/// A scope's record of the weight that it issued and that came back. Its sums replay its mints,
/// entries and unlisted weight.
#[derive(Drop)]
pub struct Book {
    /// The amount that it issues at a time.
    w0: u64,
    /// The number of times that it has issued more.
    mints: u64,
    entries: Entries,
    /// The weight that came back while there was no memory for its entry.
    unlisted: u64,

    // The sums.
    issued: u64,
    returned: u64,
}

impl Model for Book {
    ghost use Rattle.std.specs.Prelude.{◌≡◌};
    ghost use Rattle.weights.specs.Ledger.{Ledger, issued_of, returned_of, IsSound};

    ghost Value = { Ledger };

    ghost view = { λ b. record {
      w0 = b.w0;
      mints = b.mints;
      entries = b.entries;
      unlisted = b.unlisted;
    } };

    ghost invariant = { λ b. let l : Ledger = record {
      w0 = b.w0;
      mints = b.mints;
      entries = b.entries;
      unlisted = b.unlisted;
    } in
        (b.issued ≡ issued_of l) × (b.returned ≡ returned_of l) × IsSound l };
}

impl Book {
    /// Returns a book that has issued w0 once, and that weight.
    pub fn open(alloc: Global, w0: u64) -> (Book, Weight)
        requires { (1 ≤ w0) × (w0 ≤ 4294967296) }
        ensures book { result.0 ≡ opened w0 }
        ensures weight { result.1 ≡ w0 }
    {
        let book = Book {
            w0,
            mints: 0,
            entries: Entries::new(alloc),
            unlisted: 0,
            issued: w0,
            returned: 0,
        };
        (book, Weight { units: w0 })
    }

    /// Returns the number of times that it has issued weight, including the opening.
    pub fn issues(&self) -> u64
        ensures issues { result ≡ 1 + self.now.mints }
        ensures most { result ≤ 2147483648 }
    {
        1 + self.mints
    }

    /// Returns the amount that it has issued.
    pub fn issued(&self) -> u64
        ensures { result ≡ issued_of self.now }
    {
        self.issued
    }

    /// Returns the amount that came back.
    pub fn returned(&self) -> u64
        ensures returned { result ≡ returned_of self.now }
        ensures within { result ≤ issued_of self.now }
    {
        self.returned
    }

    /// Returns the part of that amount that has no entry, because memory ran out.
    pub fn unlisted(&self) -> u64
        ensures { result ≡ self.now.unlisted }
    {
        self.unlisted
    }

    /// Returns the entry with the given number, counted from 0, in newly allocated memory. The
    /// entries are the weights that came back, in order, except unlisted ones.
    pub fn entry(&self, alloc: Global, number: usize) -> Result<Option<Entry>, AllocError>
        ensures { IfOk result (λ e. option_map entry_of e ≡ slice_get self.now.entries number) }
    {
        self.entries.entry(alloc, number)
    }

    /// Issues w0 more, in addition to a weight that is out.
    pub fn mint(&mut self, weight: Weight) -> Weight
        requires issues { 1 + self.old.mints < 2147483648 }
        requires out { weight ≤ issued_of self.old - returned_of self.old }
        ensures book { self.new ≡ minted self.old }
        ensures weight { result ≡ weight + self.old.w0 }
        ensures enough { 2 ≤ result }
    {
        let Weight { units } = weight;
        self.mints += 1;
        self.issued += self.w0;
        Weight {
            units: units + self.w0,
        }
    }

    /// Takes a weight back from the task with this path. It counts the weight even if there is no
    /// memory for its entry.
    pub fn back(&mut self, weight: Weight, path: &Path) -> Back
        requires { weight ≤ issued_of self.old - returned_of self.old }
        ensures book { GivesBack self.old self.new (record {
          path = path.now.turns.items;
          weight = weight;
        }) }
        ensures complete { (result ≡ Back.Complete) ↔ (returned_of self.new ≡ issued_of self.new) }
    {
        let Weight { units } = weight;
        self.returned += units;
        if !self.entries.add(path, units) {
            self.unlisted += units;
        }
        if self.returned == self.issued {
            Back::Complete
        } else {
            Back::Open
        }
    }
}
