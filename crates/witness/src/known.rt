//! The known ways from the bodies of procedures to one access.

ghost use Rattle.std.specs.Prelude.{◌≡◌, ◌∷◌, ◌↔◌, ℕ, Bool, IfOk, IsTrue, None, OnOk, length, option_map};
ghost use Rattle.witness.specs.Least.{AtMost};
ghost use Rattle.witness.specs.Known.{IsPut, steps, way_at, way_known};

use crate::step::{WayStep, led};
use sections::id::SectionId;
use std::alloc::{AllocError, Global};
use std::collections::HashMap;
use types::ids::ProcedureId;

/// An entry of a way into a procedure: at the procedure's body, to an access to this parameter that
/// the body does or leaves pending.
#[derive(Clone, Copy)]
pub(crate) struct Entry {
    pub procedure: ProcedureId,
    pub parameter: SectionId,
    pub pending: bool,
}

/// The shortest ways that were found so far, by the numbers of a procedure and of a parameter.
#[derive(Drop)]
pub(crate) struct Known {
    /// The ways to what a procedure does.
    pub done: HashMap<(usize, usize), Vec<WayStep>>,
    /// The ways to what a procedure leaves pending.
    pub pending: HashMap<(usize, usize), Vec<WayStep>>,
}

impl Known {
    /// Returns a table without ways. Takes no memory.
    pub fn nothing(alloc: Global) -> Known
        ensures { (m : Bool) (f k : ℕ) → way_known result m f k ≡ None }
    {
        Known {
            done: HashMap::new(alloc),
            pending: HashMap::new(alloc),
        }
    }

    /// Returns whether there is a way at an entry, with at most `steps` steps.
    pub fn has_within(&self, entry: Entry, steps: usize) -> bool
        ensures { IsTrue result ↔ AtMost length (way_at self.now entry) steps }
    {
        match self.way(entry) {
            Some(way) => way.len() <= steps,
            None => false,
        }
    }

    /// Returns the way at an entry, with a step in front.
    pub fn led_from(
        &self,
        alloc: Global,
        step: WayStep,
        entry: Entry,
    ) -> Result<Option<Vec<WayStep>>, AllocError>
        ensures { IfOk result (λ found. steps found
            ≡ option_map (λ way. step ∷ way) (way_at self.now entry)) }
    {
        match self.way(entry) {
            Some(way) => {
                let longer = led(alloc, step, way)?;
                Ok(Some(longer))
            }
            None => Ok(None),
        }
    }

    /// Stores a way, and replaces an existing one.
    pub fn put(&mut self, entry: Entry, way: Vec<WayStep>) -> Result<(), AllocError>
        ensures { OnOk result (IsPut entry way.items self.old self.new) }
    {
        let key = entry.key();
        if entry.pending {
            self.pending.insert(key, way)?;
        } else {
            self.done.insert(key, way)?;
        }
        Ok(())
    }

    /// Returns the way at an entry.
    fn way(&self, entry: Entry) -> Option<&Vec<WayStep>>
        ensures { option_map (λ way. way.now.items) result ≡ way_at self.now entry }
    {
        let key = entry.key();
        if entry.pending {
            self.pending.get(&key)
        } else {
            self.done.get(&key)
        }
    }
}

impl Entry {
    /// Returns the key of the entry in the tables.
    fn key(self) -> (usize, usize)
        ensures { result ≡ (self.procedure.number, self.parameter.number) }
    {
        (self.procedure.number, self.parameter.number)
    }
}
