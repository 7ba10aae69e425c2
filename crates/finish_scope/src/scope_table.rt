//! Tables of scopes.

ghost use Rattle.std.specs.Prelude.{◌≡◌, ◌≤◌, length, IfErr, IfOk, Some, option_map, slice_get};
ghost use Rattle.std.specs.Arc.{arc_value};
ghost use Rattle.finish_scope.specs.ScopeTables.{TellsMissing, in_slot};

use crate::causes::Missing;
use std::alloc::{AllocError, Global};
use std::sync::Arc;

/// The scopes that one worker opened, each in a slot. Nothing is known of a lock but its type, so a
/// scope table is generic: its contracts name what is in a slot.
#[derive(Drop)]
pub struct ScopeTable<T> {
    scopes: Vec<Option<Arc<T>>>,
    /// The empty slots.
    free: Vec<usize>,
}

impl<T: Drop> ScopeTable<T> {
    /// Returns a scope table with no scopes.
    pub fn new(alloc: Global) -> ScopeTable<T> {
        ScopeTable {
            scopes: Vec::new(alloc),
            free: Vec::new(alloc),
        }
    }

    /// Puts a scope into an empty slot, and returns the slot's number.
    pub fn add(&mut self, scope: Arc<T>) -> Result<usize, AllocError> {
        if let Some(slot) = self.free.pop() {
            if let Some(entry) = self.scopes.get_mut(slot) {
                *entry = Some(scope);
                return Ok(slot);
            }
        }
        let slot = self.scopes.len();
        self.scopes.push(Some(scope))?;
        Ok(slot)
    }

    /// Returns the scope in this slot, if there is one.
    pub fn find(&self, slot: usize) -> Result<Arc<T>, FindError>
        ensures found { IfOk result (λ scope. option_map arc_value
            (in_slot self.now.scopes.items slot) ≡ Some (arc_value scope)) }
        ensures missing { IfErr result (TellsMissing self.now.scopes.items slot) }
    {
        match self.scopes.get(slot) {
            Some(entry) => match entry {
                Some(scope) => match Arc::try_clone(scope) {
                    Ok(scope) => Ok(scope),
                    Err(_) => Err(FindError::OutOfMemory),
                },
                None => Err(FindError::NoScope(Missing { number: slot })),
            },
            None => Err(FindError::NoScope(Missing { number: slot })),
        }
    }

    /// Empties this slot.
    pub fn free(&mut self, slot: usize) -> Result<(), AllocError> {
        if let Some(entry) = self.scopes.get_mut(slot) {
            *entry = None;
            self.free.push(slot)?;
        }
        Ok(())
    }
}

/// Why a scope isn't found.
#[derive(Debug, Drop)]
pub enum FindError {
    /// There was no memory to increment the scope's reference count.
    OutOfMemory,
    /// Nothing is in the slot. Example: slot 0 of a new scope table.
    NoScope(Missing),
}

/// Returns the scope table of this number.
pub fn table_at<T>(tables: &[T], number: usize) -> Result<&T, Missing>
    ensures table { IfOk result (λ t. slice_get tables.now number ≡ Some t.now) }
    ensures missing { IfErr result (λ m. (m.number ≡ number) × (length tables.now ≤ number)) }
{
    match tables.get(number) {
        Some(table) => Ok(table),
        None => Err(Missing { number }),
    }
}
