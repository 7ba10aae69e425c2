//! Reasons why a scope rejects a call.

use crate::causes::{Spent, Undue};

/// Why a scope issues nothing. The examples use a scope from `Inner::open(alloc, 8)`.
#[derive(Debug, Drop)]
pub enum Reason {
    /// L1: that much weight isn't out. Example: `replenish` with a weight of 9. Once a scope has
    /// passed, no weight is out.
    NotDue(Undue),
    /// L2: it has issued weight as often as its book can count. Example: the 2,147,483,648th
    /// `replenish`.
    IssuedTooOften(Spent),
}

/// A rejected call: what the scope was given comes back, and nothing has changed.
pub struct Late<R, T> {
    pub reason: R,
    pub back: T,
}
