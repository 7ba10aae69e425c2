//! The paths of tasks that are yet to be spawned.

use std::alloc::AllocError;
use trace_numbers::chains::Chains;
use types::child_number::ChildNumber;
use types::path::Path;

/// Returns the child that a task spawns next, given the chains so far.
pub fn next_child(chains: &Chains, path: &Path) -> Result<Path, AllocError> {
    let number = chains.chain(path).spawned.saturating_add(1);
    // A path can't name any more children.
    match u32::try_from(number).ok().and_then(ChildNumber::new) {
        Some(number) => path.child(number),
        None => Err(AllocError),
    }
}
