//! Entries of a book.

use types::path::Path;

/// A weight that came back, and the path of the task that returned it.
#[derive(Drop)]
pub struct Entry {
    pub path: Path,
    pub weight: u64,
}
