//! What a statement does to a section.

use sections::id::SectionId;
use types::code::Label;

/// An access: the statement with this label may read or write elements of this section.
#[derive(Clone, Copy, PartialEq, Eq, Debug)]
pub struct Access {
    pub label: Label,
    pub section: SectionId,
    pub write: bool,
}
