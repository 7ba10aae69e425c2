//! The kinds of names.

/// What a name denotes.
#[derive(Clone, Copy, PartialEq, Eq)]
pub enum NameKind {
    Scalar,
    /// A section that can be written. `bytes` is whether its elements are bytes.
    Written { bytes: bool },
    /// A section that is read-only.
    Read { bytes: bool },
}

impl NameKind {
    /// Returns whether it is a section.
    pub fn is_section(self) -> bool {
        match self {
            NameKind::Scalar => false,
            _ => true,
        }
    }

    /// Returns whether it is a section that can be written.
    pub fn is_written(self) -> bool {
        match self {
            NameKind::Written { .. } => true,
            _ => false,
        }
    }

    /// Returns whether its elements are bytes.
    pub fn bytes(self) -> bool {
        match self {
            NameKind::Scalar => false,
            NameKind::Written { bytes } => bytes,
            NameKind::Read { bytes } => bytes,
        }
    }

    /// Returns the name of its element type.
    pub fn element(self) -> &'static str {
        if self.bytes() { "byte" } else { "int" }
    }

    /// Returns whether it is a read-only section.
    pub fn is_read(self) -> bool {
        match self {
            NameKind::Read { .. } => true,
            _ => false,
        }
    }
}
