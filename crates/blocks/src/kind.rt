//! How the number at an offset is held.

/// How the number at an offset is held.
#[repr(u8)]
#[derive(Clone, Copy, PartialEq, Eq, Debug)]
pub enum HeldAs {
    /// It isn't held. A number stored there has no meaning.
    Absent,
    /// It is the holder's own.
    Own,
    /// It is a copy.
    Copied,
}
