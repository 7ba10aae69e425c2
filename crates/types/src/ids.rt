//! Numbers that identify scalars and procedures.

/// A scalar of a procedure, which is the number of its slot in a frame. The parameters come first.
#[derive(Clone, Copy, PartialEq, Eq, Debug)]
pub struct Slot {
    pub number: usize,
}

/// A procedure of the program, by its number in the order of the text.
#[derive(Clone, Copy, PartialEq, Eq, Debug)]
pub struct ProcedureId {
    pub number: usize,
}
