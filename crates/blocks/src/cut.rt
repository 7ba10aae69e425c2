//! What is cut out of a block.

/// What a block will lose: all that it holds, or numbers that were copied.
#[derive(Drop)]
pub struct Cut {
    /// The number of numbers that were copied, or 0 if the block moves unchanged.
    pub copied: u64,
}
