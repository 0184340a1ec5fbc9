use std::alloc::AllocError;

/// Want of memory, the one answer that no clause ties to a cause.
#[derive(Debug, Clone, Copy, PartialEq, Eq)]
pub struct Memory;

impl From<AllocError> for Memory {
    fn from(_refused: AllocError) -> Memory {
        Memory
    }
}
