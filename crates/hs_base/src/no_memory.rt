use std::alloc::AllocError;

/// Want of memory.
#[derive(Debug, Drop)]
pub struct NoMemory;

impl From<AllocError> for NoMemory {
    fn from(_: AllocError) -> NoMemory {
        NoMemory
    }
}
