use std::alloc::AllocError;

/// Out of memory.
pub type NoMemory = AllocError;
