//! Why a call was refused, where there is one reason only.
use std::alloc::{AllocError, AllocFailed};

/// out of memory.
#[derive(Clone, Copy, Debug, PartialEq, Eq)]
pub struct NoMemory;

/// The event's guard does not hold now.
#[derive(Clone, Copy, Debug, PartialEq, Eq)]
pub struct NotEnabled;

/// There is nothing to take yet.
#[derive(Clone, Copy, Debug, PartialEq, Eq)]
pub struct NotReady;

/// No channel is free.
#[derive(Clone, Copy, Debug, PartialEq, Eq)]
pub struct NoChannel;

impl From<AllocError> for NoMemory {
    fn from(_: AllocError) -> NoMemory {
        NoMemory
    }
}

impl<T: Drop> From<AllocFailed<T>> for NoMemory {
    fn from(_: AllocFailed<T>) -> NoMemory {
        NoMemory
    }
}
