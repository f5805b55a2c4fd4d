// Refusals that many calls share.
use std::alloc::{AllocError, AllocFailed};

/// Want of memory, the one refusal that every call which allocates may give.
#[derive(Clone, Copy, Debug, PartialEq, Eq)]
pub struct NoMemory;

impl From<AllocError> for NoMemory {
    fn from(_: AllocError) -> Self {
        NoMemory
    }
}

impl<T: Drop> From<AllocFailed<T>> for NoMemory {
    fn from(_: AllocFailed<T>) -> Self {
        NoMemory
    }
}

/// Why a text is no path.
#[derive(Clone, Copy, Debug, PartialEq, Eq)]
pub enum PathFault {
    /// It doesn't begin with `/`, or has a name that is empty or forbidden.
    BadName,
    /// It has more than 1,024 bytes, or a name of more than 64.
    TooLong,
    /// It has more than 32 names.
    TooDeep,
    NoMemory,
}
