//! Want of memory.

use std::alloc::{AllocError, AllocFailed};
use thiserror::Error;

/// No memory was to be had. A value that was changed by the call that answers this is as it was
/// before, unless the call says otherwise.
#[derive(Clone, Copy, PartialEq, Eq, Debug, Drop, Error)]
#[error("out of memory")]
pub struct OutOfMemory;

impl From<AllocError> for OutOfMemory {
    fn from(_error: AllocError) -> Self {
        OutOfMemory
    }
}

impl<T: Drop> From<AllocFailed<T>> for OutOfMemory {
    fn from(_error: AllocFailed<T>) -> Self {
        OutOfMemory
    }
}
