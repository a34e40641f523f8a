//! Why a text isn't read.

ghost use Rattle.std.specs.Prelude.{◌≡◌};
ghost use Rattle.jt_trace.specs.declared.unread.Unread.TheVariants.{Memory};

use jt_base::OutOfMemory;
use std::alloc::{AllocError, AllocFailed};
use thiserror::Error;

/// Why a part of a line isn't read.
#[derive(Clone, Copy, PartialEq, Eq, Debug, Drop)]
pub(crate) enum Unread {
    /// It isn't of the form that stands there.
    Malformed,
    Memory,
}

impl From<OutOfMemory> for Unread {
    ghost from_gives = { λ _ e. e ≡ Memory };

    fn from(_error: OutOfMemory) -> Self {
        Unread::Memory
    }
}

impl From<AllocError> for Unread {
    ghost from_gives = { λ _ e. e ≡ Memory };

    fn from(_error: AllocError) -> Self {
        Unread::Memory
    }
}

impl<T: Drop> From<AllocFailed<T>> for Unread {
    ghost from_gives = { λ _ e. e ≡ Memory };

    fn from(_error: AllocFailed<T>) -> Self {
        Unread::Memory
    }
}

/// Why a text is no trace.
#[derive(Clone, Copy, PartialEq, Eq, Debug, Drop, Error)]
pub enum TraceError {
    /// This line, counted from 1, is the first that isn't one of a trace's text.
    #[error("line {0} isn't of a trace")]
    BadLine(u64),
    #[error("out of memory")]
    OutOfMemory,
}
