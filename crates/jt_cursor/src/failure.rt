//! Why a rule takes no tokens.

ghost use Rattle.std.specs.Prelude.{◌≡◌};

use std::alloc::{AllocError, AllocFailed};

/// Why tokens are refused, by how many are left.
#[derive(Clone, Copy, Debug, PartialEq, Eq, Drop)]
pub enum Failure {
    /// There was no memory for what was read.
    OutOfMemory,
    /// The first of the tokens that are left can't stand there.
    Unexpected(usize),
    /// The first of the tokens that are left is an opener inside as many as may be open.
    TooDeep(usize),
    /// More turns than there are tokens, which does not come.
    Spent,
}

impl From<AllocError> for Failure {
    ghost use Rattle.jt_cursor.specs.declared.failure.Failure.TheVariants.{OutOfMemory};

    ghost from_gives = { λ _ e. e ≡ OutOfMemory };

    fn from(_error: AllocError) -> Failure {
        Failure::OutOfMemory
    }
}

impl<T: Drop> From<AllocFailed<T>> for Failure {
    ghost use Rattle.jt_cursor.specs.declared.failure.Failure.TheVariants.{OutOfMemory};

    ghost from_gives = { λ _ e. e ≡ OutOfMemory };

    fn from(_error: AllocFailed<T>) -> Failure {
        Failure::OutOfMemory
    }
}
