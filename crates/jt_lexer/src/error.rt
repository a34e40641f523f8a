//! Why a text has no tokens.

use std::alloc::{AllocError, AllocFailed};
use thiserror::Error;

/// Why `lex` gives no tokens. A place is in bytes from the text's beginning.
#[derive(Clone, Copy, Debug, PartialEq, Eq, Drop, Error)]
pub enum LexError {
    /// No token begins or goes on with the character whose first byte stands here.
    #[error("bad character at {0}")]
    BadCharacter(u32),
    /// The string or comment that begins here isn't closed.
    #[error("open string at {0}")]
    OpenString(u32),
    /// The number that begins here is greater than 9223372036854775807.
    #[error("number too large at {0}")]
    NumberTooLarge(u32),
    /// There was no memory for the tokens.
    #[error("out of memory")]
    OutOfMemory,
}

impl From<AllocError> for LexError {
    ghost use Rattle.std.specs.Prelude.{◌≡◌};
    ghost use Rattle.jt_lexer.specs.declared.error.LexError.TheVariants.{OutOfMemory};

    ghost from_gives = { λ _ e. e ≡ OutOfMemory };

    fn from(_error: AllocError) -> LexError {
        LexError::OutOfMemory
    }
}

impl<T: Drop> From<AllocFailed<T>> for LexError {
    ghost use Rattle.std.specs.Prelude.{◌≡◌};
    ghost use Rattle.jt_lexer.specs.declared.error.LexError.TheVariants.{OutOfMemory};

    ghost from_gives = { λ _ e. e ≡ OutOfMemory };

    fn from(_error: AllocFailed<T>) -> LexError {
        LexError::OutOfMemory
    }
}
