//! Why a script is refused.

use thiserror::Error;

/// Why `parse` gives no script. A place is in bytes from the text's beginning.
#[derive(Clone, Copy, Debug, PartialEq, Eq, Drop, Error)]
pub enum ParseError {
    /// The tokens before the one that begins here begin a script, and with it they begin none.
    #[error("unexpected token at {0}")]
    Unexpected(u32),
    /// The opener that begins here is the first that would be open inside `MOST_OPEN` others.
    #[error("nested too deeply at {0}")]
    TooDeep(u32),
    /// There was no memory for the script.
    #[error("out of memory")]
    OutOfMemory,
}
