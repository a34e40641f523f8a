//! Reading a source to its end.

ghost use Rattle.std.specs.Prelude.{◌≡◌, ◌+◌, ◌≤◌, length, IfOk, IsErrOf};
ghost use Rattle.jt_base.specs.Outside.{Rose, ReadsToEnd, Gives};
ghost use Rattle.jt_tool.specs.declared.reading.ReadError.TheVariants.{Failed, TooLarge, OutOfMemory as NoMemory};

use jt_base::{ReadFailed, Source};
use std::alloc::{AllocError, Global};
use thiserror::Error;

/// The most bytes of one read.
const BUFFER: usize = 4096;

/// Why a source wasn't read to its end.
#[derive(Clone, Copy, PartialEq, Eq, Debug, Drop, Error)]
pub(crate) enum ReadError {
    /// A read failed.
    #[error("reading failed")]
    Failed,
    /// The source gave more bytes than the limit.
    #[error("the input is too large")]
    TooLarge,
    #[error("out of memory")]
    OutOfMemory,
}

/// Reads `source` to its end, or one byte past `limit`. `TooLarge` exactly where it gives more
/// than `limit` bytes before a read fails or memory is wanting; `Failed` only where a read failed,
/// which ends the reading. After an error the bytes that were read are lost.
pub(crate) fn read_all<S: Source>(
    alloc: Global,
    source: &mut S,
    limit: usize,
) -> Result<Vec<u8>, ReadError>
    ensures whole { IfOk result (λ bytes. ReadsToEnd (S.left source.old) (S.left source.new) bytes.items) }
    ensures limited { IfOk result (λ bytes. length bytes.items ≤ limit) }
    ensures too_large { IsErrOf result ReadError.TooLarge → Gives (S.left source.old) (S.left source.new) (limit + 1) }
    ensures failed { IsErrOf result ReadError.Failed → Rose (S.faults source.old) (S.faults source.new) }
    ensures never_falls { S.faults source.old ≤ S.faults source.new }
{
    let mut bytes = Vec::new(alloc);
    let mut buffer = [0; BUFFER];
    while bytes.len() <= limit {
        let most = (limit - bytes.len()).min(BUFFER - 1) + 1;
        let count = source.read(&mut buffer[..most])?;
        if count == 0 {
            return Ok(bytes);
        }
        bytes.extend_from_slice(&buffer[..count])?;
    }
    Err(ReadError::TooLarge)
}

impl From<ReadFailed> for ReadError {
    ghost from_gives = { λ _ e. e ≡ Failed };

    fn from(_error: ReadFailed) -> ReadError {
        ReadError::Failed
    }
}

impl From<AllocError> for ReadError {
    ghost from_gives = { λ _ e. e ≡ NoMemory };

    fn from(_error: AllocError) -> ReadError {
        ReadError::OutOfMemory
    }
}
