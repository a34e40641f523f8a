//! What becomes of an operation.

use jt_base::{Op, Reply};

/// What a shard answers a job.
#[derive(PartialEq, Eq, Debug, Drop)]
pub enum Applied {
    /// The operation has its entry, with this reply.
    Done(Reply),
    /// The operation isn't allowed now.
    NotYet(Op),
    /// The operation is allowed, but the stamp of its entry would be greater than the limit.
    StampLimit(Op),
}
