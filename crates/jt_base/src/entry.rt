//! Entries of a history.

use crate::operation::{Op, Reply};
use crate::path::Path;

/// One operation that was answered.
#[derive(PartialEq, Eq, Debug, Drop)]
pub struct Entry {
    /// One more than the greatest stamp among the earlier entries of the task and of the object's
    /// shard, from 1 on (after Lamport 1978).
    pub stamp: u32,
    /// The worker that made the entry.
    pub worker: u32,
    /// The task that acted.
    pub task: Path,
    pub op: Op,
    pub reply: Reply,
}

/// What a task keeps of one of its entries.
#[derive(PartialEq, Eq, Debug, Drop)]
pub struct Note {
    pub stamp: u32,
    pub reply: Reply,
}

/// The answer of an object that is asked an operation.
#[derive(PartialEq, Eq, Debug, Drop)]
pub enum Ask {
    Done(Reply),
    /// No reply is allowed now, and the object is as it was.
    NotYet,
}
