//! What is known of a task that is to be made.

use sqlite_items::Items;

/// What is known of a task before its body is gone through.
#[derive(Drop)]
pub struct Making {
    /// How many variables the body has, with what it captures.
    pub variables: usize,
    /// Where the maker has what the body captures.
    pub captured: Items<usize>,
    /// Whether an `@sync` waits for the task.
    pub is_awaited: bool,
    /// Whether the body is itself `@sync`.
    pub is_synced: bool,
}
