//! What tasks wait for and hold: a task's completion, events, semaphores, locks and conditions.
//! Each answers an operation as its law says of the list of its earlier entries.
#![tactic(auto)]

mod absence;
mod bounds;
mod completion;
mod condition;
mod event;
mod lock;
mod semaphore;
mod waiting_list;

pub use bounds::{condition_counts_within_entries, lock_level_within_entries};
pub use completion::Completion;
pub use condition::CondLock;
pub use event::Event;
pub use lock::Lock;
pub use semaphore::Sema;
