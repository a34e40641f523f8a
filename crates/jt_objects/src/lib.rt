//! The state of any object that tasks share: the printer, a task's completion, a named object, or
//! one that isn't made yet. It answers each operation as the object's law says of the list of its
//! earlier entries.
#![tactic(auto)]

mod laws;
mod shared;

pub use laws::{few_entries_are_within, lawful_entries_leave_a_state};
pub use shared::Shared;
