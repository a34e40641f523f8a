//! The text of a recorded history: writing it, and reading it back with the first line that isn't
//! of the format.
#![tactic(auto)]

mod read_entries;
mod read_lines;
mod read_operations;
mod read_words;
mod reading;
mod trace;
mod unread;
mod write_entries;
mod write_operations;
mod write_words;
mod writing;

pub use reading::read_trace;
pub use trace::Trace;
pub use unread::TraceError;
pub use writing::write_trace;
