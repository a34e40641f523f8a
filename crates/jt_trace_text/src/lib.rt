//! The text of a recorded history: definitions, and functions whose contracts state laws about
//! them.
#![tactic(auto)]

mod keywords;
mod laws;

pub use keywords::{NumberWord, ObjectWord};
pub use laws::{one_line_is_first_bad, text_has_one_trace, trace_has_one_text};
