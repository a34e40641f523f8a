//! What stands in a script as far as names go.
#![tactic(auto)]

mod mark;
mod outline;

pub use mark::{Mark, ScopeKind, ScopeMark};
pub use outline::{FunctionMark, Outline, Part};
