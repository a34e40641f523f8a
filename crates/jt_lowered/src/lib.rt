//! What the parts of a script are in a program.
#![tactic(auto)]

mod target;

pub use target::Target;
