//! Programs: scripts whose names are bound and whose functions, task bodies and variables are
//! numbered.
#![tactic(auto)]

mod code;
mod program;

pub use code::{Arm, BuiltIn, Callee, Code, Fork, Literal, Piece};
pub use program::{Body, Program};
