//! The constants and the functions of a script, each found by its name at once.
#![tactic(auto)]

mod functions;
mod tops;

pub use functions::Functions;
pub use tops::{constants_of, signatures_of};
