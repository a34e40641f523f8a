//! Which of the rules of names a script breaks.
#![tactic(auto)]

mod context;
mod found;
mod laws;
mod script;
mod walk;

pub use laws::names_are_meant;
pub use script::{Checked, check};
