//! The rules of names, and why a script has no program.
#![tactic(auto)]

mod error;
mod rules;

pub use error::{NameError, refusal};
pub use rules::{Broken, Rule, is_wrong};
