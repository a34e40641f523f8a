//! From the tokens of a script to its tree.
#![tactic(auto)]

mod error;
mod parsing;
mod top;

pub use error::ParseError;
pub use parsing::parse;
