//! From the text of a script to its tokens.
#![tactic(auto)]

mod error;
mod lexer;
mod number;
mod piece;
mod quoted;
mod table;
mod word;

pub use error::LexError;
pub use lexer::lex;
