//! The functions of the language.
#![tactic(auto)]

mod function;

pub use function::{Arity, Function, arity_of, is_language_function};
