//! Lists of names that are open, one within the other, in which a name's innermost list is found at once.
#![tactic(auto)]

mod holders;
mod table;

pub use holders::Holders;
