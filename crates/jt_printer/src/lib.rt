//! From the tree of a script to a text of that script.
#![tactic(auto)]

mod kinds;
mod memory;
mod operator;
mod print;
mod reading;
mod script;
mod text;
mod trees;

pub use memory::OutOfMemory;
pub use print::print_script;
pub use reading::{RereadError, reread};
